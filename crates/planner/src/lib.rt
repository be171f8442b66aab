// What the program `plan` does between the bytes that it reads and the bytes that it writes: a network file is
// read, its plan of least cost is sought from zero flow, and the answer is written as text.
//
// `Room::ask` asks for all memory, and fails only where that is wanting. `answer` says, for every file, which
// text is its answer: the refusal of a file that is not in order, or what came of one settle of the plan of its
// rows, made through `run` of the crate `plans`, with the law of that event. `answer_from` has the file from
// a reader, and `answer_through` writes the text to a writer too.
#![tactic(auto)]

mod answers;
mod reading;
mod room;
mod settling;
mod texts;

pub use answers::answer;
pub use reading::{answer_from, answer_through};
pub use room::Room;
