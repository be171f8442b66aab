// Reading the file from a reader, and writing its answer to a writer.

ghost use Rattle.std.specs.Prelude.{◌≡◌, ℕ, ◌+◌, ◌≤◌, List, [], length, take, OnOk, IfOk, IfSome};
ghost use Rattle.std.specs.String.{string_bytes, string_len, string_capacity};
ghost use Rattle.std.specs.Io.KnownBytes.{Appends};
ghost use Rattle.files.specs.Tables.{most_bytes};
ghost use Rattle.planner.specs.Texts.{text_room};
ghost use Rattle.planner.specs.Files.{FileText, part_read};

use crate::answers::text_for;
use crate::room::{Room, Tables};
use costs::{Plain, TwoTier};
use std::io;
use std::io::{Read, Write};

// Reads until the reader ends or the room is full, and says how many bytes; any error of the reader ends it.
fn read_into<R: Read>(reader: &mut R, room: &mut [u8]) -> io::Result<usize>
    ensures within { IfOk result (λ n. n ≤ length room.old) }
    ensures bytes { IfOk result (λ n. IfSome (R.remaining reader.old)
        (λ bytes. take n room.new ≡ take (length room.old) bytes)) }
{
    let mut len = 0;
    while len < room.len() {
        let n = reader.read(&mut room[len..])?;
        if n == 0 {
            break;
        }
        len += n;
    }
    Ok(len)
}

// The text for the file that the reader has, read into so much room.
fn text_from<R: Read>(
    reader: &mut R,
    file: &mut [u8],
    plain: Tables<Plain>,
    two_tier: Tables<TwoTier>,
    out: String,
) -> io::Result<String>
    requires long { length file.old ≡ most_bytes + 1 }
    requires empty { string_bytes out ≡ [] }
    requires sheet { string_len out + text_room ≤ string_capacity out }
    ensures { IfOk result (λ text. IfSome (R.remaining reader.old)
        (λ bytes. FileText (part_read bytes) (string_bytes text))) }
{
    let len = read_into(reader, file)?;
    Ok(text_for(&file[..len], plain, two_tier, out))
}

/// The answer to the file that a reader has. It reads one byte more than a file may have, and no further; an
/// error of the reader is passed on, and there is no answer.
pub fn answer_from<R: Read>(room: Room, reader: &mut R) -> io::Result<String>
    ensures { IfOk result (λ text. IfSome (R.remaining reader.old)
        (λ bytes. FileText (part_read bytes) (string_bytes text))) }
{
    let Room {
        mut file,
        plain,
        two_tier,
        text,
    } = room;
    text_from(reader, &mut file, plain, two_tier, text)
}

/// Writes the answer to the file that a reader has, and nothing else.
pub fn answer_through<R: Read, W: Write>(
    room: Room,
    reader: &mut R,
    writer: &mut W,
) -> io::Result<()>
    ensures { OnOk result (IfSome (R.remaining reader.old) (λ bytes.
        (text : List ℕ) × FileText (part_read bytes) text
        × Appends (W.contents writer.old) (W.contents writer.new) text)) }
{
    let text = answer_from(room, reader)?;
    writer.write_all(text.as_bytes())
}
