// The memory that answering a file can need, asked for before a byte is read.

ghost use Rattle.std.specs.Prelude.{◌≡◌, ℕ, ◌+◌, ◌≤◌, [], length, replicate, vec_len};
ghost use Rattle.std.specs.String.{string_bytes, string_len, string_capacity};
ghost use Rattle.networks.specs.Limits.{most_nodes, most_arcs};
ghost use Rattle.files.specs.Tables.{most_bytes};
ghost use Rattle.planner.specs.Texts.{text_room};

use costs::{CostKind, Plain, TwoTier};
use files::MOST_BYTES;
use makes::Row;
use networks::{MOST_ARCS, MOST_NODES};
use runs::{Call, Outcome};
use std::alloc::{AllocError, Global};

// The most bytes of a flow's line, whatever its numbers. Any other line has at most 64.
const LINE_ROOM: usize = 40;

// The most bytes of an answer: the line of the total, and one for each flow.
const TEXT_ROOM: usize = 64 + LINE_ROOM * MOST_ARCS;

// Writes one value all over a table.
pub(crate) fn fill<T: Copy>(table: &mut [T], value: T)
    ensures { table.new ≡ replicate (length table.old) value }
{
    for slot in table.iter_mut() {
        *slot = value;
    }
}

// The tables of the largest plan with costs of one kind, a list of one call and its outcome.
#[derive(Drop)]
pub(crate) struct Tables<C> {
    pub(crate) rows: Vec<Row<C>>,
    pub(crate) flow: Vec<i32>,
    pub(crate) needs: Vec<i32>,
    pub(crate) prices: Vec<C>,
    pub(crate) marks: Vec<u8>,
    pub(crate) calls: Vec<Call<C>>,
    pub(crate) outcomes: Vec<Outcome<C>>,
    pub(crate) ghost rows_long: { vec_len rows ≡ most_arcs },
    pub(crate) ghost flow_long: { vec_len flow ≡ most_arcs },
    pub(crate) ghost needs_long: { vec_len needs ≡ most_nodes },
    pub(crate) ghost prices_long: { vec_len prices ≡ most_nodes },
    pub(crate) ghost marks_long: { vec_len marks ≡ most_nodes },
    pub(crate) ghost one_call: { vec_len calls ≡ 1 },
    pub(crate) ghost one_outcome: { vec_len outcomes ≡ 1 },
}

impl<C: CostKind> Tables<C> {
    fn ask(heap: Global) -> Result<Tables<C>, AllocError> {
        let rows = vec![in heap; Row::new(0, 0, 0, 0, C::zero()); MOST_ARCS]?;
        let flow = vec![in heap; 0i32; MOST_ARCS]?;
        let needs = vec![in heap; 0i32; MOST_NODES]?;
        let prices = vec![in heap; C::zero(); MOST_NODES]?;
        let marks = vec![in heap; 0u8; MOST_NODES]?;
        let calls = vec![in heap; Call::Settle { budget: 0 }; 1]?;
        let outcomes = vec![in heap; Outcome::Done; 1]?;
        Ok(Tables {
            rows,
            flow,
            needs,
            prices,
            marks,
            calls,
            outcomes,
        })
    }
}

/// Room for the bytes of the largest file and one more, for the tables of its plan, with costs of either kind,
/// and for the text of its answer.
#[derive(Drop)]
pub struct Room {
    pub(crate) file: Vec<u8>,
    pub(crate) plain: Tables<Plain>,
    pub(crate) two_tier: Tables<TwoTier>,
    pub(crate) text: String,
    pub(crate) ghost file_long: { vec_len file ≡ most_bytes + 1 },
    pub(crate) ghost text_empty: { string_bytes text ≡ [] },
    pub(crate) ghost text_long: { string_len text + text_room ≤ string_capacity text },
}

impl Room {
    /// Asks for the memory, and fails only where it is wanting.
    pub fn ask(heap: Global) -> Result<Room, AllocError> {
        let file = vec![in heap; 0u8; MOST_BYTES + 1]?;
        let plain = Tables::ask(heap)?;
        let two_tier = Tables::ask(heap)?;
        let text = String::with_capacity(heap, TEXT_ROOM)?;
        Ok(Room {
            file,
            plain,
            two_tier,
            text,
        })
    }
}
