// The text of an answer, written into room that was asked for: a line each for the total and every flow, for
// every node of a cut, or for a refusal. Nothing here fails.

ghost use Rattle.std.specs.Prelude.{◌≡◌, ℕ, ◌+◌, ◌*◌, ◌≤◌, ◌++◌, length, codes};
ghost use Rattle.std.specs.String.{string_bytes, string_len, string_capacity};
ghost use Rattle.files.specs.Faults.{fault_text};
ghost use Rattle.networks.specs.Stops.{stop_text};
ghost use Rattle.planner.specs.Texts.{flow_line, flow_lines, cut_line, cut_lines, cost_text, least_line, paused_line, refusal_line, answer_text};

use files::{FileCost, FileFault, ReadStop};
use itoa::{Buffer, Integer};
use networks::Stop;
use search::Answer;

// Writes a text for which there is room.
fn put(out: &mut String, text: &str)
    requires { string_len out.old + length text.now ≤ string_capacity out.old }
    ensures bytes { string_bytes out.new ≡ string_bytes out.old ++ text.now }
    ensures len { string_len out.new ≡ string_len out.old + length text.now }
    ensures room { string_capacity out.old ≤ string_capacity out.new }
{
    let Ok(()) = out.push_str(text) else {
        unreachable!();
    };
}

// Writes a number.
fn put_number<I: Integer>(out: &mut String, n: I)
    requires { string_len out.old + I.MAX_STR_LEN ≤ string_capacity out.old }
    ensures bytes { string_bytes out.new ≡ string_bytes out.old ++ I.text n }
    ensures len { string_len out.new ≤ string_len out.old + I.MAX_STR_LEN }
    ensures room { string_capacity out.old ≤ string_capacity out.new }
{
    let mut buffer = Buffer::new();
    put(out, buffer.format(n));
}

// The line of a flow, of at most 40 bytes.
fn put_flow(out: &mut String, arc: usize, carried: i32)
    requires { string_len out.old + 40 ≤ string_capacity out.old }
    ensures bytes { string_bytes out.new ≡ string_bytes out.old ++ flow_line arc carried }
    ensures len { string_len out.new ≤ string_len out.old + 40 }
    ensures room { string_capacity out.old ≤ string_capacity out.new }
{
    put(out, "(flow ");
    put_number(out, arc);
    put(out, " ");
    put_number(out, carried);
    put(out, ")\n");
}

fn write_flow(out: &mut String, flow: &[i32])
    requires { string_len out.old + 40 * length flow.now ≤ string_capacity out.old }
    ensures { string_bytes out.new ≡ string_bytes out.old ++ flow_lines 1 flow.now }
{
    for (i, carried) in flow.iter().enumerate() {
        put_flow(out, i + 1, *carried);
    }
}

// The line of a node of a cut.
fn put_node(out: &mut String, node: usize)
    requires { string_len out.old + 40 ≤ string_capacity out.old }
    ensures bytes { string_bytes out.new ≡ string_bytes out.old ++ cut_line node }
    ensures len { string_len out.new ≤ string_len out.old + 40 }
    ensures room { string_capacity out.old ≤ string_capacity out.new }
{
    put(out, "(cut ");
    put_number(out, node);
    put(out, ")\n");
}

fn write_cut(out: &mut String, marks: &[u8])
    requires { string_len out.old + 40 * length marks.now ≤ string_capacity out.old }
    ensures { string_bytes out.new ≡ string_bytes out.old ++ cut_lines 1 marks.now }
{
    for (i, mark) in marks.iter().enumerate() {
        if *mark == 1 {
            put_node(out, i + 1);
        }
    }
}

// A cost by its numbers.
fn put_cost<C: FileCost>(out: &mut String, cost: C)
    requires { string_len out.old + 41 ≤ string_capacity out.old }
    ensures bytes { string_bytes out.new ≡ string_bytes out.old ++ cost_text C.FileCost.numbers cost }
    ensures len { string_len out.new ≤ string_len out.old + 41 }
    ensures room { string_capacity out.old ≤ string_capacity out.new }
{
    put_number(out, cost.first());
    if C::tiers() > 1 {
        put(out, " ");
        put_number(out, cost.second());
    }
}

fn write_least<C: FileCost>(out: &mut String, total: C, flow: &[i32])
    requires { string_len out.old + (64 + 40 * length flow.now) ≤ string_capacity out.old }
    ensures { string_bytes out.new ≡ string_bytes out.old
        ++ (least_line (cost_text C.FileCost.numbers total) ++ flow_lines 1 flow.now) }
{
    put(out, "(least ");
    put_cost(out, total);
    put(out, ")\n");
    write_flow(out, flow);
}

fn write_none(out: &mut String, marks: &[u8])
    requires { string_len out.old + (64 + 40 * length marks.now) ≤ string_capacity out.old }
    ensures { string_bytes out.new ≡ string_bytes out.old ++ (codes "(none)\n" ++ cut_lines 1 marks.now) }
{
    put(out, "(none)\n");
    write_cut(out, marks);
}

fn write_paused(out: &mut String, laps: u32)
    requires { string_len out.old + 64 ≤ string_capacity out.old }
    ensures { string_bytes out.new ≡ string_bytes out.old ++ paused_line laps }
{
    put(out, "(paused ");
    put_number(out, laps);
    put(out, ")\n");
}

// A fault of a file, as it prints.
fn put_fault(out: &mut String, fault: FileFault)
    requires { string_len out.old + 48 ≤ string_capacity out.old }
    ensures bytes { string_bytes out.new ≡ string_bytes out.old ++ (codes "13 " ++ fault_text fault) }
    ensures len { string_len out.new ≤ string_len out.old + 48 }
    ensures room { string_capacity out.old ≤ string_capacity out.new }
{
    let (line, place, cause) = fault.told();
    put(out, "13 ");
    put_number(out, line);
    put(out, " ");
    put_number(out, place);
    put(out, " ");
    put_number(out, cause);
}

// A stop, as it prints.
fn put_stop(out: &mut String, stop: Stop)
    requires { string_len out.old + 48 ≤ string_capacity out.old }
    ensures bytes { string_bytes out.new ≡ string_bytes out.old ++ stop_text stop }
    ensures len { string_len out.new ≤ string_len out.old + 48 }
    ensures room { string_capacity out.old ≤ string_capacity out.new }
{
    put_number(out, stop.number());
    put(out, " ");
    put_number(out, stop.place());
}

pub fn write_refusal(out: &mut String, stop: ReadStop)
    requires { string_len out.old + 64 ≤ string_capacity out.old }
    ensures { string_bytes out.new ≡ string_bytes out.old ++ refusal_line stop }
{
    put(out, "(refused ");
    match stop {
        ReadStop::Fault(fault) => put_fault(out, fault),
        ReadStop::Stop(stop) => put_stop(out, stop),
    }
    put(out, ")\n");
}

pub fn write_answer<C: FileCost>(
    out: &mut String,
    settled: Result<Answer<C>, ReadStop>,
    flow: &[i32],
    marks: &[u8],
)
    requires flow { string_len out.old + (64 + 40 * length flow.now) ≤ string_capacity out.old }
    requires marks { string_len out.old + (64 + 40 * length marks.now) ≤ string_capacity out.old }
    ensures { string_bytes out.new ≡ string_bytes out.old
        ++ answer_text (cost_text C.FileCost.numbers) settled flow.now marks.now }
{
    match settled {
        Ok(Answer::Least { total, .. }) => write_least(out, total, flow),
        Ok(Answer::Paused { laps }) => write_paused(out, laps),
        Ok(Answer::None) => write_none(out, marks),
        Err(stop) => write_refusal(out, stop),
    }
}
