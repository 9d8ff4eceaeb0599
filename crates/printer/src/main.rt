// The plan printer: reads one record from standard input, and prints why it is refused or the steps of its plan.
#![tactic(auto)]

ghost use Rattle.std.specs.Prelude.{◌≤◌, length};
ghost use Rattle.area.specs.Puts.{Puts};
ghost use Rattle.planning.specs.Answer.{answer_of};
ghost use Rattle.printer.specs.Printout.{text_for, Prints};
ghost use Rattle.printer.specs.Code.{Counted};

use planning::PlanError;

// Standard input and output stay with `io`: std reads up to the end of the input only into memory of the heap, or forgets how much there was.
const STDIN: i32 = 0;

const STDOUT: i32 = 1;

// The number of the answer that no plan exists.
const IMPOSSIBLE: u32 = 9;

// Puts the text of an answer at the front of an area, and answers its length.
fn put_answer(
    planned: Result<usize, PlanError>,
    places: &[u8],
    sums: &[u8],
    out: &mut [u8],
) -> usize
    requires { Counted (answer_of planned) places.now sums.now × (46035 ≤ length out.old) }
    ensures puts { Puts (text_for (answer_of planned) places.now sums.now) out.old 0 result out.new }
    ensures upper_bound { result ≤ length out.new }
{
    match planned {
        Ok(n) => text::put_plan(n, places, sums, out),
        Err(PlanError::Impossible) => text::put_refusal(IMPOSSIBLE, out),
        Err(PlanError::Refused(e)) => text::put_refusal(u32::from(e), out),
    }
}

// Plans a record, puts the text that answers it at the front of an area, and answers its length. There are areas for 1,000 units and 128 rows, and
// the text of 2,001 steps has room: 12 bytes, and 23 for each step.
fn print_plan(bytes: &[u8], out: &mut [u8]) -> usize
    requires { 46035 ≤ length out.old }
    ensures { Prints bytes.now out.old result out.new }
{
    let mut places = [0u8; 4002];
    let mut sums = [0u8; 8004];
    let mut order = [0u8; 8];
    let mut work = [0u8; 32768];
    let planned = planner::plan(bytes, &mut places, &mut sums, &mut order, &mut work);
    put_answer(planned, &places, &sums, out)
}

// "at most 8,016 bytes (anything after them gets 7 ..)": one byte more is read, and refused as a byte after the last field.
fn main() {
    let mut bytes = [0u8; 8017];
    let mut out = [0u8; 46035];
    let n = io::read_full(STDIN, &mut bytes);
    let length = print_plan(&bytes[..n], &mut out);
    io::write_all(STDOUT, &out[..length]);
}
