// The text that answers a record, put into an area. A plan stays a count and two areas, as the planner fills them for C.
#![tactic(auto)]

ghost use Rattle.std.specs.Prelude.{[], ◌≤◌, length};
ghost use Rattle.area.specs.Puts.{Puts};
ghost use Rattle.contract.specs.Res.{refused, ok};
ghost use Rattle.exchange.specs.PlanIn.{plan_in};
ghost use Rattle.text.specs.Text.{text};
ghost use Rattle.text.specs.Code.{Room};

mod number;
mod steps;

use number::{put_bytes, put_number};

// Puts the text of a refusal at the front of an area, and answers its length.
pub fn put_refusal(number: u32, out: &mut [u8]) -> usize
    requires { 19 ≤ length out.old }
    ensures puts { Puts (text (refused number) []) out.old 0 result out.new }
    ensures upper_bound { result ≤ length out.new }
{
    let at = put_bytes(b"refused ", out, 0);
    put_number(number, b'\n', out, at)
}

// Puts the text of a plan, the first entries of two byte areas, at the front of an area, and answers its length. The first
// line has at most 12 bytes. The count's cast stays: usize has no From to u32, and the contract says that it fits.
pub fn put_plan(count: usize, places: &[u8], sums: &[u8], out: &mut [u8]) -> usize
    requires { Room count places.now sums.now out.old 12 }
    ensures puts { Puts (text (ok count) (plan_in count places.now sums.now)) out.old 0 result out.new }
    ensures upper_bound { result ≤ length out.new }
{
    let word = put_bytes(b"steps ", out, 0);
    let at = put_number(count as u32, b'\n', out, word);
    steps::put_steps(count, places, sums, out, at)
}
