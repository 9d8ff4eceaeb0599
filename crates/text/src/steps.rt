// The lines of a plan's steps, put into an area.
ghost use Rattle.std.specs.Prelude.{◌+◌, ◌≤◌, ◌<◌, length};
ghost use Rattle.area.specs.Puts.{Puts};
ghost use Rattle.exchange.specs.PlanIn.{plan_in};
ghost use Rattle.text.specs.Text.{line, lines};
ghost use Rattle.text.specs.Code.{Room};

use crate::number::put_number;

// Puts the line of a step into an area, and answers where it ends.
fn put_step(number: u32, place: u16, paid: u32, out: &mut [u8], at: usize) -> usize
    requires { (number < 100000) × (at + 23 ≤ length out.old) }
    ensures { Puts (line number (record { place = place; paid = paid })) out.old at result out.new }
{
    let first = put_number(number, b' ', out, at);
    let second = put_number(u32::from(place), b' ', out, first);
    put_number(paid, b'\n', out, second)
}

// Puts the lines of all steps into an area, and answers where they end. The step number's cast stays, as the count's in `put_plan`.
pub(crate) fn put_steps(
    count: usize,
    places: &[u8],
    sums: &[u8],
    out: &mut [u8],
    at: usize,
) -> usize
    requires { Room count places.now sums.now out.old at }
    ensures puts { Puts (lines 1 (plan_in count places.now sums.now)) out.old at result out.new }
    ensures upper_bound { result ≤ length out.new }
{
    let mut end = at;
    for k in 0..count {
        let place = area::entry::<u16>(places, k);
        let paid = area::entry::<u32>(sums, k);
        end = put_step((k + 1) as u32, place, paid, out, end);
    }
    end
}
