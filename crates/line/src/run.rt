// The run of the rule from any first state: filled into the areas, or only measured.
ghost use Rattle.exchange.specs.Arrival.{Arrives};
ghost use Rattle.exchange.specs.Possible.{Possible};
ghost use Rattle.line.specs.Course.{deal_of, Sets, Fills};
ghost use Rattle.line.specs.Code.{state_of};

use super::{First, Line, arrived, pay};

// The steps of the rule from a state on, stored from entry `at` on as far as the areas reach: how many it takes.
pub(crate) fn fill<L: Line>(
    line: &L,
    from: First,
    at: usize,
    places: &mut [u8],
    sums: &mut [u8],
) -> usize
    requires { Possible (deal_of (L.course line.now)) × Sets (L.course line.now) from at }
    ensures { Fills (L.course line.now) (state_of from) at result places.old sums.old places.new sums.new }
{
    let sides = line.sides();
    let all = line.totals();
    let mut c = from.cursor;
    let mut paid = from.paid;
    let mut n: usize = 0;
    // Stays a loop: how many steps there are is what it finds out.
    loop {
        if arrived(c.place, paid, all.units, sides.price) {
            return n;
        }
        let sum = pay(sides, all, c.cost);
        let to = line.deliver(c, paid);
        area::store(places, at + n, to.place as u16);
        area::store(sums, at + n, sum);
        c = to;
        paid = sum;
        n += 1;
    }
}

// How many steps it takes; with no areas nothing is stored.
pub(crate) fn measure<L: Line>(line: &L, from: First) -> usize
    requires { Possible (deal_of (L.course line.now)) × Sets (L.course line.now) from 0 }
    ensures { Arrives (deal_of (L.course line.now)) (state_of from) result }
{
    let mut places = [0u8; 0];
    let mut sums = [0u8; 0];
    fill(line, from, 0, &mut places, &mut sums)
}
