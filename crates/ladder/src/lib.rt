// Plans, checks and bounds a ladder as it stands in its record, unit by unit: nothing is copied, and the totals come from the reader.
#![tactic(auto)]

ghost use Rattle.std.specs.Prelude.{◌≡◌, true, Ok, ◌≤◌, length};
ghost use Rattle.area.specs.Entries.{entries};
ghost use Rattle.exchange.specs.PlanIn.{plan_in};
ghost use Rattle.exchange.specs.Test.{bounds_at};
ghost use Rattle.line.specs.CheckCode.{Judges};
ghost use Rattle.line.specs.Promise.{Answers};
ghost use Rattle.ladder.specs.Rises.{Lies, Room, deal_in};

mod rises;

use exchange::{Bounds, Objective, Sides};
use line::Totals;
use rises::Rises;

// A ladder in its record: P and the defection costs, the totals of its units, and the index of its first rise.
#[derive(Clone, Copy)]
pub struct Ladder {
    pub sides: Sides,
    pub all: Totals,
    pub first: usize,
}

// Plans a ladder for an aim: the places and paid totals of the steps go to two byte areas, two and four bytes an entry, and zeros after them.
pub fn plan(
    l: Ladder,
    s: &[u8],
    aim: Objective,
    places: &mut [u8],
    sums: &mut [u8],
) -> Option<usize>
    requires { Lies l s.now × Room l places.old sums.old }
    ensures { Answers aim (deal_in l s.now) true (Ok result) places.old sums.old places.new sums.new }
{
    let rises = Rises {
        ladder: l,
        bytes: s,
    };
    line::plan_line(&rises, aim, places, sums)
}

// Both bounds of a place.
pub fn bounds(l: Ladder, s: &[u8], place: usize) -> Bounds
    requires { Lies l s.now × (place ≤ l.all.units) }
    ensures { result ≡ bounds_at (deal_in l s.now) place }
{
    let rises = Rises {
        ladder: l,
        bytes: s,
    };
    line::bounds_line(&rises, place)
}

// Whether the first entries of two byte areas, places and paid totals, are a plan.
pub fn check(l: Ladder, s: &[u8], count: usize, places: &[u8], sums: &[u8]) -> bool
    requires { Lies l s.now × (count ≤ length (entries 2 places.now)) × (count ≤ length (entries 4 sums.now)) }
    ensures { Judges (deal_in l s.now) (plan_in count places.now sums.now) result }
{
    let rises = Rises {
        ladder: l,
        bytes: s,
    };
    line::check_line(&rises, count, places, sums)
}
