// Plans a deal along one order, given as segments: runs of units with one cost and one value.
#![tactic(auto)]

ghost use Rattle.std.specs.Prelude.{◌≡◌, ◌&&◌, [], min, ◌≤◌, ◌<◌, ◌^◌, eqb, pos, length, true, Ok};
ghost use Rattle.std.specs.Int.Signed.{le_z};
ghost use Rattle.area.specs.Entries.{entries};
ghost use Rattle.exchange.specs.Bounds.{upper_of, lower_of};
ghost use Rattle.exchange.specs.Rule.{coins};
ghost use Rattle.exchange.specs.Objectives.{opening};
ghost use Rattle.exchange.specs.PlanIn.{plan_in};
ghost use Rattle.exchange.specs.Test.{bounds_at, start_test};
ghost use Rattle.line.specs.Promise.{Answers, Plans};
ghost use Rattle.line.specs.BoundsPromise.{BoundsOf};
ghost use Rattle.line.specs.CheckPromise.{Checks};
ghost use Rattle.line.specs.CheckCode.{Judges, passes};
ghost use Rattle.line.specs.Code.{Decides, Begun, meet};
ghost use Rattle.line.specs.Course.{Course, deal_of, Known, Reached, Delivered, Ahead, There, Room};

mod opening;
mod run;
mod segments;
mod sums;

use exchange::{Bounds, Objective, Sides, Unfit};
use segments::Segments;
use sums::add_up;

// All units, and their cost and value together.
#[derive(Clone, Copy)]
pub struct Totals {
    pub units: usize,
    pub cost: u32,
    pub value: u32,
}

// A place along the segments: the segment of its next unit, how many units of that are delivered, and the cost and value so far.
#[derive(Clone, Copy)]
pub struct Cursor {
    pub place: usize,
    pub segment: usize,
    pub used: u16,
    pub cost: u32,
    pub value: u32,
}

// A first state: where the cursor stands, and what is paid.
#[derive(Clone, Copy)]
pub struct First {
    pub cursor: Cursor,
    pub paid: u32,
}

impl Cursor {
    // Nothing delivered.
    pub const START: Cursor = Cursor {
        place: 0,
        segment: 0,
        used: 0,
        cost: 0,
        value: 0,
    };
}

impl First {
    // No step at all.
    const NONE: First = First {
        cursor: Cursor::START,
        paid: 0,
    };
}

// What is paid at a place: the smaller of its upper bound and the price. Where the start is safe no upper bound is below 0, so the sum
// needs no sign.
pub fn pay(sides: Sides, t: Totals, cost: u32) -> u32
    requires { t.cost ≤ sides.price }
    ensures { result ≡ min (coins (upper_of sides.price t.cost cost sides.supplier)) sides.price }
{
    let bound = u64::from(sides.price - t.cost) + u64::from(cost) + u64::from(sides.supplier);
    if bound < u64::from(sides.price) {
        return bound as u32;
    }
    sides.price
}

// Whether a place's lower bound is at most what is paid.
pub fn reaches(sides: Sides, t: Totals, value: u32, paid: u32) -> bool
    ensures { result ≡ le_z (lower_of sides.price t.value value sides.buyer) (pos paid) }
{
    exchange::lower(sides.price, t.value, value, sides.buyer) <= i64::from(paid)
}

// Whether what is paid is at most a place's upper bound. It is at most the price, so clipping the bound changes nothing.
fn affords(sides: Sides, t: Totals, cost: u32, paid: u32) -> bool
    requires { paid ≤ sides.price }
    ensures { result ≡ le_z (pos paid) (upper_of sides.price t.cost cost sides.supplier) }
{
    i64::from(paid) <= exchange::unclipped_upper(sides.price, t.cost, cost, sides.supplier)
}

// Whether it is a step from a place of this cost with p paid to a later place of this value with q paid: all four states are safe.
// Both bounds rise on the way, so the lower bound of the later and the upper bound of the earlier decide.
pub fn is_step(sides: Sides, t: Totals, cost: u32, value: u32, p: u32, q: u32) -> bool
    ensures { result ≡ passes sides t cost value p q }
{
    if q < p {
        return false;
    }
    if sides.price < q {
        return false;
    }
    if !reaches(sides, t, value, p) {
        return false;
    }
    affords(sides, t, cost, q)
}

// Whether the lower bound of a place with this value is at most the upper bound of one with this cost. Where the start is safe, clipping
// both changes nothing.
pub fn meets(sides: Sides, t: Totals, cost: u32, value: u32) -> bool
    ensures { result ≡ meet sides t cost value }
{
    let lower = exchange::unclipped_lower(sides.price, t.value, value, sides.buyer);
    let upper = exchange::unclipped_upper(sides.price, t.cost, cost, sides.supplier);
    lower <= upper
}

// Whether the start is safe: along an order, place 0 has neither cost nor value.
pub fn start_safe(sides: Sides, t: Totals) -> bool
    ensures { result ≡ start_test sides.price t.cost 0 t.value 0 }
{
    exchange::start_safe(sides.price, t.cost, 0, t.value, 0)
}

// Whether a state is the end of the deal.
pub fn arrived(place: usize, paid: u32, last: usize, price: u32) -> bool
    ensures { result ≡ (eqb place last && eqb paid price) }
{
    place == last && paid == price
}

// A line of segments, by what planning and checking ask of it.
pub trait Line {
    ghost course: { Self → Course };

    fn sides(&self) -> Sides
        ensures { result ≡ (course self.now).sides };

    fn totals(&self) -> Totals
        ensures { result ≡ (course self.now).all };

    // A place.
    fn at(&self, place: usize) -> Cursor
        requires { place ≤ (course self.now).all.units }
        ensures { There (course self.now) result place };

    // On to a place.
    fn advance(&self, from: Cursor, place: usize) -> Cursor
        requires { Ahead (course self.now) from place }
        ensures { There (course self.now) result place };

    // On to the greatest place whose lower bound is at most what is paid.
    fn deliver(&self, from: Cursor, paid: u32) -> Cursor
        requires { Reached (course self.now) paid from }
        ensures { Delivered (course self.now) paid result };

    // Whether a plan exists.
    fn possible(&self) -> bool
        ensures { Decides (deal_of (course self.now)) result };

    // Whether the start is safe.
    fn start_safe(&self) -> bool
        ensures { result ≡ start_test (course self.now).sides.price (course self.now).all.cost 0 (course self.now).all.value 0 }
    {
        start_safe(self.sides(), self.totals())
    }

    // Whether it is a step from one place with p paid to a later one with q paid.
    fn is_step(&self, from: Cursor, to: Cursor, p: u32, q: u32) -> bool
        ensures { result ≡ passes (course self.now).sides (course self.now).all from.cost to.value p q }
    {
        is_step(self.sides(), self.totals(), from.cost, to.value, p, q)
    }

    // The segments fit, and the totals are theirs.
    ghost known: { (x : Self) → Known (course x) };
}

// How many steps a first step counts for: none if it is empty.
pub fn first_count(place: usize, paid: u32) -> usize
    ensures { result ≡ length (opening (record { place = place; paid = paid }) []) }
{
    if place == 0 {
        if paid == 0 {
            return 0;
        }
    }
    1
}

// The first step, written into the areas unless it is empty: how many steps that makes.
pub fn begin(place: usize, paid: u32, places: &mut [u8], sums: &mut [u8]) -> usize
    requires { (place < 2 ^ 16) × (0 < length (entries 2 places.old)) × (0 < length (entries 4 sums.old)) }
    ensures { Begun (record { place = place; paid = paid }) result places.old sums.old places.new sums.new }
{
    let n = first_count(place, paid);
    if n == 0 {
        return n;
    }
    area::store(places, 0, place as u16);
    area::store(sums, 0, paid);
    n
}

// Plans a line for an aim: the places and paid totals of the steps go to two byte areas, two and four bytes an entry, and zeros after them.
pub fn plan_line<L: Line>(
    line: &L,
    aim: Objective,
    places: &mut [u8],
    sums: &mut [u8],
) -> Option<usize>
    requires { Room (L.course line.now) places.old sums.old }
    ensures { Answers aim (deal_of (L.course line.now)) true (Ok result) places.old sums.old places.new sums.new }
{
    if !line.possible() {
        return None;
    }
    let f = opening::first_for(line, aim);
    let k = begin(f.cursor.place, f.paid, places, sums);
    let n = run::fill(line, f, k, places, sums);
    let count = k + n;
    area::clear_from::<u16>(places, count);
    area::clear_from::<u32>(sums, count);
    Some(count)
}

// Both bounds of a place of a line.
pub fn bounds_line<L: Line>(line: &L, place: usize) -> Bounds
    requires { place ≤ (L.course line.now).all.units }
    ensures { result ≡ bounds_at (deal_of (L.course line.now)) place }
{
    let c = line.at(place);
    let sides = line.sides();
    let all = line.totals();
    let lower = exchange::lower(sides.price, all.value, c.value, sides.buyer);
    let upper = exchange::upper(sides.price, all.cost, c.cost, sides.supplier);
    Bounds { lower, upper }
}

// Whether the first entries of two byte areas, places and paid totals, are a plan of a line. With a safe start every state of a step is judged
// by the bounds of its place, (0, 0) too.
pub fn check_line<L: Line>(line: &L, count: usize, places: &[u8], sums: &[u8]) -> bool
    requires { (count ≤ length (entries 2 places.now)) × (count ≤ length (entries 4 sums.now)) }
    ensures { Judges (deal_of (L.course line.now)) (plan_in count places.now sums.now) result }
{
    if !line.start_safe() {
        return false;
    }
    let all = line.totals();
    let mut c = Cursor::START;
    let mut paid = 0;
    for i in 0..count {
        let place = usize::from(area::known::<u16>(places, i));
        let sum = area::known::<u32>(sums, i);
        if place < c.place || all.units < place {
            return false;
        }
        let to = line.advance(c, place);
        if !line.is_step(c, to, paid, sum) {
            return false;
        }
        c = to;
        paid = sum;
    }
    arrived(c.place, paid, all.units, line.sides().price)
}

// Plans along the segments, as plan_line does.
pub fn plan(
    sides: Sides,
    units: &[u16],
    costs: &[u32],
    values: &[u32],
    aim: Objective,
    places: &mut [u8],
    sums: &mut [u8],
) -> Result<Option<usize>, Unfit>
    ensures { Plans aim sides units.now costs.now values.now result places.old sums.old places.new sums.new }
{
    let all = add_up(units, costs, values)?;
    let most = 2 * all.units + 1;
    if area::count::<u16>(places) < most || area::count::<u32>(sums) < most {
        return Err(Unfit);
    }
    let line = Segments {
        sides,
        all,
        units,
        costs,
        values,
    };
    Ok(plan_line(&line, aim, places, sums))
}

// Both bounds of a place along the segments, unless they do not fit or the place is above all units.
pub fn bounds(
    sides: Sides,
    units: &[u16],
    costs: &[u32],
    values: &[u32],
    place: usize,
) -> Result<Bounds, Unfit>
    ensures { BoundsOf sides units.now costs.now values.now place result }
{
    let all = add_up(units, costs, values)?;
    if all.units < place {
        return Err(Unfit);
    }
    let line = Segments {
        sides,
        all,
        units,
        costs,
        values,
    };
    Ok(bounds_line(&line, place))
}

// Whether the first entries of two byte areas, places and paid totals, are a plan along the segments, unless these do not fit or an area
// has fewer entries than the count says.
pub fn check(
    sides: Sides,
    units: &[u16],
    costs: &[u32],
    values: &[u32],
    count: usize,
    places: &[u8],
    sums: &[u8],
) -> Result<bool, Unfit>
    ensures { Checks sides units.now costs.now values.now count places.now sums.now result }
{
    let all = add_up(units, costs, values)?;
    if area::count::<u16>(places) < count || area::count::<u32>(sums) < count {
        return Err(Unfit);
    }
    let line = Segments {
        sides,
        all,
        units,
        costs,
        values,
    };
    Ok(check_line(&line, count, places, sums))
}
