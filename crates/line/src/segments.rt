// Segments in three lists: going along them, and the scan for a gap.
ghost use Rattle.std.specs.Prelude.{◌≡◌, ◌&&◌, ◌+◌, ◌-◌, ◌*◌, ◌≤◌, ◌<◌, ◌^◌, length, get_or};
ghost use Rattle.line.specs.Code.{Known, Open, There, UnitsIn, meet};

use super::{Cursor, Line, Totals, meets};
use exchange::Sides;

// Segments that fit: P and the defection costs, the totals, and the units of each with the cost and the value of one.
#[derive(Clone, Copy)]
pub(crate) struct Segments<'a> {
    pub sides: Sides,
    pub all: Totals,
    pub units: &'a [u16],
    pub costs: &'a [u32],
    pub values: &'a [u32],
    ghost known: { Known units.now costs.now values.now all },
}

// An amount of u units.
pub(crate) fn amount(u: u16, a: u32) -> u64
    ensures { (result ≡ u * a) × (result < 2 ^ 48) }
{
    u64::from(u) * u64::from(a)
}

// How many of n units of one value make no more than a limit: mostly one or all, which needs no division.
fn units_in(limit: u64, value: u32, n: u16) -> u16
    requires { (value ≤ limit) × (0 < n) }
    ensures { UnitsIn limit value n result }
{
    let each = u64::from(value);
    if limit < 2 * each {
        return 1;
    }
    if amount(n, value) <= limit {
        return n;
    }
    (limit / each) as u16
}

impl Segments<'_> {
    // The units left of the cursor's segment.
    fn left(&self, c: Cursor) -> u16
        requires { (c.segment < length self.now.units.now) × (c.used < get_or self.now.units.now c.segment 0) }
        ensures { c.used + result ≡ get_or self.now.units.now c.segment 0 }
    {
        self.units[c.segment] - c.used
    }

    // k units of the cursor's segment on.
    fn leap(&self, c: Cursor, k: u16) -> Cursor
        requires { Open self.now.units.now self.now.costs.now self.now.values.now c × (c.used + k ≤ get_or self.now.units.now c.segment 0) }
        ensures { There self.now.units.now self.now.costs.now self.now.values.now result (c.place + k) }
    {
        let segment = c.segment;
        let n = u32::from(k);
        let cost = c.cost + n * self.costs[segment];
        let value = c.value + n * self.values[segment];
        let place = c.place + usize::from(k);
        let used = c.used + k;
        if used < self.units[segment] {
            return Cursor {
                place,
                segment,
                used,
                cost,
                value,
            };
        }
        Cursor {
            place,
            segment: segment + 1,
            used: 0,
            cost,
            value,
        }
    }

    // The units left of the cursor's segment, up to a place.
    fn left_before(&self, c: Cursor, place: usize) -> u16
        requires { (c.segment < length self.now.units.now) × (c.used < get_or self.now.units.now c.segment 0) × (c.place < place) }
        ensures { (c.used + result ≤ get_or self.now.units.now c.segment 0) × (c.place + result ≤ place) × (0 < result) }
    {
        let n = self.left(c);
        let far = place - c.place;
        if far < usize::from(n) {
            return far as u16;
        }
        n
    }

    // How much more value may be delivered before the lower bound is above what is paid.
    fn slack(&self, value: u32, paid: u32) -> u64
        requires { self.now.sides.price + value ≤ paid + (self.now.all.value + self.now.sides.buyer) }
        ensures { self.now.sides.price + value + result ≡ paid + (self.now.all.value + self.now.sides.buyer) }
    {
        let limit = u64::from(paid) + (u64::from(self.all.value) + u64::from(self.sides.buyer));
        limit - (u64::from(self.sides.price) + u64::from(value))
    }

    // Whether no gap lies before the first nor before the last unit of a segment with this cost and value, from its open units c to its end.
    fn joins(&self, c: Cursor, to: Cursor, cost: u32, value: u32) -> bool
        requires { (c.value + value < 2 ^ 32) × (cost ≤ to.cost) }
        ensures { result ≡ (meet self.now.sides self.now.all c.cost (c.value + value) && meet self.now.sides self.now.all (to.cost - cost) to.value) }
    {
        meets(self.sides, self.all, c.cost, c.value + value)
            && meets(self.sides, self.all, to.cost - cost, to.value)
    }
}

impl Line for Segments<'_> {
    ghost use Rattle.line.specs.Course.{Course};

    ghost course = { λ x. record { sides = x.sides; all = x.all; units = x.units.now; costs = x.costs.now; values = x.values.now } };

    fn sides(&self) -> Sides {
        self.sides
    }

    fn totals(&self) -> Totals {
        self.all
    }

    fn at(&self, place: usize) -> Cursor {
        self.advance(Cursor::START, place)
    }

    fn advance(&self, from: Cursor, place: usize) -> Cursor {
        let mut c = from;
        // The loops here stay as they are: a leap passes several places at once, so none counts by one.
        while c.place < place {
            c = self.leap(c, self.left_before(c, place));
        }
        c
    }

    // Mostly the next unit is too much already.
    fn deliver(&self, from: Cursor, paid: u32) -> Cursor {
        let mut c = from;
        while c.place < self.all.units {
            let segment = c.segment;
            let value = self.values[segment];
            let free = self.slack(c.value, paid);
            if free < u64::from(value) {
                return c;
            }
            let n = self.left(c);
            let k = units_in(free, value, n);
            c = self.leap(c, k);
            // Units of the segment are left: one more is too much.
            if c.segment == segment {
                return c;
            }
        }
        c
    }

    // The start is safe, and the lower bound of each place is at most the upper bound of the place before it. Along a segment both rise by
    // constants, so its first and its last unit decide.
    fn possible(&self) -> bool {
        if !self.start_safe() {
            return false;
        }
        let mut c = Cursor::START;
        while c.place < self.all.units {
            let segment = c.segment;
            let to = self.leap(c, self.left(c));
            if !self.joins(c, to, self.costs[segment], self.values[segment]) {
                return false;
            }
            c = to;
        }
        true
    }

    ghost known = { λ x. x.known };
}
