// The rises of a ladder in its record, as a line of segments with one unit each.
ghost use Rattle.std.specs.Prelude.{◌≡◌, ◌+◌, ◌≤◌, ◌<◌, length, get_or};
ghost use Rattle.area.specs.Entries.{num};
ghost use Rattle.exchange.specs.Deal.{Safe};
ghost use Rattle.line.specs.Code.{Known, Decides};
ghost use Rattle.ladder.specs.Rises.{Lies, costs_in, values_in};
ghost use Rattle.ladder.specs.Code.{At, There, ones_in, cursor_of, line_in};

use super::Ladder;
use exchange::Sides;
use line::{Cursor, Line, Totals};

// A ladder, and the record in which its rises lie: for each unit the rise of cost and the rise of value, four bytes each.
#[derive(Clone, Copy)]
pub(crate) struct Rises<'a> {
    pub ladder: Ladder,
    pub bytes: &'a [u8],
    ghost lies: { Lies ladder bytes.now },
    ghost known: { Known (ones_in ladder) (costs_in ladder bytes.now) (values_in ladder bytes.now) ladder.all },
}

// A place: the units delivered, and their cost and value.
#[derive(Clone, Copy)]
pub(crate) struct Rung {
    pub place: usize,
    pub cost: u32,
    pub value: u32,
}

impl Rung {
    // Nothing delivered.
    const BOTTOM: Rung = Rung {
        place: 0,
        cost: 0,
        value: 0,
    };

    fn of(c: Cursor) -> Rung
        ensures { (result.place ≡ c.place) × (result.cost ≡ c.cost) × (result.value ≡ c.value) }
    {
        Rung {
            place: c.place,
            cost: c.cost,
            value: c.value,
        }
    }

    // Each unit is a segment.
    fn cursor(self) -> Cursor
        ensures { result ≡ cursor_of self }
    {
        Cursor {
            place: self.place,
            segment: self.place,
            used: 0,
            cost: self.cost,
            value: self.value,
        }
    }
}

impl Rises<'_> {
    // The rise at index i of the record.
    fn rise(&self, i: usize) -> u32
        requires { i + 4 ≤ length self.now.bytes.now }
        ensures { result ≡ num 4 self.now.bytes.now i }
    {
        let s = self.bytes;
        let e = i + 4;
        area::num::<u32>(&s[i..e], 0)
    }

    // The rise of cost of the unit after place k.
    fn cost_after(&self, k: usize) -> u32
        requires { k < self.now.ladder.all.units }
        ensures { result ≡ get_or (costs_in self.now.ladder self.now.bytes.now) k 0 }
    {
        self.rise(self.ladder.first + k * 8)
    }

    // The rise of value of the unit after place k.
    fn value_after(&self, k: usize) -> u32
        requires { k < self.now.ladder.all.units }
        ensures { result ≡ get_or (values_in self.now.ladder self.now.bytes.now) k 0 }
    {
        self.rise(self.ladder.first + k * 8 + 4)
    }

    // Everything delivered. The totals are those of the last place.
    fn top(&self) -> Rung
        ensures { (result.place ≡ self.now.ladder.all.units) × (result.cost ≡ self.now.ladder.all.cost) × (result.value ≡ self.now.ladder.all.value) }
    {
        Rung {
            place: self.ladder.all.units,
            cost: self.ladder.all.cost,
            value: self.ladder.all.value,
        }
    }

    // One unit on.
    fn next(&self, c: Rung) -> Rung
        requires { At self.now.ladder self.now.bytes.now c × (c.place < self.now.ladder.all.units) }
        ensures { There self.now.ladder self.now.bytes.now result (c.place + 1) }
    {
        Rung {
            place: c.place + 1,
            cost: c.cost + self.cost_after(c.place),
            value: c.value + self.value_after(c.place),
        }
    }

    // Whether the lower bound of each place is at most the upper bound of the place before it.
    fn climbs(&self) -> bool
        requires { Safe (line_in self.now.ladder self.now.bytes.now) 0 0 }
        ensures { Decides (line_in self.now.ladder self.now.bytes.now) result }
    {
        let mut c = Rung::BOTTOM;
        // The loops here stay as they are: the rung itself counts the places, and a second counter would be no plainer.
        while c.place < self.ladder.all.units {
            let to = self.next(c);
            if !line::meets(self.ladder.sides, self.ladder.all, c.cost, to.value) {
                return false;
            }
            c = to;
        }
        true
    }
}

impl Line for Rises<'_> {
    ghost use Rattle.line.specs.Course.{Course};
    ghost use Rattle.ladder.specs.Code.{course_of};

    ghost course = { λ x. course_of x.ladder x.bytes.now };

    fn sides(&self) -> Sides {
        self.ladder.sides
    }

    fn totals(&self) -> Totals {
        self.ladder.all
    }

    // Often it is the last place, which needs no look at the units.
    fn at(&self, place: usize) -> Cursor {
        if place == self.ladder.all.units {
            return self.top().cursor();
        }
        self.advance(Cursor::START, place)
    }

    fn advance(&self, from: Cursor, place: usize) -> Cursor {
        let mut c = Rung::of(from);
        while c.place < place {
            c = self.next(c);
        }
        c.cursor()
    }

    // Compiled into the run of steps, where the place then stays in registers.
    #[inline(always)]
    fn deliver(&self, from: Cursor, paid: u32) -> Cursor {
        let sides = self.ladder.sides;
        let all = self.ladder.all;
        // Often it is the last place, which needs no look at the units.
        if line::reaches(sides, all, all.value, paid) {
            return self.top().cursor();
        }
        let mut c = Rung::of(from);
        while c.place < all.units {
            let value = c.value + self.value_after(c.place);
            if !line::reaches(sides, all, value, paid) {
                return c.cursor();
            }
            c = self.next(c);
        }
        c.cursor()
    }

    // The start is safe, and no gap lies between two places. No value is above that of the last place, so often that one is enough, and no
    // unit need be looked at.
    fn possible(&self) -> bool {
        if !self.start_safe() {
            return false;
        }
        if line::meets(self.ladder.sides, self.ladder.all, 0, self.ladder.all.value) {
            return true;
        }
        self.climbs()
    }

    ghost known = { λ x. x.known };
}
