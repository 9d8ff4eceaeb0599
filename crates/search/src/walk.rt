// Reads the plan forwards: what each row needs is known from the search.
ghost use Rattle.std.specs.Prelude.{◌≡◌, ◌&&◌, ◌<◌, leb, get_or};
ghost use Rattle.held.specs.Words.{holds_word};
ghost use Rattle.search.specs.Layers.{rows_work, need_read, first_row, IsFirst, CanWalk, Walked};

use super::UNREACHED;
use super::notes::Notes;
use super::rows::Rows;

// Whether a row can be delivered at another with this sum paid, by the words of both. It is tested by the payment of the step before.
fn deliverable(from: u32, to: u32, need: u32, cap: u32, floor: u32, paid: u32) -> bool
    ensures { result ≡ (holds_word 4 from to && leb need cap && leb floor paid) }
{
    need <= cap && floor <= paid && held::word_holds(from, to)
}

impl Rows<'_> {
    // What row b needs to end in j steps: nothing suffices before it is reached; then its first sum, and with more steps its floor.
    fn need_after(&self, notes: &Notes, j: usize, b: usize) -> u32
        requires { b < 128 }
        ensures { result ≡ need_read notes.now.reached notes.now.firsts self.now.floors.now j b }
    {
        let step = usize::from(notes.reached[b]);
        if j < step {
            return UNREACHED;
        }
        if j == step {
            return notes.firsts[b];
        }
        self.floors[b]
    }

    // The first row from row a on that can be delivered there with this sum paid and j steps left after it.
    fn next_row(&self, notes: &Notes, j: usize, a: usize, paid: u32) -> Option<usize>
        requires { a < self.now.terms.rows }
        ensures { let r = self.now in IsFirst r.terms.rows (first_row r.held.now r.floors.now (need_read notes.now.reached notes.now.firsts r.floors.now j) (get_or r.caps.now a 0) a paid r.terms.rows a) result }
    {
        let cap = self.caps[a];
        for b in a..self.terms.rows {
            let need = self.need_after(notes, j, b);
            if deliverable(self.held[a], self.held[b], need, cap, self.floors[b], paid) {
                return Some(b);
            }
        }
        None
    }

    // Reads the plan forwards into the areas: at each row the first one that still reaches the end in the steps left, paying the most.
    pub(crate) fn walk(&self, notes: &Notes, steps: usize, places: &mut [u8], sums: &mut [u8])
        requires { let r = self.now in CanWalk (rows_work r.terms r.units.now r.caps.now r.floors.now) notes.now.reached notes.now.firsts r.floors.now steps places.old sums.old }
        ensures { let r = self.now in Walked (rows_work r.terms r.units.now r.caps.now r.floors.now) steps places.old places.new sums.old sums.new }
    {
        let mut a = 0;
        let mut paid = 0;
        for k in 0..steps {
            let next = self.next_row(notes, steps - 1 - k, a, paid);
            let b = next.unwrap();
            paid = self.caps[a];
            area::store(places, k, b as u16);
            area::store(sums, k, paid);
            a = b;
        }
    }
}
