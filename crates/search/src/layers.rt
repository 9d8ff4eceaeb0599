// The search, backwards: the least sum paid at each row from which the end is reached, step by step.
ghost use Rattle.std.specs.Prelude.{◌≡◌, ℕ, cond, ◌+◌, ◌<◌, ◌≤◌, ltb, length, get_or, replicate};
ghost use Rattle.grid.specs.Rows.{rows_of};
ghost use Rattle.search.specs.Layers.{mark, never, rows_work, front, offer_to, Offers, Offered, Offerers, Listing, RowListed, CanStep, Stepped, Arrives, Begun, Counted};

use super::UNREACHED;
use super::notes::Notes;
use super::rows::Rows;

// How many steps are searched, and which rows can offer something new, by their places in the order in which rows are reached. From `from` on
// stand those that were reached in the step before the last one and now need their floor, from `fresh` up to `end` those reached in the last
// one, which need their first sum.
#[derive(Clone, Copy)]
struct Window {
    step: usize,
    from: usize,
    fresh: usize,
    end: usize,
}

// Lists row a if it had no offer in this step. It is written to the list in any case, which has a place more for that: no one reads behind the
// listed rows, and a test would be hard to predict. The answer is the length of the list. Stays an array with its length beside it: fixed memory.
fn list_row(list: &mut [u8; 129], n: usize, a: usize, before: u32) -> usize
    requires { (a < 128) × (n ≤ 128) }
    ensures { RowListed list.old n a before list.new result }
{
    list[n] = a as u8;
    if before < UNREACHED { n } else { n + 1 }
}

impl Rows<'_> {
    // What row b, the i-th that was reached, needs.
    fn need_of(&self, notes: &Notes, fresh: usize, i: usize, b: usize) -> u32
        requires { b < 128 }
        ensures { result ≡ cond (ltb i fresh) (get_or self.now.floors.now b 0) (get_or notes.now.firsts b 0) }
    {
        if i < fresh {
            self.floors[b]
        } else {
            notes.firsts[b]
        }
    }

    // Row b offers its floor to the rows that it holds and that can pay what it needs, from itself down. Lists the rows that have their first
    // offer, behind the n that the list has. The answer is the length of the list.
    fn offer(
        &self,
        b: usize,
        need: u32,
        next: &mut [u32; 128],
        list: &mut [u8; 129],
        n: usize,
    ) -> usize
        requires { let us = self.now.units.now in (b < rows_of us) × (need ≤ get_or self.now.caps.now b 0) × (get_or self.now.floors.now b 0 < mark) × Listing next.old list.old n (rows_of us) }
        ensures { let us = self.now.units.now in Offers (offer_to us self.now.caps.now b need (get_or self.now.floors.now b 0)) (rows_of us) next.old next.new × Listing next.new list.new result (rows_of us) }
    {
        let floor = self.floors[b];
        let more = self.held[b];
        let mut count = n;
        let mut row = Some(b);
        while let Some(a) = row {
            row = held::next_down(
                self.units,
                &self.strides,
                self.caps,
                a,
                b,
                self.held[a],
                more,
                need,
            );
            let best = next[a];
            next[a] = floor.min(best);
            count = list_row(list, count, a, best);
        }
        count
    }

    // Each row of the window offers its floor. Lists the rows that have an offer; the answer is their number.
    fn offer_all(
        &self,
        notes: &Notes,
        v: Window,
        next: &mut [u32; 128],
        list: &mut [u8; 129],
    ) -> usize
        requires { Offerers self.now.caps.now (front self.now.floors.now notes.now v) (rows_of self.now.units.now) × (next.old ≡ replicate 128 mark) × (length list.old ≡ 129) }
        ensures { let us = self.now.units.now in Offered us self.now.caps.now (front self.now.floors.now notes.now v) v.end next.new × Listing next.new list.new result (rows_of us) }
    {
        let mut count = 0;
        for i in v.from..v.end {
            let b = usize::from(notes.found[i]);
            let need = self.need_of(notes, v.fresh, i, b);
            count = self.offer(b, need, next, list, count);
        }
        count
    }

    // One step of the search: the rows of the window offer their floors, and the rows that take an offer are reached.
    fn step(&self, v: Window, list: &mut [u8; 129], notes: &mut Notes) -> Window
        requires { CanStep self.now.units.now self.now.caps.now self.now.floors.now list.old notes.old v }
        ensures { Stepped self.now.units.now self.now.caps.now (front self.now.floors.now notes.old v) notes.old.reached notes.new result × (length list.new ≡ 129) }
    {
        let number = v.step + 1;
        let mut next = [UNREACHED; 128];
        let n = self.offer_all(notes, v, &mut next, list);
        let end = notes.note(&next, list, n, number as u16, v.end);
        Window {
            step: number,
            from: v.fresh,
            fresh: v.end,
            end,
        }
    }

    // Whether a row of the window ends the search one step on: row 0 can pay what it needs, and its floor is 0. Every row holds the units of
    // row 0.
    fn arrives(&self, notes: &Notes, v: Window) -> bool
        requires { (v.end ≤ 128) × ((i : ℕ) → i < v.end → get_or notes.now.found i 0 < 128) }
        ensures { Arrives self.now.caps.now (front self.now.floors.now notes.now v) result }
    {
        let cap = self.caps[0];
        for i in v.from..v.end {
            let b = usize::from(notes.found[i]);
            if self.need_of(notes, v.fresh, i, b) <= cap && self.floors[b] == 0 {
                return true;
            }
        }
        false
    }

    // The fewest steps of a plan, if there is one. The notes then have each row that is reached in fewer.
    pub(crate) fn count_steps(&self, most: usize, notes: &mut Notes) -> Option<usize>
        requires { (most < never) × Begun self.now.terms notes.old }
        ensures { let r = self.now in Counted (rows_work r.terms r.units.now r.caps.now r.floors.now) most notes.new.reached notes.new.firsts r.floors.now result }
    {
        let mut list = [0u8; 129];
        // No step is searched, and the last row is reached.
        let mut v = Window {
            step: 0,
            from: 0,
            fresh: 0,
            end: 1,
        };
        for searched in 0..most {
            if self.arrives(notes, v) {
                return Some(searched + 1);
            }
            v = self.step(v, &mut list, notes);
            if v.from == v.end {
                return None;
            }
        }
        None
    }
}
