// What the search notes of the rows that it reaches, backwards from the end.
ghost use Rattle.std.specs.Prelude.{ℕ, ◌<◌, ◌≤◌, get_or};
ghost use Rattle.search.specs.Layers.{never, Kept, Noting};

use super::NEVER;

// For each row the step in which it is first reached, and its sum then; and the rows in the order in which they are reached.
// How many those are is the window's `end`, and no field: the window says too which of them are new.
#[derive(Drop)]
pub(crate) struct Notes {
    pub(crate) reached: [u16; 128],
    pub(crate) firsts: [u32; 128],
    pub(crate) found: [u8; 128],
}

impl Notes {
    // Of the first n rows of the list those that were not reached before are now: the step is noted, the offer as their first sum, and the row
    // behind the `end` rows that were. The answer is how many are reached then. With one step more such a row needs its floor, since that step
    // can stay there and pay, and it never needs less: so it takes no later offer.
    pub(crate) fn note(
        &mut self,
        next: &[u32; 128],
        list: &[u8; 129],
        n: usize,
        step: u16,
        end: usize,
    ) -> usize
        requires { Kept self.old end × (n ≤ 128) × ((i : ℕ) → i < n → get_or list.now i 0 < 128) × (step < never) }
        ensures { Noting next.now list.now step end self.old self.new n result }
    {
        let mut m = end;
        for &row in &list[..n] {
            let a = usize::from(row);
            let waits = NEVER <= self.reached[a];
            if waits {
                self.reached[a] = step;
                self.firsts[a] = next[a];
                self.found[m] = row;
                m += 1;
            }
        }
        m
    }
}
