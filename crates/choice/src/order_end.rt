// One end of an order, as items are placed from it.
ghost use Rattle.std.specs.Prelude.{◌^◌, ◌<◌, ◌≤◌, length};

// The front or the back of an order: what a unit of each item needs and gives there, and the slack, added - taken; it may be negative.
#[derive(Clone, Copy)]
pub(crate) struct OrderEnd<'a> {
    // Stays a flag: a closure for the one test that goes by it is no plainer, since every contract here would have to say what it answers.
    pub(crate) front: bool,
    pub(crate) units: &'a [u16],
    pub(crate) needs: &'a [u32],
    pub(crate) gives: &'a [u32],
    pub(crate) added: u64,
    pub(crate) taken: u64,
    ghost few: { length units.now ≤ 8 },
    ghost small: { taken < 2 ^ 60 },
}
