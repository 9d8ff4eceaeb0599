// A plan that is brought.
ghost use Rattle.std.specs.Prelude.{◌≡◌, true, ◌≤◌, length};
ghost use Rattle.planning.specs.Check.{holds_count};

use contract::Refusal;

// A brought plan: its areas have as many entries as its count says, and there are eight order bytes.
#[derive(Clone, Copy)]
pub(crate) struct Brought<'a> {
    pub(crate) count: usize,
    pub(crate) places: &'a [u8],
    pub(crate) sums: &'a [u8],
    pub(crate) order: &'a [u8],
    ghost held: { holds_count count places.now sums.now ≡ true },
    ghost eight: { 8 ≤ length order.now },
}

impl<'a> Brought<'a> {
    ghost use Rattle.checks.specs.Brought.{Brings};

    // The plan that is brought, unless an area is too short for it.
    #[tactic(auto, unfolding(planning::specs::Check::holds_count))]
    pub(crate) fn new(
        count: usize,
        places: &'a [u8],
        sums: &'a [u8],
        order: &'a [u8],
    ) -> Result<Brought<'a>, Refusal>
        ensures { Brings count places.now sums.now order.now result }
    {
        if area::count::<u16>(places) < count {
            return Err(Refusal::Short);
        }
        if area::count::<u32>(sums) < count || order.len() < 8 {
            return Err(Refusal::Short);
        }
        Ok(Brought {
            count,
            places,
            sums,
            order,
        })
    }
}
