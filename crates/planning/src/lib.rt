// What planning a contract means: its deals, order bytes, areas, answers and promises.
#![tactic(auto)]

ghost use Rattle.std.specs.Prelude.{◌≡◌};
ghost use Rattle.planning.specs.Found.{ladder_of};
ghost use Rattle.planning.specs.declared.BoundsError.{BoundsError};
ghost use Rattle.planning.specs.declared.CheckError.{CheckError};
ghost use Rattle.planning.specs.declared.PlanError.{PlanError};

mod terms;

use contract::Refusal;
pub use terms::Terms;

// Why there is no plan.
#[derive(Clone, Copy)]
pub enum PlanError {
    Refused(Refusal),
    // No plan exists in any order.
    Impossible,
}

impl From<Refusal> for PlanError {
    ghost from_gives = { λ e f. f ≡ PlanError.Refused e };

    fn from(e: Refusal) -> PlanError {
        PlanError::Refused(e)
    }
}

// Why the bounds of a place are refused.
#[derive(Clone, Copy)]
pub enum BoundsError {
    Refused(Refusal),
    // The order bytes do not name each item once.
    WrongOrder,
}

impl From<Refusal> for BoundsError {
    ghost from_gives = { λ e f. f ≡ BoundsError.Refused e };

    fn from(e: Refusal) -> BoundsError {
        BoundsError::Refused(e)
    }
}

// Why a brought plan is not accepted.
#[derive(Clone, Copy)]
pub enum CheckError {
    Refused(Refusal),
    // It is not a plan of the deal along the order that its bytes name.
    Unsafe,
}

impl From<Refusal> for CheckError {
    ghost from_gives = { λ e f. f ≡ CheckError.Refused e };

    fn from(e: Refusal) -> CheckError {
        CheckError::Refused(e)
    }
}

// A ladder that was found in its record, as the planner of ladders takes it.
// Stays as it is: both types are of crates below, and neither of these knows the other, so no `From` can stand here.
pub fn ladder_of(l: record::Ladder) -> ladder::Ladder
    ensures { result ≡ ladder_of l }
{
    ladder::Ladder {
        sides: exchange::Sides {
            price: l.price,
            supplier: l.supplier,
            buyer: l.buyer,
        },
        all: line::Totals {
            units: l.count,
            cost: l.cost,
            value: l.value,
        },
        first: l.first,
    }
}
