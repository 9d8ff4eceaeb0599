// Checks a brought plan of a contract record.
#![tactic(auto)]

ghost use Rattle.record.specs.Find.{LadderFound};
ghost use Rattle.exchange.specs.PlanIn.{plan_in};
ghost use Rattle.planning.specs.Answer.{checked_of};
ghost use Rattle.planning.specs.Check.{ahead_of_check, Checks};

mod brought;
mod by_form;
mod rows;

use brought::Brought;
use planning::CheckError;
use record::{Found, Ladder};

// Checks a plan of a ladder that was found in its record. Not compiled into its caller, where its loop would have fewer registers.
#[inline(never)]
fn check_ladder(
    l: Ladder,
    bytes: &[u8],
    count: usize,
    places: &[u8],
    sums: &[u8],
    order: &[u8],
) -> Result<(), CheckError>
    requires { LadderFound bytes.now l }
    ensures { Checks (ahead_of_check bytes.now count places.now sums.now order.now) (checked_of result) order.now (plan_in count places.now sums.now) }
{
    let plan = Brought::new(count, places, sums, order)?;
    if by_form::ladder_safe(l, bytes, &plan) {
        Ok(())
    } else {
        Err(CheckError::Unsafe)
    }
}

// Checks a plan that is brought: its step count, places, paid totals and order bytes.
pub fn check(
    bytes: &[u8],
    count: usize,
    places: &[u8],
    sums: &[u8],
    order: &[u8],
) -> Result<(), CheckError>
    ensures { Checks (ahead_of_check bytes.now count places.now sums.now order.now) (checked_of result) order.now (plan_in count places.now sums.now) }
{
    match record::find(bytes)? {
        Found::Ladder(l) => check_ladder(l, bytes, count, places, sums, order),
        Found::UnitPrices | Found::Table => by_form::check_other(bytes, count, places, sums, order),
    }
}
