// Whether a brought plan is a plan along the order that its bytes name, by the form of its contract.
ghost use Rattle.std.specs.Prelude.{◌≡◌};
ghost use Rattle.contract.specs.declared.Form.TheVariants.{UnitPrices, Table};
ghost use Rattle.record.specs.Find.{LadderFound, ladder_in, OtherFound};
ghost use Rattle.exchange.specs.PlanIn.{plan_in};
ghost use Rattle.planning.specs.Check.{ahead_of_check, Checks};
ghost use Rattle.planning.specs.Answer.{checked_of};
ghost use Rattle.planning.specs.Terms.{contract_in};
ghost use Rattle.checks.specs.Brought.{Decides};

use crate::brought::Brought;
use contract::Form;
use planning::{CheckError, Terms};
use record::Ladder;

// A plan of a ladder that was found in its record; no order to name.
pub(crate) fn ladder_safe(l: Ladder, bytes: &[u8], plan: &Brought) -> bool
    requires { LadderFound bytes.now l }
    ensures { Decides (ladder_in bytes.now l) plan.now result }
{
    order::names_each(plan.order, 0)
        && ladder::check(
            planning::ladder_of(l),
            bytes,
            plan.count,
            plan.places,
            plan.sums,
        )
}

// A plan of unit prices.
fn prices_safe(terms: &Terms, plan: &Brought) -> bool
    requires { terms.now.form ≡ UnitPrices }
    ensures { Decides (contract_in terms.now) plan.now result }
{
    let n = terms.units.len();
    if !order::names_each(plan.order, n) {
        return false;
    }
    let named = order::first_eight(plan.order);
    let us = order::pick(terms.units, named, 0);
    let cs = order::pick(terms.costs, named, 0);
    let vs = order::pick(terms.values, named, 0);
    // The items fit in any order.
    line::check(
        terms.sides,
        &us[..n],
        &cs[..n],
        &vs[..n],
        plan.count,
        plan.places,
        plan.sums,
    )
    .unwrap()
}

// A plan over the rows of a table; no order to name.
fn table_safe(terms: &Terms, plan: &Brought) -> bool
    requires { terms.now.form ≡ Table }
    ensures { Decides (contract_in terms.now) plan.now result }
{
    order::names_each(plan.order, 0) && crate::rows::follow(terms, plan)
}

// A plan of unit prices or of a table.
fn other_safe(terms: &Terms, plan: &Brought) -> bool
    ensures { Decides (contract_in terms.now) plan.now result }
{
    match terms.form {
        Form::Table => table_safe(terms, plan),
        _ => prices_safe(terms, plan),
    }
}

// Checks a plan of a record that is no ladder's: its costs and values fit into two areas of 128. Not compiled into its caller: a ladder's check
// would else need the stack of both areas.
#[inline(never)]
pub(crate) fn check_other(
    bytes: &[u8],
    count: usize,
    places: &[u8],
    sums: &[u8],
    order: &[u8],
) -> Result<(), CheckError>
    requires { OtherFound bytes.now }
    ensures { Checks (ahead_of_check bytes.now count places.now sums.now order.now) (checked_of result) order.now (plan_in count places.now sums.now) }
{
    let mut costs = [0u32; 128];
    let mut values = [0u32; 128];
    let header = record::read(bytes, &mut costs, &mut values)?;
    let plan = Brought::new(count, places, sums, order)?;
    let terms = Terms::of(&header, &costs, &values);
    if other_safe(&terms, &plan) {
        Ok(())
    } else {
        Err(CheckError::Unsafe)
    }
}
