// Plans a table.
ghost use Rattle.std.specs.Prelude.{◌≡◌};
ghost use Rattle.contract.specs.declared.Form.TheVariants.{Table};
ghost use Rattle.exchange.specs.declared.Objective.{Objective};
ghost use Rattle.record.specs.Find.{HeadFound};
ghost use Rattle.planning.specs.Answer.{answer_of};
ghost use Rattle.planning.specs.Areas.{areas};
ghost use Rattle.planning.specs.Promise.{ahead, Plans, PlansOf};
ghost use Rattle.planning.specs.Terms.{contract_in};

use contract::Refusal;
use planning::{PlanError, Terms};

// Plans the rows of a table; no order to name.
fn plan_rows(
    terms: &Terms,
    places: &mut [u8],
    sums: &mut [u8],
    order: &mut [u8],
    work: &mut [u8],
) -> Result<usize, PlanError>
    requires { terms.now.form ≡ Table }
    ensures { PlansOf Objective.Steps (contract_in terms.now) result (areas places.old sums.old order.old work.old) (areas places.new sums.new order.new work.new) }
{
    let u = sizes::sum_units(terms.units).unwrap();
    if !along::has_room(u, places, sums, order) {
        return Err(PlanError::Refused(Refusal::Short));
    }
    let costs = terms.costs;
    if work.len() < costs.len() * (2 * u + 2) {
        return Err(PlanError::Refused(Refusal::Short));
    }
    // The table fits, and so do the areas.
    match search::plan(
        terms.sides,
        terms.units,
        costs,
        terms.values,
        places,
        sums,
        work,
    )
    .unwrap()
    {
        Some(n) => {
            order::store(order, [0u8; 8]);
            Ok(n)
        }
        None => Err(PlanError::Impossible),
    }
}

// Plans a table that was found in its record: two areas of 128 have room for its costs and values.
pub(crate) fn plan_table(
    bytes: &[u8],
    places: &mut [u8],
    sums: &mut [u8],
    order: &mut [u8],
    work: &mut [u8],
) -> Result<usize, PlanError>
    requires { HeadFound Table bytes.now }
    ensures { Plans (ahead bytes.now (areas places.old sums.old order.old work.old)) (answer_of result) (areas places.old sums.old order.old work.old) (areas places.new sums.new order.new work.new) }
{
    let mut costs = [0u32; 128];
    let mut values = [0u32; 128];
    let header = record::read(bytes, &mut costs, &mut values)?;
    let terms = Terms::of(&header, &costs, &values);
    plan_rows(&terms, places, sums, order, work)
}
