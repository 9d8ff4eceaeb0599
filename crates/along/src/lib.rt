// Plans a record along one order of its units, for an objective: a ladder, or the chosen order of unit prices. No work area is needed.
#![tactic(auto)]

ghost use Rattle.std.specs.Prelude.{◌≡◌, ◌<◌};
ghost use Rattle.contract.specs.declared.Form.TheVariants.{UnitPrices};
ghost use Rattle.record.specs.Find.{LadderFound, HeadFound};
ghost use Rattle.planning.specs.Areas.{has_room, plan_areas};
ghost use Rattle.planning.specs.Terms.{contract_in};
ghost use Rattle.planning.specs.Promise.{PlansOf};
ghost use Rattle.along.specs.Code.{PlansFound};

use contract::Refusal;
use exchange::Objective;
use planning::{PlanError, Terms};
use record::Ladder;

// Whether the areas have room for a plan of that many units.
#[tactic(auto, unfolding(planning::specs::Areas::has_room))]
pub fn has_room(units: usize, places: &[u8], sums: &[u8], order: &[u8]) -> bool
    requires { units < 524288 }
    ensures { result ≡ has_room units 0 (plan_areas places.now sums.now order.now) }
{
    let most = 2 * units + 1;
    most <= area::count::<u16>(places) && most <= area::count::<u32>(sums) && 8 <= order.len()
}

// Plans a ladder that was found in its record; no order to name.
pub fn plan_ladder(
    l: Ladder,
    bytes: &[u8],
    aim: Objective,
    places: &mut [u8],
    sums: &mut [u8],
    order: &mut [u8],
) -> Result<usize, PlanError>
    requires { LadderFound bytes.now l }
    ensures { PlansFound aim bytes.now result (plan_areas places.old sums.old order.old) (plan_areas places.new sums.new order.new) }
{
    if !has_room(l.count, places, sums, order) {
        return Err(PlanError::Refused(Refusal::Short));
    }
    match ladder::plan(planning::ladder_of(l), bytes, aim, places, sums) {
        Some(n) => {
            order::store(order, [0u8; 8]);
            Ok(n)
        }
        None => Err(PlanError::Impossible),
    }
}

// Plans unit prices along the chosen order.
fn plan_items(
    terms: &Terms,
    aim: Objective,
    places: &mut [u8],
    sums: &mut [u8],
    order: &mut [u8],
) -> Result<usize, PlanError>
    requires { terms.now.form ≡ UnitPrices }
    ensures { PlansOf aim (contract_in terms.now) result (plan_areas places.old sums.old order.old) (plan_areas places.new sums.new order.new) }
{
    let sides = terms.sides;
    let units = terms.units;
    let u = sizes::sum_units(units).unwrap();
    if !has_room(u, places, sums, order) {
        return Err(PlanError::Refused(Refusal::Short));
    }
    let Some(named) = choice::choose(
        sides.supplier,
        sides.buyer,
        units,
        terms.costs,
        terms.values,
    ) else {
        return Err(PlanError::Impossible);
    };
    let us = order::pick(units, named, 0);
    let cs = order::pick(terms.costs, named, 0);
    let vs = order::pick(terms.values, named, 0);
    let k = units.len();
    // The chosen items fit, and so do the areas.
    match line::plan(sides, &us[..k], &cs[..k], &vs[..k], aim, places, sums).unwrap() {
        Some(n) => {
            order::store(order, named);
            Ok(n)
        }
        None => Err(PlanError::Impossible),
    }
}

// Plans unit prices that were found in their record: two areas of eight have room for their costs and values.
pub fn plan_prices(
    bytes: &[u8],
    aim: Objective,
    places: &mut [u8],
    sums: &mut [u8],
    order: &mut [u8],
) -> Result<usize, PlanError>
    requires { HeadFound UnitPrices bytes.now }
    ensures { PlansFound aim bytes.now result (plan_areas places.old sums.old order.old) (plan_areas places.new sums.new order.new) }
{
    let mut costs = [0u32; 8];
    let mut values = [0u32; 8];
    let header = record::read(bytes, &mut costs, &mut values)?;
    let terms = Terms::of(&header, &costs, &values);
    plan_items(&terms, aim, places, sums, order)
}
