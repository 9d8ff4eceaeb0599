// Plans the deal of a contract record along one order for an objective: fewest payments, fewest deliveries or fewest moves.
#![tactic(auto)]

ghost use Rattle.contract.specs.declared.Form.TheVariants.{Table};
ghost use Rattle.record.specs.Find.{HeadFound};
ghost use Rattle.planning.specs.Answer.{answer_of};
ghost use Rattle.planning.specs.Areas.{plan_areas};
ghost use Rattle.planning.specs.Promise.{ahead_along, PlansFor};
ghost use Rattle.fewest.specs.Code.{Refuses};

use contract::Refusal;
use exchange::Objective;
use planning::PlanError;
use record::Found;

// The refusal of a table, which has no order of units to go along: what is wrong with its record, or else 2.
fn refusal_of_table(bytes: &[u8]) -> Refusal
    requires { HeadFound Table bytes.now }
    ensures { Refuses bytes.now result }
{
    let mut costs = [0u32; 128];
    let mut values = [0u32; 128];
    match record::read(bytes, &mut costs, &mut values) {
        Err(e) => e,
        Ok(_) => Refusal::Map,
    }
}

// Plans the deal of a record. The places and paid totals of the steps go to two byte areas, two and four bytes an entry, and the order of
// the items to the first eight order bytes.
pub fn plan(
    bytes: &[u8],
    aim: Objective,
    places: &mut [u8],
    sums: &mut [u8],
    order: &mut [u8],
) -> Result<usize, PlanError>
    ensures { PlansFor aim (ahead_along bytes.now (plan_areas places.old sums.old order.old)) (answer_of result) (plan_areas places.old sums.old order.old) (plan_areas places.new sums.new order.new) }
{
    match record::find(bytes)? {
        Found::Ladder(l) => along::plan_ladder(l, bytes, aim, places, sums, order),
        Found::UnitPrices => along::plan_prices(bytes, aim, places, sums, order),
        Found::Table => Err(PlanError::Refused(refusal_of_table(bytes))),
    }
}
