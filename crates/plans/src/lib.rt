// Plans the deal of a contract record.
#![tactic(auto)]

ghost use Rattle.std.specs.Prelude.{◌≡◌};
ghost use Rattle.planning.specs.Answer.{answer_of};
ghost use Rattle.planning.specs.Areas.{areas};
ghost use Rattle.planning.specs.Promise.{ahead, Plans};
ghost use Rattle.plans.specs.Code.{work_after};

mod table;

use exchange::Objective;
use planning::PlanError;
use record::Found;

// Planning along an order has no use for the work area, and leaves it zero unless an area is too short.
pub(crate) fn settle(answer: Result<usize, PlanError>, work: &mut [u8]) -> Result<usize, PlanError>
    ensures { (result ≡ answer) × (work.new ≡ work_after answer work.old) }
{
    match answer {
        Err(PlanError::Refused(_)) => {}
        _ => area::clear(work),
    }
    answer
}

// Plans the deal of a record. The places and paid totals of the steps go to two byte areas, two and four bytes an entry, and the order of
// the items to the first eight order bytes.
pub fn plan(
    bytes: &[u8],
    places: &mut [u8],
    sums: &mut [u8],
    order: &mut [u8],
    work: &mut [u8],
) -> Result<usize, PlanError>
    ensures { Plans (ahead bytes.now (areas places.old sums.old order.old work.old)) (answer_of result) (areas places.old sums.old order.old work.old) (areas places.new sums.new order.new work.new) }
{
    match record::find(bytes)? {
        Found::Ladder(l) => {
            let answer = along::plan_ladder(l, bytes, Objective::Steps, places, sums, order);
            settle(answer, work)
        }
        Found::UnitPrices => {
            let answer = along::plan_prices(bytes, Objective::Steps, places, sums, order);
            settle(answer, work)
        }
        Found::Table => table::plan_table(bytes, places, sums, order, work),
    }
}
