// Plans the deal of a contract record, answers the bounds of a place, and checks a brought plan.
#![tactic(auto)]

ghost use Rattle.std.specs.Prelude.{◌≡◌};
ghost use Rattle.exchange.specs.PlanIn.{plan_in};
ghost use Rattle.exchange.specs.declared.Objective.{Objective};
ghost use Rattle.planning.specs.Answer.{answer_of, bounded_of, checked_of};
ghost use Rattle.planning.specs.Areas.{areas, plan_areas};
ghost use Rattle.planning.specs.Bounds.{bounds_of};
ghost use Rattle.planning.specs.Check.{ahead_of_check, Checks};
ghost use Rattle.planning.specs.Promise.{ahead, ahead_along, Plans, PlansFor};

use exchange::Objective;
use planning::{BoundsError, CheckError, PlanError};

// Stays as it is: `plan`, `bounds` and `check` only call the crates below, but must-fail edits are of their bodies (bounds_of_start and others).
// Stays as it is: C lends each area by itself, so the areas are parameters of their own down to `line` and `search`; a struct of `&mut`
// would need a ghost name for each area in every contract.

// Plans the deal of a record. The places and paid totals of the steps go to two byte areas, two and four bytes an entry, and the order of
// the items to the first eight order bytes.
pub fn plan(
    bytes: &[u8],
    places: &mut [u8],
    sums: &mut [u8],
    order: &mut [u8],
    work: &mut [u8],
) -> Result<usize, PlanError>
    ensures { Plans (ahead bytes.now (areas places.old sums.old order.old work.old)) (answer_of result) (areas places.old sums.old order.old work.old) (areas places.new sums.new order.new work.new) }
{
    plans::plan(bytes, places, sums, order, work)
}

// Stays as it is: the README names a function for each objective; they are instances of `fewest::plan`, which takes the objective.

// Plans a ladder or unit prices with fewest payments: it starts with a delivery only.
pub fn plan_fewest_payments(
    bytes: &[u8],
    places: &mut [u8],
    sums: &mut [u8],
    order: &mut [u8],
) -> Result<usize, PlanError>
    ensures { PlansFor Objective.Payments (ahead_along bytes.now (plan_areas places.old sums.old order.old)) (answer_of result) (plan_areas places.old sums.old order.old) (plan_areas places.new sums.new order.new) }
{
    fewest::plan(bytes, Objective::Payments, places, sums, order)
}

// Plans a ladder or unit prices with fewest deliveries: it starts with a payment only.
pub fn plan_fewest_deliveries(
    bytes: &[u8],
    places: &mut [u8],
    sums: &mut [u8],
    order: &mut [u8],
) -> Result<usize, PlanError>
    ensures { PlansFor Objective.Deliveries (ahead_along bytes.now (plan_areas places.old sums.old order.old)) (answer_of result) (plan_areas places.old sums.old order.old) (plan_areas places.new sums.new order.new) }
{
    fewest::plan(bytes, Objective::Deliveries, places, sums, order)
}

// Plans a ladder or unit prices with fewest moves, payments and deliveries together: it is the one of these two plans with fewer moves.
pub fn plan_fewest_moves(
    bytes: &[u8],
    places: &mut [u8],
    sums: &mut [u8],
    order: &mut [u8],
) -> Result<usize, PlanError>
    ensures { PlansFor Objective.Moves (ahead_along bytes.now (plan_areas places.old sums.old order.old)) (answer_of result) (plan_areas places.old sums.old order.old) (plan_areas places.new sums.new order.new) }
{
    fewest::plan(bytes, Objective::Moves, places, sums, order)
}

// The bounds of a place along the order that the order bytes name.
pub fn bounds(bytes: &[u8], place: usize, order: &[u8]) -> Result<exchange::Bounds, BoundsError>
    ensures { bounded_of result ≡ bounds_of bytes.now place order.now }
{
    bounds::bounds(bytes, place, order)
}

// Checks a plan that is brought: its step count, places, paid totals and order bytes.
pub fn check(
    bytes: &[u8],
    count: usize,
    places: &[u8],
    sums: &[u8],
    order: &[u8],
) -> Result<(), CheckError>
    ensures { Checks (ahead_of_check bytes.now count places.now sums.now order.now) (checked_of result) order.now (plan_in count places.now sums.now) }
{
    checks::check(bytes, count, places, sums, order)
}
