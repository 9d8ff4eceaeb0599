// The planner for C programs: numbers and byte areas, each entry one call of the planner or of a session.
#![tactic(auto)]

ghost use Rattle.std.specs.Prelude.{◌≡◌};
ghost use Rattle.exchange.specs.PlanIn.{plan_in};
ghost use Rattle.exchange.specs.declared.Objective.{Objective};
ghost use Rattle.planning.specs.Areas.{areas, plan_areas};
ghost use Rattle.planning.specs.Check.{ahead_of_check};
ghost use Rattle.planning.specs.Promise.{ahead, ahead_along};
ghost use Rattle.yolkgorge.specs.Entries.{PlansNumber, PlansNumberFor, ChecksNumber};
ghost use Rattle.yolkgorge.specs.Limits.{bounds_for, LeavesBounds};
ghost use Rattle.yolkgorge.specs.Sessions.{Leaves, OpensNumber, report_from, finished_in};

mod limits;
mod numbers;
mod resting;

use numbers::SHORT;
use session::Plan;

// Plans the deal of a record: the step count, or minus the number of the refusal. Areas of places with two bytes each, sums with four, order
// bytes and work.
#[unsafe(no_mangle)]
pub extern "C" fn yolkgorge_plan(
    bytes: &[u8],
    places: &mut [u8],
    sums: &mut [u8],
    order: &mut [u8],
    work: &mut [u8],
) -> i64
    ensures { PlansNumber (ahead bytes.now (areas places.old sums.old order.old work.old)) result (areas places.old sums.old order.old work.old) (areas places.new sums.new order.new work.new) }
{
    numbers::steps_or_refusal(planner::plan(bytes, places, sums, order, work))
}

// Plans a ladder or unit prices with fewest payments: the step count, or minus the number of the refusal.
#[unsafe(no_mangle)]
pub extern "C" fn yolkgorge_plan_fewest_payments(
    bytes: &[u8],
    places: &mut [u8],
    sums: &mut [u8],
    order: &mut [u8],
) -> i64
    ensures { PlansNumberFor Objective.Payments (ahead_along bytes.now (plan_areas places.old sums.old order.old)) result (plan_areas places.old sums.old order.old) (plan_areas places.new sums.new order.new) }
{
    numbers::steps_or_refusal(planner::plan_fewest_payments(bytes, places, sums, order))
}

// Plans a ladder or unit prices with fewest deliveries: the step count, or minus the number of the refusal.
#[unsafe(no_mangle)]
pub extern "C" fn yolkgorge_plan_fewest_deliveries(
    bytes: &[u8],
    places: &mut [u8],
    sums: &mut [u8],
    order: &mut [u8],
) -> i64
    ensures { PlansNumberFor Objective.Deliveries (ahead_along bytes.now (plan_areas places.old sums.old order.old)) result (plan_areas places.old sums.old order.old) (plan_areas places.new sums.new order.new) }
{
    numbers::steps_or_refusal(planner::plan_fewest_deliveries(bytes, places, sums, order))
}

// Plans a ladder or unit prices with fewest moves: the step count, or minus the number of the refusal.
#[unsafe(no_mangle)]
pub extern "C" fn yolkgorge_plan_fewest_moves(
    bytes: &[u8],
    places: &mut [u8],
    sums: &mut [u8],
    order: &mut [u8],
) -> i64
    ensures { PlansNumberFor Objective.Moves (ahead_along bytes.now (plan_areas places.old sums.old order.old)) result (plan_areas places.old sums.old order.old) (plan_areas places.new sums.new order.new) }
{
    numbers::steps_or_refusal(planner::plan_fewest_moves(bytes, places, sums, order))
}

// Checks a plan that is brought: 0 if it is accepted, else the number of the refusal.
#[unsafe(no_mangle)]
pub extern "C" fn yolkgorge_check(
    bytes: &[u8],
    count: usize,
    places: &[u8],
    sums: &[u8],
    order: &[u8],
) -> u32
    ensures { ChecksNumber (ahead_of_check bytes.now count places.now sums.now order.now) result order.now (plan_in count places.now sums.now) }
{
    numbers::code(planner::check(bytes, count, places, sums, order))
}

// Opens a session on a plan that is brought: 0 and the session stored, else the number of the refusal.
#[unsafe(no_mangle)]
pub extern "C" fn yolkgorge_open(
    state: &mut [u8],
    bytes: &[u8],
    count: usize,
    places: &[u8],
    sums: &[u8],
    order: &[u8],
) -> u32
    ensures { OpensNumber (ahead_of_check bytes.now count places.now sums.now order.now) order.now (plan_in count places.now sums.now) result state.old state.new }
{
    let plan = Plan {
        count,
        places,
        sums,
    };
    let opened = session::open(bytes, &plan, order);
    if state.len() < 10 {
        return numbers::short_code(opened);
    }
    resting::keep(state, opened)
}

// Reports a place delivered (side 0) or a total paid (side 1): 0 and the next session stored, else the number of the refusal.
#[unsafe(no_mangle)]
pub extern "C" fn yolkgorge_report(
    state: &mut [u8],
    count: usize,
    places: &[u8],
    sums: &[u8],
    side: u32,
    number: u32,
) -> u32
    ensures { Leaves (report_from state.old count places.now sums.now side number) result state.old state.new }
{
    if state.len() < 10 {
        return SHORT;
    }
    let plan = Plan {
        count,
        places,
        sums,
    };
    let answer = resting::report(state, &plan, side, number);
    resting::keep(state, answer)
}

// Whether a session is finished by a plan with this count: 1 or 0, and 8 where the area is too short for a session.
#[unsafe(no_mangle)]
pub extern "C" fn yolkgorge_finished(state: &[u8], count: usize) -> u32
    ensures { result ≡ finished_in state.now count }
{
    if state.len() < 10 {
        return SHORT;
    }
    u32::from(resting::take(state).finished(count))
}

// The bounds of a place along the order that the order bytes name: 0 and the lower and the upper bound stored, else the number of the refusal.
#[unsafe(no_mangle)]
pub extern "C" fn yolkgorge_bounds(bytes: &[u8], place: usize, order: &[u8], pair: &mut [u8]) -> u32
    ensures { LeavesBounds (bounds_for bytes.now place order.now pair.old) result pair.old pair.new }
{
    if pair.len() < 16 {
        return numbers::short_code(planner::bounds(bytes, 0, order));
    }
    limits::keep(pair, planner::bounds(bytes, place, order))
}
