// The numbers of a deal, the answers of planning, the bounds of a place, and the test of the start.
#![tactic(auto)]

ghost use Rattle.std.specs.Prelude.{◌≡◌, min, ◌<◌, ◌≤◌, ◌^◌};
ghost use Rattle.std.proofs.Math.IntN.{sub_ℕ};
ghost use Rattle.exchange.specs.Bounds.{unclipped_upper_of, unclipped_lower_of, upper_of, lower_of};
ghost use Rattle.exchange.specs.Rule.{coins};
ghost use Rattle.exchange.specs.Test.{start_test};

// P and the defection costs of the supplier and the buyer.
#[derive(Clone, Copy)]
pub struct Sides {
    pub price: u32,
    pub supplier: u32,
    pub buyer: u32,
}

// The deal, the place or an area does not fit.
#[derive(Clone, Copy)]
pub struct Unfit;

// What a plan is to have fewest of. Moves are payments and deliveries together.
#[derive(Clone, Copy)]
pub enum Objective {
    Steps,
    Payments,
    Deliveries,
    Moves,
}

// The bounds of a place. The lower is at least 0, the upper at most the price; it may be negative.
#[derive(Clone, Copy)]
pub struct Bounds {
    pub lower: i64,
    pub upper: i64,
}

// The difference of two sums, which may be negative. The sums are taken unsigned and subtracted once, so nothing wraps.
fn minus(added: u64, taken: u64) -> i64
    requires { (added < 2 ^ 63) × (taken < 2 ^ 63) }
    ensures { result ≡ sub_ℕ added taken }
{
    added as i64 - taken as i64
}

// The upper bound of a place, unclipped.
pub fn unclipped_upper(price: u32, cost_last: u32, cost_here: u32, supplier: u32) -> i64
    ensures { result ≡ unclipped_upper_of price cost_last cost_here supplier }
{
    minus(
        u64::from(price) + u64::from(cost_here) + u64::from(supplier),
        u64::from(cost_last),
    )
}

// The lower bound of a place, unclipped.
pub fn unclipped_lower(price: u32, value_last: u32, value_here: u32, buyer: u32) -> i64
    ensures { result ≡ unclipped_lower_of price value_last value_here buyer }
{
    minus(
        u64::from(price) + u64::from(value_here),
        u64::from(value_last) + u64::from(buyer),
    )
}

// The most that may be paid at a place, never above the price. A negative one stays: nothing that is paid there is safe.
pub fn upper(price: u32, cost_last: u32, cost_here: u32, supplier: u32) -> i64
    ensures { result ≡ upper_of price cost_last cost_here supplier }
{
    let bound = unclipped_upper(price, cost_last, cost_here, supplier);
    let most = i64::from(price);
    if bound < most {
        return bound;
    }
    most
}

// The least that must be paid at a place, never below 0.
pub fn lower(price: u32, value_last: u32, value_here: u32, buyer: u32) -> i64
    ensures { result ≡ lower_of price value_last value_here buyer }
{
    let bound = unclipped_lower(price, value_last, value_here, buyer);
    if 0 < bound {
        return bound;
    }
    0
}

// The most that is paid at a place: the smaller of its upper bound and the price, and nothing where that bound is below 0. With the sign
// tested first, a loop over many places compares them faster.
pub fn most_paid(price: u32, cost_last: u32, cost_here: u32, supplier: u32) -> u32
    ensures { result ≡ min (coins (upper_of price cost_last cost_here supplier)) price }
{
    let bound = unclipped_upper(price, cost_last, cost_here, supplier);
    if bound < 0 {
        return 0;
    }
    if bound < i64::from(price) {
        return bound as u32;
    }
    price
}

// The least that is paid at a place: its lower bound. No place has a greater value than the last, so it is at most the price.
pub fn least_paid(price: u32, value_last: u32, value_here: u32, buyer: u32) -> u32
    requires { value_here ≤ value_last }
    ensures { result ≡ coins (lower_of price value_last value_here buyer) }
{
    lower(price, value_last, value_here, buyer) as u32
}

// Whether the start, nothing delivered and nothing paid, is safe: the price is no less than the whole deal costs the supplier, and no more
// than it is worth to the buyer.
pub fn start_safe(
    price: u32,
    cost_last: u32,
    cost_first: u32,
    value_last: u32,
    value_first: u32,
) -> bool
    ensures { result ≡ start_test price cost_last cost_first value_last value_first }
{
    let sum = u64::from(price);
    if sum + u64::from(cost_first) < u64::from(cost_last) {
        return false;
    }
    sum + u64::from(value_first) <= u64::from(value_last)
}
