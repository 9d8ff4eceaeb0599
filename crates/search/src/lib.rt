// Plans a table with fewest steps over all orders.
#![tactic(auto)]

ghost use Rattle.std.specs.Prelude.{◌≡◌, cond, ◌+◌, ◌<◌, ◌≤◌, length, sum};
ghost use Rattle.grid.specs.Rows.{rows_of};
ghost use Rattle.contract.specs.Contract.{limit};
ghost use Rattle.exchange.specs.Search.{most_steps};
ghost use Rattle.search.specs.Promise.{Plans, suits, Rise};
ghost use Rattle.search.specs.Layers.{never, starts_by, working, rows_work, Room, Fitted, Found};

mod layers;
mod limits;
mod notes;
mod rows;
mod walk;

use exchange::{Sides, Unfit};
use limits::each_row;
use notes::Notes;
use rows::Rows;

// P and the defection costs, and the number of rows.
#[derive(Clone, Copy)]
struct Terms {
    sides: Sides,
    rows: usize,
}

// Above every price: the sum of a row from which the end is not reached. All its bytes are the same, so that an array is filled with it as fast as
// with zeros.
const UNREACHED: u32 = u32::MAX;

// No step reaches the row.
const NEVER: u16 = u16::MAX;

// All units. A table of so few rows has fewer units than rows.
fn total(units: &[u16]) -> usize
    requires { sum units.now < 128 }
    ensures { result ≡ sum units.now }
{
    units.iter().map(|&u| usize::from(u)).sum()
}

// The most steps that a plan may have, if the rows, cells and areas suit.
fn most_steps(
    units: &[u16],
    costs: &[u32],
    values: &[u32],
    places: &[u8],
    sums: &[u8],
    work: &[u8],
) -> Option<usize>
    ensures { result ≡ cond (suits units.now costs.now values.now places.now sums.now work.now) (Some (most_steps units.now)) None }
{
    let rows = grid::row_count(units)?;
    if rows < 2 || costs.len() != rows || values.len() != rows {
        return None;
    }
    let most = 2 * total(units) + 1;
    if area::count::<u16>(places) < most || area::count::<u32>(sums) < most {
        return None;
    }
    if work.len() < rows * (most + 1) {
        return None;
    }
    Some(most)
}

// Whether the start is safe, by the cells of the first and the last row.
fn starts(t: Terms, costs: &[u32], values: &[u32]) -> bool
    requires { (0 < t.rows) × (length costs.now ≡ t.rows) × (length values.now ≡ t.rows) }
    ensures { result ≡ starts_by t costs.now values.now }
{
    let last = t.rows - 1;
    exchange::start_safe(
        t.sides.price,
        costs[last],
        costs[0],
        values[last],
        values[0],
    )
}

// Searches by the units, the caps and the floors of the rows: the fewest steps, if there is a plan. A plan with so many steps is written;
// where there is none the areas stay. With no step the last row alone is reached, and needs the price.
fn find_plan(rows: &Rows, most: usize, places: &mut [u8], sums: &mut [u8]) -> Option<usize>
    requires { (most < never) × Room most places.old sums.old }
    ensures { let r = rows.now in Found (rows_work r.terms r.units.now r.caps.now r.floors.now) most result places.old places.new sums.old sums.new }
{
    let last = rows.terms.rows - 1;
    let mut notes = Notes {
        reached: [NEVER; 128],
        firsts: [UNREACHED; 128],
        found: [0; 128],
    };
    notes.reached[last] = 0;
    notes.firsts[last] = rows.terms.sides.price;
    notes.found[0] = last as u8;
    let n = rows.count_steps(most, &mut notes)?;
    rows.walk(&notes, n, places, sums);
    Some(n)
}

// The same from the costs and the values of the rows. Among all that `plan` is inlined into, its loops are compiled to slower ones.
#[inline(never)]
fn search_rows(
    terms: Terms,
    units: &[u16],
    costs: &[u32],
    values: &[u32],
    most: usize,
    places: &mut [u8],
    sums: &mut [u8],
) -> Option<usize>
    requires { Fitted terms units.now costs.now values.now most places.old sums.old }
    ensures { Found (working terms units.now costs.now values.now) most result places.old places.new sums.old sums.new }
{
    let held = grid::all_units(units);
    let p = terms.sides;
    let cost_last = costs[terms.rows - 1];
    let mut caps = [0; 128];
    let cap_of = |cost| exchange::most_paid(p.price, cost_last, cost, p.supplier);
    each_row(costs, cap_of, &mut caps);
    let value_last = values[terms.rows - 1];
    let mut floors = [0; 128];
    let floor_of = |value| exchange::least_paid(p.price, value_last, value, p.buyer);
    each_row(values, floor_of, &mut floors);
    let rows = Rows {
        terms,
        units,
        strides: grid::strides_of(units),
        held: &held,
        caps: &caps,
        floors: &floors,
    };
    find_plan(&rows, most, places, sums)
}

// Plans a table with fewest steps over all orders. Without a plan the areas of places and sums stay.
pub fn plan(
    sides: Sides,
    units: &[u16],
    costs: &[u32],
    values: &[u32],
    places: &mut [u8],
    sums: &mut [u8],
    work: &mut [u8],
) -> Result<Option<usize>, Unfit>
    requires { Rise units.now costs.now values.now × (length units.now ≤ 4) × (sides.price ≤ limit) }
    ensures { Plans sides units.now costs.now values.now result places.old sums.old work.old places.new sums.new work.new }
{
    let most = most_steps(units, costs, values, places, sums, work).ok_or(Unfit)?;
    let t = Terms {
        sides,
        rows: costs.len(),
    };
    if !starts(t, costs, values) {
        area::clear(work);
        return Ok(None);
    }
    let steps = search_rows(t, units, costs, values, most, places, sums);
    area::clear(work);
    let Some(n) = steps else {
        return Ok(None);
    };
    area::clear_from::<u16>(places, n);
    area::clear_from::<u32>(sums, n);
    Ok(Some(n))
}
