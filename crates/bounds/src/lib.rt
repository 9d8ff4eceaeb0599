// Answers the bounds of a place of a contract record.
#![tactic(auto)]

ghost use Rattle.std.specs.Prelude.{◌≡◌, ◌-◌, length, get_or};
ghost use Rattle.planning.specs.Answer.{bounded_of};
ghost use Rattle.planning.specs.Bounds.{bounds_of};
ghost use Rattle.bounds.specs.Places.{row_bounds};

mod by_form;
mod places;

use exchange::{Bounds, Sides};
use planning::BoundsError;
use record::Found;

// The bounds of a place along the order that the order bytes name.
pub fn bounds(bytes: &[u8], place: usize, order: &[u8]) -> Result<Bounds, BoundsError>
    ensures { bounded_of result ≡ bounds_of bytes.now place order.now }
{
    match record::find(bytes)? {
        Found::Ladder(l) => places::bounds_ladder(l, bytes, place, order),
        Found::UnitPrices | Found::Table => by_form::bounds_other(bytes, place, order),
    }
}

// The cell of a row; past the end 0.
fn cell(cells: &[u32], row: usize) -> u32
    ensures { result ≡ get_or cells.now row 0 }
{
    cells.get(row).copied().unwrap_or(0)
}

// The cell of the last row; 0 if there is none.
fn last_cell(cells: &[u32]) -> u32
    ensures { result ≡ get_or cells.now (length cells.now - 1) 0 }
{
    cells.last().copied().unwrap_or(0)
}

// The bounds of a row, by its cells and those of the last row.
pub fn row_bounds(sides: Sides, costs: &[u32], values: &[u32], row: usize) -> Bounds
    ensures { result ≡ row_bounds sides costs.now values.now row }
{
    let lower = exchange::lower(
        sides.price,
        last_cell(values),
        cell(values, row),
        sides.buyer,
    );
    let upper = exchange::upper(
        sides.price,
        last_cell(costs),
        cell(costs, row),
        sides.supplier,
    );
    Bounds { lower, upper }
}
