// The counts of a header, and whether they are in range.
ghost use Rattle.std.specs.Prelude.{◌≡◌, cond, ◌≤◌, leb, length, Some, None};
ghost use Rattle.grid.specs.Rows.{rows_of};
ghost use Rattle.contract.specs.Valid.{units_in_range, sum, in_range};
ghost use Rattle.record.specs.View.Write.{counted, items_in};

use contract::{Form, Header};

// Whether each item has 1 to 255 units.
fn units_in_range(units: &[u16]) -> bool
    ensures { result ≡ units_in_range units.now }
{
    units.iter().all(|n| 0 < *n && *n <= 255)
}

// Whether all units together are at most 1,000.
fn sum_in_range(units: &[u16]) -> bool
    requires { length units.now ≤ 8 }
    ensures { result ≡ leb (sum units.now) 1000 }
{
    units.iter().map(|n| u32::from(*n)).sum::<u32>() <= 1000
}

// How many items have unit prices, if they are in range.
fn priced_items(units: &[u16]) -> Option<usize>
    requires { length units.now ≤ 8 }
    ensures { result ≡ cond (in_range Form.UnitPrices (length units.now) units.now) (Some (length units.now)) None }
{
    if units.is_empty() || !units_in_range(units) || !sum_in_range(units) {
        return None;
    }
    Some(units.len())
}

// The rows of a table, if its items are in range.
fn table_rows(units: &[u16]) -> Option<usize>
    requires { length units.now ≤ 4 }
    ensures { result ≡ cond (in_range Form.Table (length units.now) units.now) (Some (rows_of units.now)) None }
{
    if units.is_empty() || !units_in_range(units) {
        return None;
    }
    grid::row_count(units)
}

// How many costs, and how many values, belong to a header, if its counts are in range.
pub(crate) fn entry_count(header: Header) -> Option<usize>
    ensures { result ≡ counted header }
{
    let n = usize::from(header.count);
    match header.form {
        Form::Ladder if 1 <= n && n <= 1000 => Some(n),
        Form::UnitPrices if n <= 8 => priced_items(&header.units[..n]),
        Form::Table if n <= 4 => table_rows(&header.units[..n]),
        _ => None,
    }
}

// How many items a header counts.
pub(crate) fn item_count(header: Header) -> usize
    ensures { result ≡ items_in header.form header.count }
{
    match header.form {
        Form::Ladder => 0,
        Form::UnitPrices | Form::Table => usize::from(header.count),
    }
}
