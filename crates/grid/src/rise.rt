// Whether no cell is below that of a row with one unit less of one item, where every cell is given: one look at each cell, as it stands in
// the record.
ghost use Rattle.std.specs.Prelude.{◌≡◌, ◌&&◌, ◌-◌, ◌<◌, ◌≤◌, length};
ghost use Rattle.area.specs.Entries.{entries};
ghost use Rattle.grid.specs.Cells.{Sized};
ghost use Rattle.grid.specs.Rows.{rows_of, rising};
ghost use Rattle.grid.specs.Rise.{all_rows, not_below, row_rises, rows_by, Compared, Segment};

use super::all_units;
use super::below::if_any;

// Whether no cell before row `to` is below that of the row before it, as it must be among the rows of the last item alone. All are compared,
// here and in rows_rise: a loop with one way out is the faster.
fn run_rises(given: &[u8], to: usize) -> bool
    requires { to ≤ length (entries 4 given.now) }
    ensures { result ≡ all_rows (not_below 1 (entries 4 given.now)) 1 (to - 1) }
{
    let mut rises = true;
    for r in 1..to {
        rises &= area::known::<u32>(given, r - 1) <= area::known::<u32>(given, r);
    }
    rises
}

// Whether row r's cell is not below those with one unit less of an item, by the units in its word: of the last item, of the two before it,
// which take a and b rows a unit, and of the one that takes k, of which it has a unit.
fn row_rises(given: &[u8], word: u32, r: usize, a: usize, b: usize, k: usize) -> bool
    requires { Compared (entries 4 given.now) r a b k }
    ensures { result ≡ row_rises word a b k (entries 4 given.now) r }
{
    let v = area::known::<u32>(given, r);
    let last = if_any(word % 256, area::known::<u32>(given, r - 1));
    let second = if_any(word / 256 % 256, area::known::<u32>(given, r - a));
    let third = if_any(word / 65536 % 256, area::known::<u32>(given, r - b));
    let first = area::known::<u32>(given, r - k);
    (last <= v) & (second <= v) & (third <= v) & (first <= v)
}

// Whether the rows from row k up to row `to` rise, which have a unit of an item that takes k rows a unit.
fn rows_rise(given: &[u8], words: &[u32; 128], a: usize, b: usize, k: usize, to: usize) -> bool
    requires { Segment (entries 4 given.now) a b k to }
    ensures { result ≡ all_rows (rows_by words.now a b k (entries 4 given.now)) k (to - k) }
{
    let mut all = true;
    for r in k..to {
        all &= row_rises(given, words[r], r, a, b, k);
    }
    all
}

// Two items and more: the rows of the last item alone, then those that have a unit of the item before it, then of the one before that, and so on.
// A stride passed twice costs nothing: the compiler leaves out the second comparison.
fn items_rise(units: &[u16], given: &[u8]) -> bool
    requires { Sized units.now (entries 4 given.now) × (1 < length units.now) }
    ensures { result ≡ rising units.now (entries 4 given.now) (rows_of units.now) }
{
    let words = all_units(units);
    let n = units.len();
    let a = usize::from(units[n - 1]) + 1;
    let one = run_rises(given, a);
    let b = a * (usize::from(units[n - 2]) + 1);
    let two = one & rows_rise(given, &words, a, a, a, b);
    if n == 2 {
        return two;
    }
    let c = b * (usize::from(units[n - 3]) + 1);
    let three = two & rows_rise(given, &words, a, b, b, c);
    if n == 3 {
        return three;
    }
    let d = c * (usize::from(units[n - 4]) + 1);
    three & rows_rise(given, &words, a, b, c, d)
}

// Whether no cell is below that of a row with one unit less of one item, where all are given.
pub fn all_rise(units: &[u16], given: &[u8]) -> bool
    requires { Sized units.now (entries 4 given.now) }
    ensures { result ≡ rising units.now (entries 4 given.now) (rows_of units.now) }
{
    if units.len() < 2 {
        run_rises(given, area::count::<u32>(given))
    } else {
        items_rise(units, given)
    }
}
