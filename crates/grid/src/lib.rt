// The rows of a table: how many there are, blank cells, and row maps.
#![tactic(auto)]

ghost use Rattle.std.specs.Prelude.{◌≡◌, cond, ◌&&◌, ◌<◌, ◌+◌, ◌^◌, leb, length, get_or};
ghost use Rattle.area.specs.Entries.{entries};
ghost use Rattle.grid.specs.Rows.{rows_of, rising};
ghost use Rattle.grid.specs.Map.{bit_at, stands, bits_from, marked};
ghost use Rattle.grid.specs.Cells.{row_map, Sized, Fills};
ghost use Rattle.grid.specs.Units.{Small, RowUnits};

mod below;
mod rise;
mod units;

use below::largest_below;
pub use below::strides_of;
pub use rise::all_rise;
pub use units::all_units;

// That units and cells are a table, `Sized`, stays a clause: the cells are lent to write, lent to read, or bytes, so no one type holds them.

// A table has at most this many rows.
pub const MAX_ROWS: usize = 128;

// The number of rows, where a table may have so many.
pub fn row_count(units: &[u16]) -> Option<usize>
    ensures { result ≡ cond (leb (rows_of units.now) 128) (Some (rows_of units.now)) None }
{
    let mut rows: usize = 1;
    for &u in units {
        rows *= usize::from(u) + 1;
        if MAX_ROWS < rows {
            return None;
        }
    }
    Some(rows)
}

// Whether bit r of a row map stands; past the end none does.
pub fn stands(map: &[u8], r: usize) -> bool
    ensures { result ≡ stands map.now r }
{
    bits_from(map, r) % 2 == 1
}

// The bits of row n's byte from row n on; past the end none stands.
pub fn bits_from(map: &[u8], n: usize) -> usize
    ensures { result ≡ bits_from map.now n }
{
    match map.get(n / 8) {
        Some(&byte) => usize::from(byte) >> (n % 8),
        None => 0,
    }
}

// Fills a table's cells row by row: the next given one where the row's bit stands, else the largest below. The cell before is kept at hand: the
// next row would else wait for its store.
fn fill_rows(units: &[u16], words: &[u32; 128], map: &[u8], given: &[u8], cells: &mut [u32]) -> bool
    requires { Small units.now × RowUnits units.now words.now (length cells.old) }
    ensures { Fills units.now map.now (entries 4 given.now) cells.old result cells.new }
{
    let strides = strides_of(units);
    let mut used: usize = 0;
    let mut last: u32 = 0;
    let mut rises = true;
    for r in 0..cells.len() {
        let below = largest_below(strides, cells, r, words[r], last);
        if stands(map, r) {
            last = area::entry(given, used);
            used += 1;
        } else {
            last = below;
        }
        cells[r] = last;
        rises &= below <= last;
    }
    rises
}

// Fills a table's cells from the given ones, and says whether none is below that of a row with one unit less of one item.
pub fn fill(units: &[u16], map: &[u8], given: &[u8], cells: &mut [u32]) -> bool
    requires { Sized units.now cells.old }
    ensures { Fills units.now map.now (entries 4 given.now) cells.old result cells.new }
{
    let words = all_units(units);
    fill_rows(units, &words, map, given, cells)
}

// The map of the cells that have to be given, and whether none is below that of a row with one unit less of one item. Stays a struct: `mark`
// promises the map of falling cells too, which an Option would leave out.
#[derive(Clone, Copy)]
pub struct Marks {
    pub rises: bool,
    pub map: [u8; 16],
}

// Finds the cells that filling would not restore. Rows past the map's last are not marked.
pub fn mark(units: &[u16], cells: &[u32]) -> Marks
    requires { Sized units.now cells.now }
    ensures { (result.rises ≡ rising units.now cells.now (length cells.now)) × (result.map ≡ row_map units.now cells.now (length cells.now) 16) }
{
    let words = all_units(units);
    let strides = strides_of(units);
    let mut map = [0u8; 16];
    let mut rises = true;
    let mut last: u32 = 0;
    for r in 0..cells.len() {
        let below = largest_below(strides, cells, r, words[r], last);
        let cell = cells[r];
        if cell != below {
            mark_row(&mut map, r);
        }
        rises &= below <= cell;
        last = cell;
    }
    Marks { rises, map }
}

// Lets bit r of a map stand, if the map has a row r.
fn mark_row(map: &mut [u8], r: usize)
    requires { bits_from map.old r ≡ 0 }
    ensures { map.new ≡ marked map.old r }
{
    let i = r / 8;
    if i < map.len() {
        let k = r % 8;
        map[i] = with_bit(map[i], k);
    }
}

// A byte whose bits from k on are clear, with bit k standing.
fn with_bit(b: u8, k: usize) -> u8
    requires { (b < 2 ^ k) × (k < 8) }
    ensures { result ≡ b + 2 ^ k }
{
    b + (1u8 << k)
}
