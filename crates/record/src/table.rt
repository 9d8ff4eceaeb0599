// A table: the units of each item, and for costs and for values a row map with the cells that stand.
ghost use Rattle.std.specs.Prelude.{◌≡◌, true, ◌++◌, ◌≤◌, length, drop};
ghost use Rattle.area.specs.Entries.{entries};
ghost use Rattle.grid.specs.Rows.{LastLargest};
ghost use Rattle.grid.specs.Cells.{Sized};
ghost use Rattle.contract.specs.Table.{all_within, grids_at, table_at, table_end, table_body};
ghost use Rattle.contract.specs.Parse.{sized};
ghost use Rattle.record.specs.View.Head.{head_of};
ghost use Rattle.contract.specs.declared.Form.TheVariants.{Table};
ghost use Rattle.record.specs.View.Table.{Items, Counted, given_rise, grid_of, Within, RisesIs, Units, Grids, Tables, Laid, layout_of, TableRises, grid_cells, Filled, Working};
ghost use Rattle.record.specs.Promise.{Reads};

use super::field::small;
use super::head::Head;
use super::header_of;
use super::rows::{all_within, copy_given, last_within, ones, units_of};
use contract::{Header, Refusal};

// n units fields: the index after them.
fn units_at(s: &[u8], n: u64, at: usize) -> Result<usize, Refusal>
    requires { at ≤ length s.now }
    ensures { Units s.now n at result }
{
    let mut i = at;
    for _k in 0..n {
        (_, i) = small(s, i, 255)?;
    }
    Ok(i)
}

// Where a row map begins, where its cells begin, and the index after them; and whether every cell is given and none is below that of a row
// with one unit less of one item.
#[derive(Clone, Copy)]
pub(crate) struct Grid {
    pub map: usize,
    pub cells: usize,
    pub end: usize,
    pub rises: bool,
}

// Whether every cell is given and none is below that of a row with one unit less of one item.
fn given_rise(units: &[u16], rows: usize, given: &[u8]) -> bool
    requires { Counted units.now rows }
    ensures { result ≡ given_rise units.now (entries 4 given.now) }
{
    area::count::<u32>(given) == rows && grid::all_rise(units, given)
}

// Whether every cell is within the limit. Where all are given and none falls, the last one tells: none is above it.
fn cells_within(rises: bool, given: &[u8]) -> bool
    requires { rises ≡ true → LastLargest (entries 4 given.now) }
    ensures { result ≡ all_within (entries 4 given.now) }
{
    if rises {
        last_within(given)
    } else {
        all_within(given)
    }
}

// A row map and its cells.
fn grid_at(s: &[u8], units: &[u16], rows: usize, map: usize) -> Result<Grid, Refusal>
    requires { Counted units.now rows }
    ensures { Grids s.now units.now rows map result }
{
    let b = (rows + 7) / 8;
    if s.len() < b || s.len() - b < map {
        return Err(Refusal::Truncated);
    }
    let cells = map + b;
    if grid::bits_from(&s[map..cells], rows) != 0 {
        return Err(Refusal::Value);
    }
    let n = ones(&s[map..cells]);
    if s.len() - cells < 4 * n {
        return Err(Refusal::Truncated);
    }
    let end = cells + 4 * n;
    let rises = given_rise(units, rows, &s[cells..end]);
    if !cells_within(rises, &s[cells..end]) {
        return Err(Refusal::Limit);
    }
    Ok(Grid {
        map,
        cells,
        end,
        rises,
    })
}

// Where a table's units lie, its rows, and its two grids.
#[derive(Clone, Copy)]
pub(crate) struct Layout {
    pub units: usize,
    pub after: usize,
    pub rows: usize,
    pub costs: Grid,
    pub values: Grid,
}

// The rows and both grids of a table whose units fields lie from index first to index after.
fn grids_at(s: &[u8], first: usize, after: usize) -> Result<Layout, Refusal>
    requires { Items s.now first after }
    ensures { Tables s.now (grids_at s.now first after) result }
{
    let n = after - first;
    let units = units_of(s, first, 1, n);
    let rows = grid::row_count(&units[..n]).ok_or(Refusal::Range)?;
    let costs = grid_at(s, &units[..n], rows, after)?;
    let values = grid_at(s, &units[..n], rows, costs.end)?;
    Ok(Layout {
        units: first,
        after,
        rows,
        costs,
        values,
    })
}

// The fields of a table.
fn table_at(s: &[u8], at: usize) -> Result<Layout, Refusal>
    ensures { Tables s.now (table_at s.now at) result }
{
    let (n, first) = small(s, at, 4)?;
    let after = units_at(s, n, first)?;
    grids_at(s, first, after)
}

// Fills the cells of a grid, and says whether none falls. Where all are given and none does, they stay in the record.
fn fill_cells(s: &[u8], units: &[u16], g: Grid, cells: &mut [u32]) -> bool
    requires { Within s.now (length cells.old) (grid_of g) × Sized units.now cells.old × RisesIs s.now units.now g }
    ensures { Filled s.now units.now (grid_of g) cells.old result (grid_cells s.now g cells.new) }
{
    if g.rises {
        return true;
    }
    grid::fill(units, &s[g.map..g.cells], &s[g.cells..g.end], cells)
}

// Stores the cells of a grid: those of the record where all are given and none falls, else as they were filled.
fn store_cells(s: &[u8], g: Grid, cells: &[u32], out: &mut [u32])
    requires { (g.cells ≤ g.end) × (g.end ≤ length s.now) × (length (grid_cells s.now g cells.now) ≤ length out.old) }
    ensures { out.new ≡ grid_cells s.now g cells.now ++ drop (length (grid_cells s.now g cells.now)) out.old }
{
    if g.rises {
        copy_given(&s[g.cells..g.end], out);
    } else {
        out[..cells.len()].copy_from_slice(cells);
    }
}

// Fills a table's blanks into two work areas, tests that no cell falls, and stores the cells.
fn read_cells(
    s: &[u8],
    h: Head,
    t: Layout,
    c: &mut [u32],
    v: &mut [u32],
    costs: &mut [u32],
    values: &mut [u32],
) -> Result<Header, Refusal>
    requires { Working s.now (head_of h) t c.old v.old }
    ensures { Reads (sized (table_end s.now (head_of h) (layout_of t)) (length costs.old) (length values.old)) costs.old values.old result costs.new values.new }
{
    let k = t.after - t.units;
    let units = units_of(s, t.units, 1, k);
    if !fill_cells(s, &units[..k], t.costs, c) {
        return Err(Refusal::Falling);
    }
    if !fill_cells(s, &units[..k], t.values, v) {
        return Err(Refusal::Falling);
    }
    if costs.len() < t.rows || values.len() < t.rows {
        return Err(Refusal::Short);
    }
    store_cells(s, t.costs, c, costs);
    store_cells(s, t.values, v, values);
    Ok(header_of(h, k, units))
}

// Lends the work areas, which a refusal leaves no trace of.
fn read_layout(
    s: &[u8],
    h: Head,
    t: Layout,
    costs: &mut [u32],
    values: &mut [u32],
) -> Result<Header, Refusal>
    requires { (h.form ≡ Table) × Laid s.now (layout_of t) × TableRises s.now t }
    ensures { Reads (sized (table_end s.now (head_of h) (layout_of t)) (length costs.old) (length values.old)) costs.old values.old result costs.new values.new }
{
    let n = t.rows;
    let mut c = [0u32; 128];
    let mut v = [0u32; 128];
    read_cells(s, h, t, &mut c[..n], &mut v[..n], costs, values)
}

// Reads what follows the head of a table.
pub(crate) fn read_table(
    s: &[u8],
    h: Head,
    costs: &mut [u32],
    values: &mut [u32],
) -> Result<Header, Refusal>
    requires { h.form ≡ Table }
    ensures { Reads (sized (table_body s.now (head_of h)) (length costs.old) (length values.old)) costs.old values.old result costs.new values.new }
{
    let t = table_at(s, h.next)?;
    if t.values.end != s.len() {
        return Err(Refusal::Trailing);
    }
    read_layout(s, h, t, costs, values)
}
