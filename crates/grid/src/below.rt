// The largest cell among the rows with one unit less of one item, found without a division.
ghost use Rattle.std.specs.Prelude.{◌≡◌, cond, ◌-◌, max, ltb, get_or};
ghost use Rattle.grid.specs.Units.{Small};
ghost use Rattle.grid.specs.Below.{Strides, below_by, Under, RowAt};

// How many rows each item takes a unit, the last item first.
pub fn strides_of(units: &[u16]) -> [usize; 4]
    requires { Small units.now }
    ensures { Strides units.now result }
{
    let mut strides = [1usize; 4];
    for i in 1..units.len() {
        strides[i] = strides[i - 1] * (usize::from(units[units.len() - i]) + 1);
    }
    strides
}

// The cell with one unit less of an item, and 0 for a row without a unit of it. Stays a number: `less_one` in specs/ says 0 there.
pub(crate) fn if_any(unit: u32, cell: u32) -> u32
    ensures { result ≡ cond (ltb 0 unit) cell 0 }
{
    if 0 < unit { cell } else { 0 }
}

// The larger of b and the cell with one unit less of an item that takes k rows a unit.
fn item_below(b: u32, cells: &[u32], r: usize, k: usize, unit: u32) -> u32
    requires { Under cells.now r k unit }
    ensures { result ≡ max b (cond (ltb 0 unit) (get_or cells.now (r - k) 0) 0) }
{
    if 0 < unit { cells[r - k].max(b) } else { b }
}

// The largest cell among the rows with one unit less of one item, by the units in row r's word. The last item's is the cell of the row
// before. Written out item by item, which takes less time than a loop.
pub(crate) fn largest_below(
    strides: [usize; 4],
    cells: &[u32],
    r: usize,
    word: u32,
    last: u32,
) -> u32
    requires { RowAt strides cells.now r word last }
    ensures { result ≡ below_by strides word cells.now r 4 }
{
    let a = if_any(word % 256, last);
    if word < 256 {
        return a;
    }
    let b = item_below(a, cells, r, strides[1], word / 256 % 256);
    let c = item_below(b, cells, r, strides[2], word / 65536 % 256);
    item_below(c, cells, r, strides[3], word / 16777216 % 256)
}
