// The units of each item that each row holds, found without a division.
ghost use Rattle.grid.specs.Rows.{rows_of};
ghost use Rattle.grid.specs.Units.{Small, RowUnits};
ghost use Rattle.grid.specs.Adding.{Numbered, Addable, Added};

// The number of each row: as long as no other item has a unit, the units of the last item.
fn row_numbers() -> [u32; 128]
    ensures { Numbered result 128 }
{
    let mut held = [0u32; 128];
    for r in 0u8..128 {
        held[usize::from(r)] = u32::from(r);
    }
    held
}

// Adds an item to the words of the rows before row `end`: each has one unit more of it than the row a stride before.
fn add_item(held: &mut [u32], stride: usize, end: usize, one: u32)
    requires { Addable held.old stride end one }
    ensures { Added stride one held.old held.new end }
{
    for r in stride..end {
        held[r] = held[r - stride] + one;
    }
}

// The units of all rows, a word a row and a byte an item, the last item lowest.
pub fn all_units(units: &[u16]) -> [u32; 128]
    requires { Small units.now }
    ensures { RowUnits units.now result (rows_of units.now) }
{
    let mut held = row_numbers();
    let n = units.len();
    if n == 0 {
        return held;
    }
    let mut stride = usize::from(units[n - 1]) + 1;
    let mut one: u32 = 1;
    for j in (0..n - 1).rev() {
        one *= 256;
        let end = stride * (usize::from(units[j]) + 1);
        add_item(&mut held, stride, end, one);
        stride = end;
    }
    held
}
