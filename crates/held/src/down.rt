// The way down through the rows that may take an offer: those that the offering row holds and that can pay what it needs.
ghost use Rattle.std.specs.Prelude.{◌≡◌, ◌+◌, ◌*◌, ◌-◌, ◌%◌, ◌^◌, ◌<◌, ◌≤◌};
ghost use Rattle.grid.specs.Rows.{rows_of};
ghost use Rattle.grid.specs.Units.{packed, Small};
ghost use Rattle.grid.specs.Below.{Strides};
ghost use Rattle.held.specs.Down.{Open, CapsRise, Down, OneLess};

// The row with one unit less of the last item of a word; None where there is no unit to take away or that row cannot pay.
fn one_less(caps: &[u32; 128], row: usize, stride: usize, word: u32, need: u32) -> Option<usize>
    requires { (0 < word % 256 → stride ≤ row) × (0 < word % 256 → row - stride < 128) }
    ensures { OneLess caps.now row stride (word % 256) need result }
{
    if word % 256 == 0 {
        return None;
    }
    let less = row - stride;
    if need <= caps[less] { Some(less) } else { None }
}

// The row with the units of the last item of one word put back to those of another. A u32 has no From into usize, so `as` widens it.
fn put_back(row: usize, stride: usize, less: u32, more: u32) -> usize
    requires { (less % 256 ≤ more % 256) × (row + (more % 256 - less % 256) * stride < 2 ^ 64) }
    ensures { result ≡ row + (more % 256 - less % 256) * stride }
{
    row + (more % 256 - less % 256) as usize * stride
}

// From row a the next row down that row b holds and that can pay; None where there is none. less and more are the words of rows a and b.
// Tries each item, from the last to the first: one unit less of it than row a has, and of the items after it the units of row b. Caps do not
// fall as units are added, so where that row cannot pay, none with fewer units of the item can. Written out item by item, which takes less
// time than a loop.
pub fn next_down(
    units: &[u16],
    strides: &[usize; 4],
    caps: &[u32; 128],
    a: usize,
    b: usize,
    less: u32,
    more: u32,
    need: u32,
) -> Option<usize>
    requires { Small units.now × Strides units.now strides.now × (less ≡ packed units.now a) × (more ≡ packed units.now b) × CapsRise units.now caps.now × (a < rows_of units.now) × (b < rows_of units.now) × Open units.now caps.now b need a }
    ensures { Down units.now caps.now b need a result }
{
    let found = one_less(caps, a, 1, less, need);
    if found.is_some() || units.len() < 2 {
        return found;
    }
    let row = put_back(a, 1, less, more);
    let found = one_less(caps, row, strides[1], less / 256, need);
    if found.is_some() || units.len() < 3 {
        return found;
    }
    let row = put_back(row, strides[1], less / 256, more / 256);
    let found = one_less(caps, row, strides[2], less / 65536, need);
    if found.is_some() || units.len() < 4 {
        return found;
    }
    let row = put_back(row, strides[2], less / 65536, more / 65536);
    one_less(caps, row, strides[3], less / 16777216, need)
}
