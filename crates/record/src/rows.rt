// Units of items, row maps and cells.
ghost use Rattle.std.specs.Prelude.{◌≡◌, ◌++◌, ◌-◌, ◌≤◌, length, drop, replicate};
ghost use Rattle.area.specs.Entries.{column, entries};
ghost use Rattle.grid.specs.Map.{bit_count};
ghost use Rattle.grid.specs.Rows.{LastLargest};
ghost use Rattle.contract.specs.Table.{all_within};
ghost use Rattle.record.specs.View.Spaced.{Spaced};

use super::field::LIMIT;

// The units of n items, each `step` bytes after the one before, then zeros.
pub(crate) fn units_of(s: &[u8], at: usize, step: usize, n: usize) -> [u16; 8]
    requires { Spaced 1 s.now at step n × (n ≤ 8) }
    ensures { result ≡ column 1 s.now at step n ++ replicate (8 - n) 0 }
{
    let mut units = [0u16; 8];
    for k in 0..n {
        units[k] = u16::from(s[at + k * step]);
    }
    units
}

// How many bits stand in a row map, counted byte by byte. A map has at most 128 rows, so that the count fits a byte, and a loop over bytes
// alone is the faster.
pub(crate) fn ones(map: &[u8]) -> usize
    requires { length map.now ≤ 16 }
    ensures { (result ≡ bit_count map.now) × (result ≤ 128) }
{
    let mut n: u8 = 0;
    for byte in map {
        n += byte.count_ones() as u8;
    }
    usize::from(n)
}

// Whether every cell is within the limit. All are looked at: a loop with one way out is the faster.
pub(crate) fn all_within(cells: &[u8]) -> bool
    ensures { result ≡ all_within (entries 4 cells.now) }
{
    let mut within = true;
    for k in 0..area::count::<u32>(cells) {
        within &= area::known::<u32>(cells, k) <= LIMIT;
    }
    within
}

// Whether every cell is within the limit, where none is above the last one.
pub(crate) fn last_within(cells: &[u8]) -> bool
    requires { LastLargest (entries 4 cells.now) }
    ensures { result ≡ all_within (entries 4 cells.now) }
{
    let n = area::count::<u32>(cells);
    area::known::<u32>(cells, n - 1) <= LIMIT
}

// Copies cells out of the record to the front of an area.
pub(crate) fn copy_given(given: &[u8], out: &mut [u32])
    requires { length (entries 4 given.now) ≤ length out.old }
    ensures { out.new ≡ entries 4 given.now ++ drop (length (entries 4 given.now)) out.old }
{
    for k in 0..area::count::<u32>(given) {
        out[k] = area::known::<u32>(given, k);
    }
}
