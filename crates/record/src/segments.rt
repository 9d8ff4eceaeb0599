// A ladder's units and items with unit prices: segments, each a run of units with one cost and one value.
ghost use Rattle.std.specs.Prelude.{◌≡◌, true, false, ◌++◌, ◌+◌, ◌*◌, ◌≤◌, length, drop};
ghost use Rattle.area.specs.Entries.{column};
ghost use Rattle.contract.specs.Segments.{cost_value, segment, segments, segment_body, size, skip};
ghost use Rattle.contract.specs.Parse.{sized};
ghost use Rattle.record.specs.View.Spaced.{Spaced};
ghost use Rattle.record.specs.View.Head.{head_of};
ghost use Rattle.record.specs.View.Segments.{sums, Kept, Steps, Whole, lifted, wide, most, Runs, padded_units, segment_form};
ghost use Rattle.record.specs.View.Field.{Ranged};
ghost use Rattle.record.specs.Promise.{Reads};

use super::field::{LIMIT, amount, field, in_range, small};
use super::head::Head;
use super::header_of;
use super::rows::units_of;
use area::Entry;
use contract::{Header, Refusal};

// Running totals and the index reached.
#[derive(Clone, Copy)]
pub(crate) struct Cursor {
    pub at: usize,
    pub units: u64,
    pub cost: u64,
    pub value: u64,
}

// The cost and the value of each of n units.
fn cost_value(s: &[u8], c: Cursor, n: u64) -> Result<Cursor, Refusal>
    requires { (n ≤ 1000) × Kept (sums c) }
    ensures { Steps s.now (c.at + 8) (cost_value s.now (sums c) n) result }
{
    let (cost, mid) = amount(s, n, c.cost, c.at)?;
    let (value, end) = amount(s, n, c.value, mid)?;
    Ok(Cursor {
        at: end,
        units: c.units,
        cost,
        value,
    })
}

// An item with unit prices.
fn item(s: &[u8], c: Cursor) -> Result<Cursor, Refusal>
    requires { Kept (sums c) }
    ensures { Steps s.now (c.at + 9) (segment true s.now (sums c)) result }
{
    let (n, at) = small(s, c.at, 255)?;
    let units = c.units + n;
    if 1000 < units {
        return Err(Refusal::Range);
    }
    cost_value(s, Cursor { at, units, ..c }, n)
}

// A unit of a ladder, or an item with unit prices.
fn segment<const PRICED: bool>(s: &[u8], c: Cursor) -> Result<Cursor, Refusal>
    requires { Kept (sums c) }
    ensures { Steps s.now (c.at + size PRICED) (segment PRICED s.now (sums c)) result }
{
    if PRICED {
        item(s, c)
    } else {
        cost_value(s, c, 1)
    }
}

// n segments, one after the other.
fn segments<const PRICED: bool>(s: &[u8], c: Cursor, n: usize) -> Result<Cursor, Refusal>
    requires { (c.at ≤ length s.now) × Kept (sums c) }
    ensures { Steps s.now (c.at + n * size PRICED) (segments PRICED s.now n (sums c)) result }
{
    let mut d = c;
    for _k in 0..n {
        d = segment::<PRICED>(s, d)?;
    }
    Ok(d)
}

// The totals after n units of a ladder that lie within the record: two sums, with no test between.
fn totals(s: &[u8], c: Cursor, n: usize) -> Cursor
    requires { Whole s.now n (sums c) }
    ensures { sums result ≡ lifted s.now n (sums c) }
{
    let mut cost = c.cost;
    let mut value = c.value;
    for k in 0..n {
        let i = c.at + 8 * k;
        cost += u64::from(u32::load(s, i));
        value += u64::from(u32::load(s, i + 4));
    }
    Cursor {
        at: c.at + 8 * n,
        units: c.units,
        cost,
        value,
    }
}

// n units of a ladder that lie within the record: no total falls, so the last ones decide.
fn ladder(s: &[u8], c: Cursor, n: usize) -> Result<Cursor, Refusal>
    requires { Whole s.now n (sums c) }
    ensures { Steps s.now (c.at + n * 8) (segments false s.now n (sums c)) result }
{
    let d = totals(s, c, n);
    let limit = u64::from(LIMIT);
    if limit < d.cost || limit < d.value {
        return Err(Refusal::Limit);
    }
    Ok(d)
}

// Validates n segments, by the totals alone where that is enough.
fn validate<const PRICED: bool>(s: &[u8], c: Cursor, n: usize) -> Result<Cursor, Refusal>
    requires { (n ≤ 1000) × ((c.at ≤ length s.now) × Kept (sums c)) }
    ensures { Steps s.now (c.at + n * size PRICED) (segments PRICED s.now n (sums c)) result }
{
    if PRICED || s.len() - c.at < n * 8 {
        return segments::<PRICED>(s, c, n);
    }
    ladder(s, c, n)
}

// How many segments there are.
fn segment_count<const PRICED: bool>(s: &[u8], at: usize) -> Result<(u64, usize), Refusal>
    ensures { Ranged (wide PRICED) (most PRICED) s.now at result }
{
    if PRICED {
        return small(s, at, 8);
    }
    let (n, next) = field::<u16>(s, at)?;
    Ok((in_range(u64::from(n), 1000)?, next))
}

// The segments of a record: how many, where the first begins, and the totals.
#[derive(Clone, Copy)]
pub(crate) struct Run {
    pub count: usize,
    pub first: usize,
    pub cost: u64,
    pub value: u64,
}

// Validates the segments from index at to the record's end.
pub(crate) fn find_segments<const PRICED: bool>(s: &[u8], at: usize) -> Result<Run, Refusal>
    ensures { Runs PRICED s.now at result }
{
    let (n, first) = segment_count::<PRICED>(s, at)?;
    let c = Cursor {
        at: first,
        units: 0,
        cost: 0,
        value: 0,
    };
    let count = n as usize;
    let d = validate::<PRICED>(s, c, count)?;
    if d.at != s.len() {
        return Err(Refusal::Trailing);
    }
    Ok(Run {
        count,
        first,
        cost: d.cost,
        value: d.value,
    })
}

// Stores n costs, each `step` bytes after the one before, and the values 4 bytes after each.
fn fill(s: &[u8], at: usize, step: usize, n: usize, costs: &mut [u32], values: &mut [u32])
    requires { Spaced 8 s.now at step n × ((n ≤ length costs.old) × (n ≤ length values.old)) }
    ensures { (costs.new ≡ column 4 s.now at step n ++ drop n costs.old) × (values.new ≡ column 4 s.now (at + 4) step n ++ drop n values.old) }
{
    for k in 0..n {
        let i = at + k * step;
        costs[k] = u32::load(s, i);
        values[k] = u32::load(s, i + 4);
    }
}

// Stores the costs and values of n segments, which reach to the record's end.
fn fill_segments<const PRICED: bool>(
    s: &[u8],
    first: usize,
    n: usize,
    costs: &mut [u32],
    values: &mut [u32],
)
    requires { (first + n * size PRICED ≡ length s.now) × ((n ≤ length costs.old) × (n ≤ length values.old)) }
    ensures { (costs.new ≡ column 4 s.now (first + skip PRICED) (size PRICED) n ++ drop n costs.old) × (values.new ≡ column 4 s.now (first + skip PRICED + 4) (size PRICED) n ++ drop n values.old) }
{
    if PRICED {
        fill(s, first + 1, 9, n, costs, values);
    } else {
        fill(s, first, 8, n, costs, values);
    }
}

// The units of each item; a ladder has none.
fn segment_units<const PRICED: bool>(s: &[u8], first: usize, n: usize) -> [u16; 8]
    requires { Spaced 1 s.now first (size PRICED) n × (n ≤ most PRICED) }
    ensures { result ≡ padded_units PRICED s.now first n }
{
    if PRICED {
        units_of(s, first, 9, n)
    } else {
        [0u16; 8]
    }
}

// Reads what follows the head of a ladder or of unit prices.
pub(crate) fn read_segments<const PRICED: bool>(
    s: &[u8],
    h: Head,
    costs: &mut [u32],
    values: &mut [u32],
) -> Result<Header, Refusal>
    requires { h.form ≡ segment_form PRICED }
    ensures { Reads (sized (segment_body PRICED s.now (head_of h)) (length costs.old) (length values.old)) costs.old values.old result costs.new values.new }
{
    let run = find_segments::<PRICED>(s, h.next)?;
    let n = run.count;
    if costs.len() < n || values.len() < n {
        return Err(Refusal::Short);
    }
    let first = run.first;
    fill_segments::<PRICED>(s, first, n, costs, values);
    Ok(header_of(h, n, segment_units::<PRICED>(s, first, n)))
}
