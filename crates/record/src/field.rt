// Single fields of a record, each with its refusals. A field that is read answers its number and the index after it, as the format's own
// definitions do: a reader that held both would be no plainer, since each clause has to name the index before and after.
ghost use Rattle.std.specs.Prelude.{◌≡◌, ◌+◌, ◌≤◌, length};
ghost use Rattle.contract.specs.Contract.{limit};
ghost use Rattle.contract.specs.Field.{money, amount};
ghost use Rattle.record.specs.View.Field.{FieldRead, FieldAs, InRange, Ranged, Adds, Money};

use area::Entry;
use contract::Refusal;

pub(crate) const LIMIT: u32 = 1_000_000_000;

fn byte(s: &[u8], at: usize) -> Result<(u64, usize), Refusal>
    ensures { FieldRead 1 s.now at result }
{
    if s.len() <= at {
        return Err(Refusal::Truncated);
    }
    Ok((u64::from(s[at]), at + 1))
}

// A field of two bytes or of four.
pub(crate) fn field<T: Entry>(s: &[u8], at: usize) -> Result<(T, usize), Refusal>
    ensures { FieldAs T.number T.BYTES s.now at result }
{
    if s.len() < T::BYTES || s.len() - T::BYTES < at {
        return Err(Refusal::Truncated);
    }
    Ok((T::load(s, at), at + T::BYTES))
}

// A number held to 1 .. most.
pub(crate) fn in_range(n: u64, most: u64) -> Result<u64, Refusal>
    ensures { InRange n most result }
{
    if n == 0 || most < n {
        return Err(Refusal::Range);
    }
    Ok(n)
}

// A byte held to 1 .. most.
pub(crate) fn small(s: &[u8], at: usize, most: u64) -> Result<(u64, usize), Refusal>
    ensures { Ranged 1 most s.now at result }
{
    let (n, next) = byte(s, at)?;
    Ok((in_range(n, most)?, next))
}

// P, cs or cd; 0 where its bit is clear.
pub(crate) fn money(s: &[u8], at: usize, present: bool) -> Result<(u32, usize), Refusal>
    ensures { Money (money present s.now at) result }
{
    if !present {
        return Ok((0, at));
    }
    let (v, next) = field::<u32>(s, at)?;
    if v == 0 {
        return Err(Refusal::Value);
    }
    if LIMIT < v {
        return Err(Refusal::Limit);
    }
    Ok((v, next))
}

// An amount for each of n units, added to a running total.
pub(crate) fn amount(s: &[u8], n: u64, total: u64, at: usize) -> Result<(u64, usize), Refusal>
    requires { (n ≤ 1000) × (total ≤ limit) }
    ensures { Adds s.now at (amount s.now n total at) result }
{
    let (v, next) = field::<u32>(s, at)?;
    if LIMIT < v {
        return Err(Refusal::Limit);
    }
    let sum = total + n * u64::from(v);
    if u64::from(LIMIT) < sum {
        return Err(Refusal::Limit);
    }
    Ok((sum, next))
}
