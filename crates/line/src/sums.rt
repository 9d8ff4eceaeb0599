// The totals of segments, and which segments fit.
ghost use Rattle.std.specs.Prelude.{◌≡◌, ◌<◌, ◌^◌, length};
ghost use Rattle.line.specs.Segments.{spread, all_have};
ghost use Rattle.line.specs.Code.{sum_to, Sums};

use super::Totals;
use super::segments::amount;
use exchange::Unfit;

// Whether every segment has a unit.
fn have_units(units: &[u16]) -> bool
    ensures { result ≡ all_have units.now }
{
    !units.contains(&0)
}

// All units.
fn count(units: &[u16]) -> u32
    requires { length units.now < 2 ^ 16 }
    ensures { result ≡ sum_to units.now (length units.now) }
{
    let mut n = 0;
    for &u in units {
        n += u32::from(u);
    }
    n
}

// An amount over all units.
fn total(units: &[u16], amounts: &[u32]) -> u64
    requires { (length units.now < 2 ^ 16) × (length amounts.now ≡ length units.now) }
    ensures { result ≡ sum_to (spread units.now amounts.now) (length (spread units.now amounts.now)) }
{
    let mut sum = 0;
    for (i, &u) in units.iter().enumerate() {
        sum += amount(u, amounts[i]);
    }
    sum
}

// The totals, if the segments fit. More than 65,535 segments have more units than fit; of fewer, no sum below wraps.
pub(crate) fn add_up(units: &[u16], costs: &[u32], values: &[u32]) -> Result<Totals, Unfit>
    ensures { Sums units.now costs.now values.now result }
{
    if usize::from(u16::MAX) < units.len() {
        return Err(Unfit);
    }
    if costs.len() != units.len() {
        return Err(Unfit);
    }
    if values.len() != units.len() {
        return Err(Unfit);
    }
    if !have_units(units) {
        return Err(Unfit);
    }
    let n = count(units);
    if u32::from(u16::MAX) < n {
        return Err(Unfit);
    }
    let cost = total(units, costs);
    if u64::from(u32::MAX) < cost {
        return Err(Unfit);
    }
    let value = total(units, values);
    if u64::from(u32::MAX) < value {
        return Err(Unfit);
    }
    Ok(Totals {
        units: n as usize,
        cost: cost as u32,
        value: value as u32,
    })
}
