// The bounds of a place, by the form of a contract.
ghost use Rattle.std.specs.Prelude.{◌≡◌, ◌≤◌, length};
ghost use Rattle.contract.specs.declared.Form.TheVariants.{UnitPrices, Table};
ghost use Rattle.record.specs.Find.{LadderFound, ladder_in};
ghost use Rattle.planning.specs.Terms.{contract_in};
ghost use Rattle.planning.specs.Bounds.{bounds_in};
ghost use Rattle.planning.specs.Answer.{bounded_of};

use contract::Refusal;
use exchange::Bounds;
use planning::{BoundsError, Terms};
use record::Ladder;

// The bounds of a place of a ladder that was found in its record.
pub(crate) fn bounds_ladder(
    l: Ladder,
    bytes: &[u8],
    place: usize,
    order: &[u8],
) -> Result<Bounds, BoundsError>
    requires { LadderFound bytes.now l }
    ensures { bounded_of result ≡ bounds_in (ladder_in bytes.now l) place order.now }
{
    if order.len() < 8 {
        return Err(BoundsError::Refused(Refusal::Short));
    }
    if l.count < place {
        return Err(BoundsError::Refused(Refusal::Range));
    }
    if !order::names_each(order, 0) {
        return Err(BoundsError::WrongOrder);
    }
    Ok(ladder::bounds(planning::ladder_of(l), bytes, place))
}

// The bounds of a place along the named order of unit prices.
pub(crate) fn bounds_prices(
    terms: &Terms,
    place: usize,
    order: &[u8],
) -> Result<Bounds, BoundsError>
    requires form { terms.now.form ≡ UnitPrices }
    requires eight { 8 ≤ length order.now }
    ensures { bounded_of result ≡ bounds_in (contract_in terms.now) place order.now }
{
    let n = terms.units.len();
    if sizes::sum_units(terms.units).unwrap() < place {
        return Err(BoundsError::Refused(Refusal::Range));
    }
    if !order::names_each(order, n) {
        return Err(BoundsError::WrongOrder);
    }
    let named = order::first_eight(order);
    let us = order::pick(terms.units, named, 0);
    let cs = order::pick(terms.costs, named, 0);
    let vs = order::pick(terms.values, named, 0);
    // The items fit in any order, and the place is one of theirs.
    Ok(line::bounds(terms.sides, &us[..n], &cs[..n], &vs[..n], place).unwrap())
}

// The bounds of a row of a table.
pub(crate) fn bounds_table(terms: &Terms, place: usize, order: &[u8]) -> Result<Bounds, BoundsError>
    requires form { terms.now.form ≡ Table }
    requires eight { 8 ≤ length order.now }
    ensures { bounded_of result ≡ bounds_in (contract_in terms.now) place order.now }
{
    if terms.costs.len() <= place {
        return Err(BoundsError::Refused(Refusal::Range));
    }
    if !order::names_each(order, 0) {
        return Err(BoundsError::WrongOrder);
    }
    Ok(crate::row_bounds(terms.sides, terms.costs, terms.values, place))
}
