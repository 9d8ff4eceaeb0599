// The terms of a contract that was read.
ghost use Rattle.std.specs.Prelude.{◌≡◌, length, ◌≤◌};
ghost use Rattle.grid.specs.Rows.{rows_of};
ghost use Rattle.contract.specs.Contract.{contract_of, entries_in};
ghost use Rattle.contract.specs.Valid.{Valid};
ghost use Rattle.contract.specs.declared.Form.TheVariants.{Ladder, Table};
ghost use Rattle.planning.specs.Deals.{contract_with};
ghost use Rattle.planning.specs.Stands.{Stands};

use contract::{Form, Header};
use exchange::Sides;

// The terms of a valid contract that has items: unit prices or a table.
#[derive(Clone, Copy)]
pub struct Terms<'a> {
    pub form: Form,
    // P and the defection costs.
    pub sides: Sides,
    // The units of each item.
    pub units: &'a [u16],
    // The costs and the values of the items, or of the rows of a table.
    pub costs: &'a [u32],
    pub values: &'a [u32],
    ghost has_items: { form ≡ Ladder → ⊥ },
    ghost few_items: { length units.now ≤ 8 },
    ghost valid: { Valid (contract_with form sides units.now costs.now values.now) },
}

// How many costs, and how many values, a contract with these items has.
fn entry_count(form: Form, units: &[u16]) -> usize
    requires { form ≡ Table → rows_of units.now ≤ 128 }
    ensures { result ≡ entries_in form (length units.now) units.now }
{
    match form {
        Form::Ladder | Form::UnitPrices => units.len(),
        Form::Table => grid::row_count(units).unwrap(),
    }
}

impl<'a> Terms<'a> {
    ghost use Rattle.planning.specs.Terms.{contract_in};

    // The terms of a contract whose header was read, with its costs and values at the front of two areas.
    pub fn of(header: &'a Header, costs: &'a [u32], values: &'a [u32]) -> Terms<'a>
        requires stands { Stands header.now costs.now values.now }
        requires has_items { header.now.form ≡ Ladder → ⊥ }
        ensures form { result.form ≡ header.now.form }
        ensures contract { contract_of header.now costs.now values.now ≡ contract_in result }
    {
        let units = &header.units[..usize::from(header.count)];
        let n = entry_count(header.form, units);
        let sides = Sides {
            price: header.price,
            supplier: header.supplier,
            buyer: header.buyer,
        };
        Terms {
            form: header.form,
            sides,
            units,
            costs: &costs[..n],
            values: &values[..n],
        }
    }
}
