// Unit prices and tables: reads the contract and answers by its form.
ghost use Rattle.std.specs.Prelude.{◌≡◌};
ghost use Rattle.record.specs.Find.{OtherFound};
ghost use Rattle.planning.specs.Bounds.{bounds_of};
ghost use Rattle.planning.specs.Answer.{bounded_of};

use crate::places::{bounds_prices, bounds_table};
use contract::{Form, Refusal};
use exchange::Bounds;
use planning::{BoundsError, Terms};

// The bounds of a place of a record that is no ladder's: its costs and values fit into two areas of 128. Not compiled into its caller: a ladder's
// bounds would else need the stack of both areas.
#[inline(never)]
pub(crate) fn bounds_other(bytes: &[u8], place: usize, order: &[u8]) -> Result<Bounds, BoundsError>
    requires { OtherFound bytes.now }
    ensures { bounded_of result ≡ bounds_of bytes.now place order.now }
{
    let mut costs = [0u32; 128];
    let mut values = [0u32; 128];
    let header = record::read(bytes, &mut costs, &mut values)?;
    if order.len() < 8 {
        return Err(BoundsError::Refused(Refusal::Short));
    }
    let terms = Terms::of(&header, &costs, &values);
    match terms.form {
        Form::Table => bounds_table(&terms, place, order),
        _ => bounds_prices(&terms, place, order),
    }
}
