// The map and the three amounts.
ghost use Rattle.contract.specs.Field.{form_of, amounts, head_at};
ghost use Rattle.record.specs.View.Head.{Formed, Heads};

use super::field::{field, money};
use contract::{Form, Refusal};

#[derive(Clone, Copy)]
pub(crate) struct Head {
    pub form: Form,
    pub price: u32,
    pub supplier: u32,
    pub buyer: u32,
    pub next: usize,
}

// The form that the map's bits from 3 on name.
fn form_of(bits: u16) -> Result<Form, Refusal>
    ensures { Formed (form_of bits) result }
{
    match bits {
        1 => Ok(Form::Ladder),
        2 => Ok(Form::UnitPrices),
        4 => Ok(Form::Table),
        _ => Err(Refusal::Map),
    }
}

// P, cs and cd, as bits 0, 1 and 2 of the map announce them.
fn amounts(s: &[u8], map: u16, form: Form, at: usize) -> Result<Head, Refusal>
    ensures { Heads (amounts s.now map form at) result }
{
    let (price, at) = money(s, at, map % 2 == 1)?;
    let (supplier, at) = money(s, at, map / 2 % 2 == 1)?;
    let (buyer, next) = money(s, at, map / 4 % 2 == 1)?;
    Ok(Head {
        form,
        price,
        supplier,
        buyer,
        next,
    })
}

pub(crate) fn head_at(s: &[u8]) -> Result<Head, Refusal>
    ensures { Heads (head_at s.now) result }
{
    let (map, next) = field::<u16>(s, 0)?;
    let form = form_of(map / 8)?;
    amounts(s, map, form, next)
}
