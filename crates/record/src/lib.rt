// Reads and writes contract records, and finds ladders in theirs.
#![tactic(auto)]

ghost use Rattle.std.specs.Prelude.{◌≡◌, length, ◌≤◌};
ghost use Rattle.contract.specs.Parse.{reading};
ghost use Rattle.record.specs.Find.{Finds};
ghost use Rattle.record.specs.Promise.{Reads, Writes};
ghost use Rattle.record.specs.View.Answer.{header_with};
ghost use Rattle.record.specs.View.Head.{head_of};

mod counts;
mod field;
mod head;
mod output;
mod rises;
mod rows;
mod segments;
mod table;
mod writer;

use contract::{Form, Header, Refusal};

// A ladder in its record: P and the defection costs, where its rises begin, how many units there are, and the total cost and value.
#[derive(Clone, Copy)]
pub struct Ladder {
    pub price: u32,
    pub supplier: u32,
    pub buyer: u32,
    pub first: usize,
    pub count: usize,
    pub cost: u32,
    pub value: u32,
}

// What finding a ladder answers.
#[derive(Clone, Copy)]
pub enum Found {
    Ladder(Ladder),
    // Not looked at beyond the head.
    UnitPrices,
    Table,
}

// Reads a record: its costs and values go to the front of two areas, which a refusal leaves as they were. (Two loans and no struct of both:
// each clause says what either area was and is.)
pub fn read(bytes: &[u8], costs: &mut [u32], values: &mut [u32]) -> Result<Header, Refusal>
    ensures { Reads (reading bytes.now (length costs.old) (length values.old)) costs.old values.old result costs.new values.new }
{
    let h = head::head_at(bytes)?;
    match h.form {
        Form::Ladder => segments::read_segments::<false>(bytes, h, costs, values),
        Form::UnitPrices => segments::read_segments::<true>(bytes, h, costs, values),
        Form::Table => table::read_table(bytes, h, costs, values),
    }
}

// Finds a ladder in its record. Nothing is copied: the rises stay where they are.
pub fn find(bytes: &[u8]) -> Result<Found, Refusal>
    ensures { Finds bytes.now result }
{
    let found = head::head_at(bytes)?;
    match found.form {
        Form::Ladder => rises::find_ladder(bytes, found),
        Form::UnitPrices => Ok(Found::UnitPrices),
        Form::Table => Ok(Found::Table),
    }
}

// Writes the record of a contract: the costs and values at the front of two areas, the record to the front of `out`.
// The answer is the record's length; a refusal leaves `out` as it was.
pub fn write(
    header: Header,
    costs: &[u32],
    values: &[u32],
    out: &mut [u8],
) -> Result<usize, Refusal>
    ensures { Writes header costs.now values.now out.old result out.new }
{
    let n = counts::entry_count(header).ok_or(Refusal::Range)?;
    if costs.len() < n || values.len() < n {
        return Err(Refusal::Short);
    }
    let k = counts::item_count(header);
    let contract = writer::Contract {
        header,
        units: &header.units[..k],
        costs: &costs[..n],
        values: &values[..n],
    };
    contract.write(out)
}

// The header of a record that was read.
fn header_of(h: head::Head, count: usize, units: [u16; 8]) -> Header
    requires { count ≤ 1000 }
    ensures { result ≡ header_with (head_of h) count units }
{
    Header {
        price: h.price,
        supplier: h.supplier,
        buyer: h.buyer,
        form: h.form,
        count: count as u16,
        units,
    }
}
