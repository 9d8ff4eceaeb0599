// Writes a contract whose counts are in range: every test first, then the stores.
ghost use Rattle.std.specs.Prelude.{◌≡◌, ◌*◌, ◌^◌, ◌<◌, ◌⊎◌, true, leb, length, get_or};
ghost use Rattle.contract.specs.Contract.{limit};
ghost use Rattle.contract.specs.Table.{all_within};
ghost use Rattle.contract.specs.Valid.{total, amounts_within, within_limit};
ghost use Rattle.record.specs.View.Write.{contract_with, Counted, each, Shaped, Segmented, Tabled, Mapped, Answers};

use super::field::LIMIT;
use super::output::{grid_len, head_len, put_grid, put_head, put_segments, put_units};
use contract::{Form, Header, Refusal};

// A contract whose counts are in range, with exactly the units, costs and values that they say.
#[derive(Clone, Copy)]
pub(crate) struct Contract<'a> {
    pub header: Header,
    pub units: &'a [u16],
    pub costs: &'a [u32],
    pub values: &'a [u32],
    ghost counted: { Counted header units.now costs.now values.now },
}

// Amount v for each unit of segment i: for one where none are stated.
fn for_units(units: &[u16], i: usize, v: u32) -> u64
    ensures { (result ≡ get_or units.now i 1 * v) × (result < 2 ^ 48) }
{
    match units.get(i) {
        Some(n) => u64::from(*n) * u64::from(v),
        None => u64::from(v),
    }
}

// Whether the total of amounts is within the limit, and so each amount.
fn total_within(units: &[u16], amounts: &[u32]) -> bool
    ensures { result ≡ leb (total (each units.now (length amounts.now)) amounts.now) limit }
{
    let mut total: u64 = 0;
    for i in 0..amounts.len() {
        total += for_units(units, i, amounts[i]);
        if u64::from(LIMIT) < total {
            return false;
        }
    }
    true
}

// Whether each amount is within the limit. (Not one function with that of a record's cells: there all are looked at, which is the faster.)
fn all_within(amounts: &[u32]) -> bool
    ensures { result ≡ all_within amounts.now }
{
    amounts.iter().all(|v| *v <= LIMIT)
}

fn amounts_within(form: Form, units: &[u16], amounts: &[u32]) -> bool
    requires { Shaped form units.now amounts.now }
    ensures { result ≡ amounts_within form units.now amounts.now }
{
    match form {
        Form::Ladder | Form::UnitPrices => total_within(units, amounts),
        Form::Table => all_within(amounts),
    }
}

impl Contract<'_> {
    fn within_limit(self) -> bool
        ensures { result ≡ within_limit (contract_with self.entry.header self.entry.units.now self.entry.costs.now self.entry.values.now) }
    {
        let form = self.header.form;
        let money = [self.header.price, self.header.supplier, self.header.buyer];
        if !all_within(&money) || !amounts_within(form, self.units, self.costs) {
            return false;
        }
        amounts_within(form, self.units, self.values)
    }

    // Writes its record to the front of `out`: the record's length.
    pub(crate) fn write(self, out: &mut [u8]) -> Result<usize, Refusal>
        ensures { Answers self.entry.header self.entry.units.now self.entry.costs.now self.entry.values.now out.old result out.new }
    {
        if !self.within_limit() {
            return Err(Refusal::Limit);
        }
        match self.header.form {
            Form::Ladder | Form::UnitPrices => self.write_segments(out),
            Form::Table => self.write_table(out),
        }
    }

    // Writes a ladder, whose segments state no units, or unit prices.
    fn write_segments(self, out: &mut [u8]) -> Result<usize, Refusal>
        requires { Segmented self.header self.units.now self.costs.now self.values.now }
        ensures { Answers self.entry.header self.entry.units.now self.entry.costs.now self.entry.values.now out.old result out.new }
    {
        let n = head_len(self.header) + self.units.len() + 8 * self.costs.len();
        if out.len() < n {
            return Err(Refusal::Short);
        }
        let i = put_head(out, self.header);
        Ok(put_segments(out, i, self.units, self.costs, self.values))
    }

    fn write_table(self, out: &mut [u8]) -> Result<usize, Refusal>
        requires { Tabled self.header self.units.now self.costs.now self.values.now }
        ensures { Answers self.entry.header self.entry.units.now self.entry.costs.now self.entry.values.now out.old result out.new }
    {
        let cost_marks = grid::mark(self.units, self.costs);
        if !cost_marks.rises {
            return Err(Refusal::Falling);
        }
        let value_marks = grid::mark(self.units, self.values);
        if !value_marks.rises {
            return Err(Refusal::Falling);
        }
        let size = (self.costs.len() + 7) / 8;
        self.write_grids(&cost_marks.map[..size], &value_marks.map[..size], out)
    }

    // Writes a table with the maps of its costs and of its values.
    fn write_grids(
        self,
        cost_map: &[u8],
        value_map: &[u8],
        out: &mut [u8],
    ) -> Result<usize, Refusal>
        requires { Mapped self.header self.units.now cost_map.now self.costs.now value_map.now self.values.now }
        ensures { Answers self.entry.header self.entry.units.now self.entry.costs.now self.entry.values.now out.old result out.new }
    {
        let n = head_len(self.header) + self.units.len() + grid_len(cost_map) + grid_len(value_map);
        if out.len() < n {
            return Err(Refusal::Short);
        }
        let i = put_head(out, self.header);
        let j = put_units(out, i, self.units);
        let k = put_grid(out, j, cost_map, self.costs);
        Ok(put_grid(out, k, value_map, self.values))
    }
}
