// Follows a brought plan over the rows of a table.
ghost use Rattle.std.specs.Prelude.{◌≡◌, ◌-◌, length, get_or};
ghost use Rattle.contract.specs.declared.Form.TheVariants.{Table};
ghost use Rattle.grid.specs.Rows.{rows_of};
ghost use Rattle.grid.specs.Units.{RowUnits};

use crate::brought::Brought;
use line::Totals;
use planning::Terms;

// The rows of a table, as the tests of steps read them.
#[derive(Drop)]
struct Rows<'a> {
    terms: Terms<'a>,
    // The units of each row.
    held: [u32; 128],
    // The number, the cost and the value of the last row.
    last: Totals,
    ghost table: { terms.form ≡ Table },
    ghost units_held: { RowUnits terms.units.now held (rows_of terms.units.now) },
    ghost number_is: { last.units ≡ length terms.costs.now - 1 },
    ghost cost_is: { last.cost ≡ get_or terms.costs.now (length terms.costs.now - 1) 0 },
    ghost value_is: { last.value ≡ get_or terms.values.now (length terms.values.now - 1) 0 },
}

impl Rows<'_> {
    ghost use Rattle.std.specs.Prelude.{◌<◌};
    ghost use Rattle.exchange.specs.Deal.{Safe};
    ghost use Rattle.exchange.specs.Forms.{table, holds_row};
    ghost use Rattle.exchange.specs.Test.{step_test};
    ghost use Rattle.line.specs.CheckCode.{Judges};
    ghost use Rattle.bounds.specs.Places.{row_bounds};
    ghost use Rattle.checks.specs.Brought.{steps_of};
    ghost use Rattle.checks.specs.Rows.{deal_over};

    // Whether it is a step from one row with p paid to another with q paid. No bound falls on the way to a row that holds the units of the first.
    fn is_step(&self, from: usize, to: usize, p: u32, q: u32) -> bool
        requires from { from < length self.now.terms.costs.now }
        requires to { to < length self.now.terms.costs.now }
        ensures { result ≡ step_test (holds_row self.now.terms.units.now from to) (row_bounds self.now.terms.sides self.now.terms.costs.now self.now.terms.values.now from) (row_bounds self.now.terms.sides self.now.terms.costs.now self.now.terms.values.now to) p q self.now.terms.sides.price }
    {
        let costs = self.terms.costs;
        let values = self.terms.values;
        if !line::is_step(self.terms.sides, self.last, costs[from], values[to], p, q) {
            return false;
        }
        held::word_holds(self.held[from], self.held[to])
    }

    // Whether the plan goes by steps over the rows from a safe start to the end. Every state of a step is then judged by the bounds of its
    // row, (0, 0) too.
    fn follow(&self, plan: &Brought) -> bool
        requires { Safe (deal_over self.now) 0 0 }
        ensures { Judges (deal_over self.now) (steps_of plan.now) result }
    {
        let mut row = 0;
        let mut paid = 0;
        for i in 0..plan.count {
            let next = usize::from(area::known::<u16>(plan.places, i));
            let sum = area::known::<u32>(plan.sums, i);
            if self.last.units < next {
                return false;
            }
            if !self.is_step(row, next, paid, sum) {
                return false;
            }
            row = next;
            paid = sum;
        }
        row == self.last.units && paid == self.terms.sides.price
    }
}

ghost use Rattle.exchange.specs.Forms.{table};
ghost use Rattle.line.specs.CheckCode.{Judges};
ghost use Rattle.checks.specs.Brought.{steps_of};

// Whether a brought plan goes by steps over the rows of a table from the start to the end.
pub(crate) fn follow(terms: &Terms, plan: &Brought) -> bool
    requires { terms.now.form ≡ Table }
    ensures { Judges (table terms.now.sides terms.now.units.now terms.now.costs.now terms.now.values.now) (steps_of plan.now) result }
{
    let price = terms.sides.price;
    let costs = terms.costs;
    let values = terms.values;
    let n = costs.len() - 1;
    let last = Totals {
        units: n,
        cost: costs[n],
        value: values[n],
    };
    if !exchange::start_safe(price, last.cost, costs[0], last.value, values[0]) {
        return false;
    }
    let rows = Rows {
        terms: *terms,
        held: grid::all_units(terms.units),
        last,
    };
    rows.follow(plan)
}
