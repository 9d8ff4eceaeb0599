// Chooses the order of the items for unit prices.
#![tactic(auto)]

ghost use Rattle.std.specs.Prelude.{◌≡◌, List, [], ◌++◌, reverse, ℕ, ◌+◌, ◌*◌, ◌^◌, ◌≤◌, ◌<◌, length, IfSome};
ghost use Rattle.exchange.specs.Chosen.{at};
ghost use Rattle.exchange.specs.Choice.{sum_over, all_items, best, placed};
ghost use Rattle.choice.specs.Promise.{numbered, Chooses};
ghost use Rattle.choice.specs.Ends.{placed_from, end_at, with_slack, left_of, takes_over, item_or, Holds};

mod order_end;

use order_end::OrderEnd;

// The amount of a unit of item j; 0 if there is no such item.
fn amount(amounts: &[u32], j: usize) -> u64
    ensures { (result ≡ at amounts.now j) × (result < 2 ^ 32) }
{
    amounts.get(j).copied().map_or(0, u64::from)
}

// What all units of item j come to; 0 if there is no such item.
fn block(units: &[u16], amounts: &[u32], j: usize) -> u64
    ensures { (result ≡ at units.now j * at amounts.now j) × (result < 2 ^ 48) }
{
    units.get(j).copied().map_or(0, u64::from) * amount(amounts, j)
}

// What all units of all items come to.
fn total(units: &[u16], amounts: &[u32]) -> u64
    requires { length units.now ≤ 8 }
    ensures { (result ≡ sum_over units.now (at amounts.now) (all_items (length units.now))) × (result < 2 ^ 51 + 1) }
{
    let mut sum = 0;
    for j in 0..units.len() {
        sum += block(units, amounts, j);
    }
    sum
}

// Item numbers from 1 in the order in which the items were placed, then zeros. An array and a count: the project has fixed memory and no heap.
#[derive(Clone, Copy)]
struct Items {
    items: [u8; 8],
    count: usize,
}

impl<'a> OrderEnd<'a> {
    // Whether an item is placed from this end, by what a unit needs and gives there: from the front also where both are the same. A sum
    // takes less time than a test of the end.
    fn belongs(&self, need: u64, give: u64) -> bool
        requires { give < 2 ^ 32 }
        ensures { result ≡ placed_from self.now.front need give }
    {
        need < give + u64::from(self.front)
    }

    // Whether item j may be placed next and is to be taken rather than the best so far.
    fn takes(&self, todo: &[bool; 8], best: Option<usize>, j: usize) -> bool
        requires { (j < 8) × IfSome best (λ i. i < length self.now.units.now) }
        ensures { result ≡ takes_over (left_of (end_at self.now) todo.now) (item_or (length self.now.units.now) best) j }
    {
        if !todo[j] {
            return false;
        }
        let need = amount(self.needs, j);
        let give = amount(self.gives, j);
        if !self.belongs(need, give) || self.added < self.taken + need {
            return false;
        }
        match best {
            None => true,
            Some(i) => amount(self.gives, i) + need < give + amount(self.needs, i),
        }
    }

    // The item to be placed next: the first of those that give most, less what they need.
    fn best(&self, todo: &[bool; 8]) -> Option<usize>
        ensures item { IfSome result (λ j. j < length self.now.units.now) }
        ensures best { item_or (length self.now.units.now) result ≡ best (left_of (end_at self.now) todo.now) [] (length self.now.units.now) }
    {
        let mut best = None;
        for j in 0..self.units.len() {
            if self.takes(todo, best, j) {
                best = Some(j);
            }
        }
        best
    }

    // This end after all units of item j are placed there.
    fn after(&self, j: usize) -> OrderEnd<'a>
        requires { (self.now.added < 2 ^ 59) × (self.now.taken < 2 ^ 59) }
        ensures end { end_at result ≡ with_slack (end_at self.now) result.added result.taken }
        ensures added { (result.added ≡ self.now.added + at self.now.units.now j * at self.now.gives.now j) × (result.added < self.now.added + 2 ^ 48) }
        ensures taken { (result.taken ≡ self.now.taken + at self.now.units.now j * at self.now.needs.now j) × (result.taken < self.now.taken + 2 ^ 48) }
    {
        OrderEnd {
            front: self.front,
            units: self.units,
            needs: self.needs,
            gives: self.gives,
            added: self.added + block(self.units, self.gives, j),
            taken: self.taken + block(self.units, self.needs, j),
        }
    }

    // Places the items of this end, each time the best one, until none may be next. Written into each caller, it knows the end and the
    // lengths there, and takes less time.
    #[inline]
    fn place(&self) -> Items
        requires { (self.now.added < 2 ^ 52) × (self.now.taken < 2 ^ 52) }
        ensures { Holds (placed (end_at self.now) (length self.now.units.now)) result.items result.count }
    {
        let mut end = *self;
        let mut todo = [true; 8];
        let mut items = [0u8; 8];
        for count in 0..self.units.len() {
            let Some(j) = end.best(&todo) else {
                return Items { items, count };
            };
            todo[j] = false;
            items[count] = j as u8 + 1;
            end = end.after(j);
        }
        Items {
            items,
            count: self.units.len(),
        }
    }
}

// The items from the front, then those from the back, of which the first stands last.
fn join(front: Items, back: Items) -> [u8; 8]
    requires { front.count + back.count ≤ 8 }
    ensures { (f b : List ℕ) → Holds f front.items front.count → Holds b back.items back.count → result ≡ numbered (f ++ reverse b) }
{
    let mut items = front.items;
    for k in 0..back.count {
        items[front.count + k] = back.items[back.count - 1 - k];
    }
    items
}

// The order in which the items are planned, each with all its units together, as order bytes: item numbers from 1, then zeros. Items whose
// unit cost is at least the unit value are placed from the front, the others from the back, each time the best of those that the slack
// allows. None where no order is found, and for more than eight items. The price has no part in it.
pub fn choose(
    supplier: u32,
    buyer: u32,
    units: &[u16],
    costs: &[u32],
    values: &[u32],
) -> Option<[u8; 8]>
    ensures { (price : ℕ) → Chooses (record { price = price; supplier = supplier; buyer = buyer }) units.now costs.now values.now result }
{
    if 8 < units.len() {
        return None;
    }
    // The slack at the end. At the start it is more by the total value and less by the total cost.
    let slack = u64::from(supplier) + u64::from(buyer);
    let first = OrderEnd {
        front: true,
        units,
        needs: values,
        gives: costs,
        added: total(units, values) + slack,
        taken: total(units, costs),
    };
    let last = OrderEnd {
        front: false,
        units,
        needs: costs,
        gives: values,
        added: slack,
        taken: 0,
    };
    let front = first.place();
    let back = last.place();
    if front.count + back.count == units.len() {
        Some(join(front, back))
    } else {
        None
    }
}
