// A contract as plain data, and the refusals of its record.
#![tactic(auto)]

ghost use Rattle.std.specs.Prelude.{◌≡◌, ◌<◌};
ghost use Rattle.contract.specs.Contract.{number_of};

// The three forms of a contract.
#[derive(Clone, Copy)]
pub enum Form {
    Ladder,
    UnitPrices,
    Table,
}

// A contract but for its costs and values, which stand in areas of their own.
#[derive(Clone, Copy)]
pub struct Header {
    pub price: u32,
    // The supplier's and the buyer's defection costs.
    pub supplier: u32,
    pub buyer: u32,
    pub form: Form,
    // The units of a ladder, else the items.
    pub count: u16,
    // The units of each item.
    pub units: [u16; 8],
}

// Why a record or a contract is refused. The numbers are those that the interfaces hand out.
#[derive(Clone, Copy)]
pub enum Refusal {
    Truncated = 1,
    Map = 2,
    Value = 3,
    Limit = 4,
    Range = 5,
    Falling = 6,
    Trailing = 7,
    Short = 8,
}

// The number of a refusal.
impl From<Refusal> for u32 {
    ghost from_gives = { λ e r. (r ≡ number_of e) × (r < 9) };

    fn from(e: Refusal) -> u32 {
        e as u32
    }
}
