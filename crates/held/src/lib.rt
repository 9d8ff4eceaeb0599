// The rows that a row holds: compared, and gone through from the row down.
#![tactic(auto)]

mod down;
mod words;

pub use down::next_down;
pub use words::word_holds;
