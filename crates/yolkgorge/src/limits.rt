// Bounds in a byte area, each with a sign in eight bytes.
ghost use Rattle.std.specs.Prelude.{◌≡◌, ◌≤◌, length};
ghost use Rattle.planning.specs.Answer.{bounded_of};
ghost use Rattle.yolkgorge.specs.Limits.{bits_of, two_in, LeavesBounds};

use crate::numbers::Numbered;
use area::Entry;
use exchange::Bounds;
use planning::BoundsError;

// Stores the bounds of a place, in two's complement.
fn store(pair: &mut [u8], b: Bounds)
    requires { 16 ≤ length pair.old }
    ensures { pair.new ≡ two_in pair.old (bits_of b.lower) (bits_of b.upper) }
{
    b.lower.cast_unsigned().save(pair, 0);
    b.upper.cast_unsigned().save(pair, 8);
}

// Answers 0 and stores the bounds, or answers the number of the refusal.
pub(crate) fn keep(pair: &mut [u8], answer: Result<Bounds, BoundsError>) -> u32
    requires { 16 ≤ length pair.old }
    ensures { LeavesBounds (bounded_of answer) result pair.old pair.new }
{
    match answer {
        Ok(b) => {
            store(pair, b);
            0
        }
        Err(e) => e.number(),
    }
}
