// First steps: none, one that only delivers, one that only pays, and the one to take.
ghost use Rattle.std.specs.Prelude.{◌≡◌};
ghost use Rattle.exchange.specs.Possible.{Possible};
ghost use Rattle.exchange.specs.Objectives.{delivery_only};
ghost use Rattle.line.specs.Course.{deal_of, Leads, Chosen};
ghost use Rattle.line.specs.Code.{Counts, state_of};
ghost use Rattle.line.specs.OpeningCode.{after_payment};

use super::run::measure;
use super::{Cursor, First, Line, first_count, pay};
use exchange::Objective;

// A delivery only: as far as the rule delivers.
fn delivery_only<L: Line>(line: &L) -> First
    requires { Possible (deal_of (L.course line.now)) }
    ensures { Leads (L.course line.now) (delivery_only (deal_of (L.course line.now))) result }
{
    let cursor = line.deliver(Cursor::START, 0);
    First { cursor, paid: 0 }
}

// A payment only: as much as the rule pays.
fn payment_only<L: Line>(line: &L) -> First
    requires { Possible (deal_of (L.course line.now)) }
    ensures { result ≡ after_payment (L.course line.now).sides (L.course line.now).all }
{
    let cursor = Cursor::START;
    let paid = pay(line.sides(), line.totals(), cursor.cost);
    First { cursor, paid }
}

// How many steps a plan has that begins so.
fn steps<L: Line>(line: &L, f: First) -> usize
    requires { Possible (deal_of (L.course line.now)) × Leads (L.course line.now) (state_of f) f }
    ensures { Counts (deal_of (L.course line.now)) (state_of f) result }
{
    let at = first_count(f.cursor.place, f.paid);
    let n = measure(line, f);
    at + n
}

// The one of both with fewer moves, the payment on a tie. Each step of theirs is one move.
fn fewer<L: Line>(line: &L) -> First
    requires { Possible (deal_of (L.course line.now)) }
    ensures { Chosen Objective.Moves (L.course line.now) result }
{
    let one = payment_only(line);
    let other = delivery_only(line);
    let m = steps(line, one);
    let n = steps(line, other);
    if m <= n {
        return one;
    }
    other
}

// The first step for an aim.
pub(crate) fn first_for<L: Line>(line: &L, aim: Objective) -> First
    requires { Possible (deal_of (L.course line.now)) }
    ensures { Chosen aim (L.course line.now) result }
{
    match aim {
        Objective::Steps => First::NONE,
        Objective::Payments => delivery_only(line),
        Objective::Deliveries => payment_only(line),
        Objective::Moves => fewer(line),
    }
}
