// A session in a byte area: the steps passed in eight bytes, then one byte for each mark. The area stays a slice with its length asked for: the
// promises to C are about all of what C lends, whatever its length.
ghost use Rattle.std.specs.Prelude.{◌≡◌, ◌≤◌, length};
ghost use Rattle.contract.specs.Res.{refused};
ghost use Rattle.yolkgorge.specs.Number.{numbered, report_number};
ghost use Rattle.yolkgorge.specs.SessionBytes.{session_in, stored_in};
ghost use Rattle.yolkgorge.specs.Sessions.{Leaves, report_by, report_nowhere};

use crate::numbers::{Numbered, side_of};
use area::Entry;
use session::{Plan, ReportError, Session};

// The session in an area. Between `usize` and `u64` there is no `From`.
pub(crate) fn take(state: &[u8]) -> Session
    requires { 10 ≤ length state.now }
    ensures { result ≡ session_in state.now }
{
    Session {
        passed: u64::load(state, 0) as usize,
        delivered: state[8] != 0,
        paid: state[9] != 0,
    }
}

// Stores a session.
fn store(state: &mut [u8], session: Session)
    requires { 10 ≤ length state.old }
    ensures { state.new ≡ stored_in state.old session }
{
    (session.passed as u64).save(state, 0);
    state[8] = u8::from(session.delivered);
    state[9] = u8::from(session.paid);
}

// Answers 0 and stores the session, or answers the number of the refusal. It stays beside `limits::keep`: what each leaves is a promise to C of
// its own, and one function would need a trait over the two for five lines.
pub(crate) fn keep<E: Numbered>(state: &mut [u8], answer: Result<Session, E>) -> u32
    requires { 10 ≤ length state.old }
    ensures { Leaves (numbered E.number answer) result state.old state.new }
{
    match answer {
        Ok(session) => {
            store(state, session);
            0
        }
        Err(e) => e.number(),
    }
}

// The session after a report, by the number of its side, on the one in an area.
pub(crate) fn report(
    state: &[u8],
    plan: &Plan<'_>,
    side: u32,
    number: u32,
) -> Result<Session, ReportError>
    requires { 10 ≤ length state.now }
    ensures { numbered report_number result ≡ report_by plan.now.count plan.now.places.now plan.now.sums.now (session_in state.now) side number }
{
    let Some(side) = side_of(side) else {
        return Err(nowhere(state, plan));
    };
    let reported = take(state).report(plan, side, number);
    reported.reply?;
    Ok(reported.session)
}

// Why a report that names no side is refused: as one on any side is, but for fitting.
fn nowhere(state: &[u8], plan: &Plan<'_>) -> ReportError
    requires { 10 ≤ length state.now }
    ensures { refused (report_number result) ≡ report_nowhere plan.now.count plan.now.places.now plan.now.sums.now (session_in state.now) }
{
    if !plan.holds() {
        return ReportError::Short;
    }
    if take(state).finished(plan.count) {
        return ReportError::Finished;
    }
    ReportError::Unfit
}
