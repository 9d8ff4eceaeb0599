// Answers and sides as plain numbers.
ghost use Rattle.std.specs.Prelude.{◌≡◌, ℕ};
ghost use Rattle.planning.specs.Answer.{answer_of};
ghost use Rattle.yolkgorge.specs.Number.{number_for, numbered, code_of, or_short, side_of, CountFits, plan_number, bounds_number, check_number, report_number};

use planning::{BoundsError, CheckError, PlanError};
use session::{ReportError, Side};

// The refusals that are not of a record, by the numbers of yolkgorge.h.
pub(crate) const SHORT: u32 = 8;

const IMPOSSIBLE: u32 = 9;

const UNFIT: u32 = 10;

const FINISHED: u32 = 11;

const UNSAFE: u32 = 12;

// Errors that have a number in C.
pub(crate) trait Numbered: Copy {
    ghost number: { Self → ℕ };

    fn number(self) -> u32
        ensures { result ≡ number self };
}

impl Numbered for PlanError {
    ghost number = { plan_number };

    fn number(self) -> u32 {
        match self {
            PlanError::Refused(e) => u32::from(e),
            PlanError::Impossible => IMPOSSIBLE,
        }
    }
}

impl Numbered for BoundsError {
    ghost number = { bounds_number };

    fn number(self) -> u32 {
        match self {
            BoundsError::Refused(e) => u32::from(e),
            BoundsError::WrongOrder => UNSAFE,
        }
    }
}

impl Numbered for CheckError {
    ghost number = { check_number };

    fn number(self) -> u32 {
        match self {
            CheckError::Refused(e) => u32::from(e),
            CheckError::Unsafe => UNSAFE,
        }
    }
}

impl Numbered for ReportError {
    ghost number = { report_number };

    fn number(self) -> u32 {
        match self {
            ReportError::Short => SHORT,
            ReportError::Finished => FINISHED,
            ReportError::Unfit => UNFIT,
        }
    }
}

// The step count of a plan, or minus the number of the refusal.
pub(crate) fn steps_or_refusal(answer: Result<usize, PlanError>) -> i64
    requires { CountFits (answer_of answer) }
    ensures { result ≡ number_for (answer_of answer) }
{
    match answer {
        Ok(steps) => steps as i64,
        Err(e) => -i64::from(e.number()),
    }
}

// 0 for success, else the number of the refusal.
pub(crate) fn code<T: Copy, E: Numbered>(answer: Result<T, E>) -> u32
    ensures { result ≡ code_of (numbered E.number answer) }
{
    match answer {
        Ok(_) => 0,
        Err(e) => e.number(),
    }
}

// The number of an answer where an area of the caller's is too short.
pub(crate) fn short_code<T: Copy, E: Numbered>(answer: Result<T, E>) -> u32
    ensures { result ≡ code_of (or_short (numbered E.number answer)) }
{
    match answer {
        Ok(_) => SHORT,
        Err(e) => e.number().min(SHORT),
    }
}

// The side that a number names: 0 is delivery, 1 is payment. The test of all others stands first: as a match it makes each report slower.
pub(crate) fn side_of(number: u32) -> Option<Side>
    ensures { result ≡ side_of number }
{
    if number > 1 {
        return None;
    }
    if number == 0 {
        return Some(Side::Delivery);
    }
    Some(Side::Payment)
}
