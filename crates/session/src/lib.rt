// A session: how far a plan is carried out. Each report takes the session and hands back the next.
#![tactic(auto)]

ghost use Rattle.std.specs.Prelude.{◌≡◌, ◌-◌, ◌≤◌, ◌<◌, length, get_or, Err};
ghost use Rattle.exchange.specs.PlanIn.{plan_in};
ghost use Rattle.planning.specs.Check.{holds_count, ahead_of_check};
ghost use Rattle.session.specs.Code.{Open, StandsAt, entries_of, step_at, steps_of};
ghost use Rattle.session.specs.Opening.{answer_by, session_of, Opens};
ghost use Rattle.session.specs.Session.{awaited, done, finished_by, fits, at_step, mark, marked, moves, report_in, Reports, settle};

use planning::CheckError;

// The number of steps passed, and the marks of the open step: what of it is delivered and what is paid.
#[derive(Clone, Copy)]
pub struct Session {
    pub passed: usize,
    pub delivered: bool,
    pub paid: bool,
}

// The side of a step that a report names.
#[derive(Clone, Copy)]
pub enum Side {
    Delivery,
    Payment,
}

// A plan that is brought: how many steps it has, and their places and sums in two byte areas.
#[derive(Clone, Copy)]
pub struct Plan<'a> {
    pub count: usize,
    pub places: &'a [u8],
    pub sums: &'a [u8],
}

// The entries of a step, or what they would be at the start.
#[derive(Clone, Copy, PartialEq, Eq)]
struct Step {
    place: u32,
    sum: u32,
}

// Why a report is refused.
#[derive(Clone, Copy)]
pub enum ReportError {
    // An area has fewer entries than the count says.
    Short,
    Finished,
    // The report doesn't fit the open step.
    Unfit,
}

// A reply, and the session after the report. Stays as it is, by a rule of the project: each report takes the session and hands back the next.
#[derive(Clone, Copy)]
pub struct Reported {
    pub reply: Result<(), ReportError>,
    pub session: Session,
}

impl Plan<'_> {
    // Whether both areas have as many entries as the count says.
    pub fn holds(&self) -> bool
        ensures { result ≡ holds_count self.now.count self.now.places.now self.now.sums.now }
    {
        let in_places = area::count::<u16>(self.places);
        let in_sums = area::count::<u32>(self.sums);
        self.count <= in_places.min(in_sums)
    }

    // The entry of a side in the step after k steps.
    fn entry(&self, k: usize, side: Side) -> u32
        requires { k < length (entries_of side self.now) }
        ensures { result ≡ get_or (entries_of side self.now) k 0 }
    {
        match side {
            Side::Delivery => u32::from(area::known::<u16>(self.places, k)),
            Side::Payment => area::known(self.sums, k),
        }
    }

    // Whether a side moves in the step after k steps: its entry differs from the one before, which is 0 at the start.
    fn moves(&self, k: usize, side: Side) -> bool
        requires { Open self.now k }
        ensures { result ≡ moves (steps_of self.now) k side }
    {
        let entry = self.entry(k, side);
        if k == 0 {
            return entry != 0;
        }
        entry != self.entry(k - 1, side)
    }

    // The entries of the step after k steps.
    fn step(&self, k: usize) -> Step
        requires { Open self.now k }
        ensures { result ≡ step_at self.now k }
    {
        Step {
            place: self.entry(k, Side::Delivery),
            sum: self.entry(k, Side::Payment),
        }
    }

    // Passes over the steps from k on that stay where the plan stands.
    fn pass_over(&self, k: usize, here: Step) -> Session
        requires within { k ≤ self.now.count }
        requires here { StandsAt self.now k here }
        ensures { result ≡ settle (steps_of self.now) (self.now.count - k) (at_step k) }
    {
        for i in k..self.count {
            if self.step(i) != here {
                return at_step(i);
            }
        }
        at_step(self.count)
    }
}

// The session with these steps passed and no marks.
fn at_step(passed: usize) -> Session
    ensures { result ≡ at_step passed }
{
    Session {
        passed,
        delivered: false,
        paid: false,
    }
}

impl Session {
    // Whether every step of a plan with this count is passed.
    pub fn finished(self, count: usize) -> bool
        ensures { result ≡ finished_by count self }
    {
        count <= self.passed
    }

    // Reports a place delivered or a total paid, by a plan. On a refusal the session is the same.
    pub fn report(mut self, plan: &Plan<'_>, side: Side, number: u32) -> Reported
        ensures { Reports (report_in plan.now.count plan.now.places.now plan.now.sums.now self side number) self result }
    {
        if !plan.holds() {
            return self.refused(ReportError::Short);
        }
        if self.finished(plan.count) {
            return self.refused(ReportError::Finished);
        }
        // Each side has a call, and so code, of its own: no test of the side is left in it.
        match side {
            Side::Delivery => self.take(plan, Side::Delivery, number),
            Side::Payment => self.take(plan, Side::Payment, number),
        }
    }

    // Reports on the open step.
    #[inline(always)]
    fn take(mut self, plan: &Plan<'_>, side: Side, number: u32) -> Reported
        requires { Open plan.now self.passed }
        ensures { Reports (report_in plan.now.count plan.now.places.now plan.now.sums.now self side number) self result }
    {
        if !self.fits(plan, side, number) {
            return self.refused(ReportError::Unfit);
        }
        self = self.mark(side);
        if self.done(plan) {
            self = plan.pass_over(self.passed + 1, plan.step(self.passed));
        }
        Reported {
            reply: Ok(()),
            session: self,
        }
    }

    // A refusal, and the same session.
    fn refused(self, error: ReportError) -> Reported
        ensures { result ≡ record { reply = Err error; session = self } }
    {
        Reported {
            reply: Err(error),
            session: self,
        }
    }

    // Whether a report is one of the open step: it names the entry of its side, which is still to be reported.
    #[tactic(auto, unfolding(crate::specs::Session::fits))]
    fn fits(self, plan: &Plan<'_>, side: Side, number: u32) -> bool
        requires { Open plan.now self.passed }
        ensures { result ≡ fits (steps_of plan.now) self side number }
    {
        plan.entry(self.passed, side) == number && self.awaits(plan, side)
    }

    // Whether a side of the open step is still to be reported: it isn't marked, and it moves.
    #[tactic(auto, unfolding(crate::specs::Session::awaited))]
    fn awaits(self, plan: &Plan<'_>, side: Side) -> bool
        requires { Open plan.now self.passed }
        ensures { result ≡ awaited (steps_of plan.now) self side }
    {
        !self.marked(side) && plan.moves(self.passed, side)
    }

    // Whether the moves of the open step are all reported.
    #[tactic(auto, unfolding(crate::specs::Session::done))]
    fn done(self, plan: &Plan<'_>) -> bool
        requires { Open plan.now self.passed }
        ensures { result ≡ done (steps_of plan.now) self }
    {
        !self.awaits(plan, Side::Delivery) && !self.awaits(plan, Side::Payment)
    }

    fn marked(self, side: Side) -> bool
        ensures { result ≡ marked self side }
    {
        match side {
            Side::Delivery => self.delivered,
            Side::Payment => self.paid,
        }
    }

    fn mark(mut self, side: Side) -> Session
        ensures { result ≡ mark self side }
    {
        match side {
            Side::Delivery => self.delivered = true,
            Side::Payment => self.paid = true,
        }
        self
    }
}

// Opens a session on a plan that is brought.
pub fn open(bytes: &[u8], plan: &Plan<'_>, order: &[u8]) -> Result<Session, CheckError>
    ensures { Opens (ahead_of_check bytes.now plan.now.count plan.now.places.now plan.now.sums.now order.now) order.now (plan_in plan.now.count plan.now.places.now plan.now.sums.now) (answer_by result) (session_of result) }
{
    planner::check(bytes, plan.count, plan.places, plan.sums, order)?;
    Ok(plan.pass_over(0, Step { place: 0, sum: 0 }))
}
