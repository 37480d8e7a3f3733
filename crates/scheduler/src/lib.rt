// The scheduler by value: the check that hands out a state, and the calls. Each promises what the rule-book gives.
#![tactic(auto)]

ghost use Rattle.std.specs.Prelude.{◌≡◌, ◌≤◌, cond, eqb};
ghost use Rattle.rules.specs.declared.Call.TheVariants.{Wait, Activate, Terminate, Chain};
ghost use Rattle.jobs.specs.Listed.{Shaped, Sorted, view};
ghost use Rattle.rules.specs.Answers.{call_number, result_number};
ghost use Rattle.rules.specs.Table.{greatest};
ghost use Rattle.scheduler.specs.Steps.{fresh_of, choice_in, asked_by, in_time, some_job, known, below_limit, some_place, in_reach, activate_refusal, terminate_refusal, chain_refusal, job_as, entry_call, settle_of, reason_of, late_of, reported_at, ended_by, refused_of, left_as};
ghost use Rattle.scheduler.specs.State.{Handed, CheckGives, CallGives, CallLeaves, why_of};
ghost use Rattle.scheduler.specs.Claims.{Claims};

use jobs::JobList;
use monitor::{Ended, Monitor};
use rules::{
    Answer, Call, CallRefusal, Job, KernelCall, Late, Line, PLACES, Phase, Reason, Running, Span,
    Tick, Verdict,
};
use table::TaskTable;

// The scheduler state of a recorder head. That it was handed out is no invariant of the type: what the check gives after a refusal is a state that was not (HandedExactly).
#[derive(Clone, Copy)]
pub struct State {
    pub table: TaskTable,
    pub last: Tick,
    pub list: JobList,
    pub monitor: Monitor,
}

// What the check gives: a fresh state (an empty one of no lines after a refusal), and its answer. No Result: the state after a refusal is promised, too (CheckGives), and C is given both.
#[derive(Clone, Copy)]
pub struct Checked {
    pub state: State,
    pub verdict: Verdict,
}

// What a call gives: the next state, and its answer.
#[derive(Clone, Copy)]
pub struct Stepped {
    pub state: State,
    pub answer: Answer,
}

// An activation that is asked for: its tick, its task, the limit of its line, and when it would be due.
#[derive(Clone, Copy)]
struct Activation {
    at: Tick,
    task: u8,
    limit: u8,
    due: Tick,
}

// ---- the check

// The check of a task table: a fresh state is handed out if it gives 0.
pub fn check(given: TaskTable) -> Checked
    ensures { CheckGives given result }
{
    let verdict = table::check(given);
    if verdict.number != 0 {
        return Checked {
            state: fresh(table::empty()),
            verdict,
        };
    }
    Checked {
        state: fresh(table::kept(given)),
        verdict,
    }
}

// No job; tick, counts and greatest responses 0.
fn fresh(table: TaskTable) -> State
    ensures { result ≡ fresh_of table }
{
    State {
        table,
        last: Tick(0),
        list: JobList::empty(),
        monitor: Monitor::none(),
    }
}

// ---- the calls: by value. Those that change the list go over the same calls on a state where it stands, and give that at one place: with one for a refused call and one for an accepted one it would be copied once more.

// Tick: time moves; no kernel call. (One way for both: where time doesn't move no job is newly late. So the table and the list are handed on as they are.)
pub fn tick(s: State, at: Tick) -> Stepped
    requires { Handed s }
    ensures { CallGives s (Wait at) result }
{
    let refusal = number_of(in_time(s.last, at));
    let now = moved(refusal, s.last, at);
    let late = s.list.newly_late(s.last, now);
    let mut monitor = s.monitor;
    monitor.count_late(late);
    let answer = Answer {
        result: refusal,
        running: s.running(),
        call: KernelCall::NoCall,
        late,
    };
    Stepped {
        state: State {
            table: s.table,
            last: now,
            list: s.list,
            monitor,
        },
        answer,
    }
}

// Activate: a new job of the task goes into the list, and is released if it is first.
pub fn activate(mut s: State, at: Tick, task: u8) -> Stepped
    requires { Handed s }
    ensures { CallGives s (Activate at task) result }
{
    let answer = s.activate(at, task);
    Stepped { state: s, answer }
}

// Terminate: the running job leaves the list.
pub fn terminate(mut s: State, at: Tick) -> Stepped
    requires { Handed s }
    ensures { CallGives s (Terminate at) result }
{
    let answer = s.terminate(at);
    Stepped { state: s, answer }
}

// Chain: the running job leaves, and the named task's job is inserted at the same tick.
pub fn chain(mut s: State, at: Tick, task: u8) -> Stepped
    requires { Handed s }
    ensures { CallGives s (Chain at task) result }
{
    let answer = s.chain(at, task);
    Stepped { state: s, answer }
}

// Any of the four.
pub fn call(s: State, call: Call) -> Stepped
    requires { Handed s }
    ensures { CallGives s call result }
{
    match call {
        Call::Wait(at) => tick(s, at),
        Call::Activate(at, task) => activate(s, at, task),
        Call::Terminate(at) => terminate(s, at),
        Call::Chain(at, task) => chain(s, at, task),
    }
}

// ---- the question

// Why a task's first pending job does or does not run. The state is left as it is.
pub fn why(s: State, task: u8) -> Result<Reason, CallRefusal>
    requires { Handed s }
    ensures { result ≡ why_of s task }
{
    known(s.table.count, task)?;
    let list = s.list;
    let asked = list.first_of(task);
    let runs = list.front();
    Ok(reason(task, asked, runs))
}

// The reasons in their order, by the first job of the task and the one that runs.
fn reason(task: u8, asked: Option<Job>, runs: Option<Job>) -> Reason
    ensures { result ≡ reason_of task asked runs }
{
    let (Some(job), Some(first)) = (asked, runs) else {
        return Reason::NonePending;
    };
    if task == first.task {
        return Reason::ItRuns;
    }
    if jobs::is_earlier(first, job) {
        return Reason::Earlier(first.task, first.due);
    }
    Reason::ThereFirst(first.task, first.due)
}

// ---- the refusals, in the order of the rows

// Row 8.
fn in_time(last: Tick, at: Tick) -> Result<(), CallRefusal>
    ensures { result ≡ in_time last at }
{
    if ticks::bad_tick(last, at) {
        return Err(CallRefusal::BadTick);
    }
    Ok(())
}

// Row 2.
fn some_job(pending: usize) -> Result<(), CallRefusal>
    ensures { result ≡ some_job pending }
{
    if pending == 0 {
        return Err(CallRefusal::NoJob);
    }
    Ok(())
}

// Row 3.
fn known(lines: usize, task: u8) -> Result<(), CallRefusal>
    ensures { result ≡ known lines task }
{
    if lines <= task as usize {
        return Err(CallRefusal::NoTask);
    }
    Ok(())
}

// Row 4.
fn below_limit(limit: u8, pending: usize) -> Result<(), CallRefusal>
    ensures { result ≡ below_limit limit pending }
{
    if limit as usize <= pending {
        return Err(CallRefusal::LimitReached);
    }
    Ok(())
}

// Row 10.
fn some_place(pending: usize) -> Result<(), CallRefusal>
    ensures { result ≡ some_place pending }
{
    if PLACES <= pending {
        return Err(CallRefusal::NoPlace);
    }
    Ok(())
}

// Row 9.
fn in_reach(due: Tick) -> Result<(), CallRefusal>
    ensures { result ≡ in_reach due }
{
    if ticks::is_beyond(due) {
        return Err(CallRefusal::DueBeyond);
    }
    Ok(())
}

// Rows 8, 3, 4, 10 and 9.
fn activate_refusal(s: &State, new: Activation) -> Result<(), CallRefusal>
    requires { Shaped s.now.list }
    ensures { result ≡ activate_refusal s.now.last s.now.table.count s.now.list new }
{
    in_time(s.last, new.at)?;
    known(s.table.count, new.task)?;
    below_limit(new.limit, s.list.pending_from(0, new.task))?;
    some_place(s.list.count)?;
    in_reach(new.due)
}

// Rows 8 and 2.
fn terminate_refusal(s: &State, at: Tick) -> Result<(), CallRefusal>
    ensures { result ≡ terminate_refusal s.now.last s.now.list.count at }
{
    in_time(s.last, at)?;
    some_job(s.list.count)
}

// Rows 8, 2, 3, 4 and 9. The ending job, the first, isn't counted.
fn chain_refusal(s: &State, new: Activation) -> Result<(), CallRefusal>
    requires { Shaped s.now.list }
    ensures { result ≡ chain_refusal s.now.last s.now.table.count s.now.list new }
{
    in_time(s.last, new.at)?;
    some_job(s.list.count)?;
    known(s.table.count, new.task)?;
    below_limit(new.limit, s.list.pending_from(1, new.task))?;
    in_reach(new.due)
}

// ---- the calls on a state where it stands: a refused one is answered at once

impl State {
    fn activate(&mut self, at: Tick, task: u8) -> Answer
        requires { Handed self.old }
        ensures { CallLeaves self.old (Activate at task) result self.new }
    {
        let line = table::line_of(self.table, task);
        let new = asked(line, at, task);
        if let Err(refusal) = activate_refusal(self, new) {
            return self.refused(refusal);
        }
        let late = self.report(at);
        let first = self.list.is_first(new.job(Phase::Delayed));
        self.list.insert(new.job(Phase::from(first)));
        self.accepted(entry_call(first, task), late)
    }

    fn terminate(&mut self, at: Tick) -> Answer
        requires { Handed self.old }
        ensures { CallLeaves self.old (Terminate at) result self.new }
    {
        if let Err(refusal) = terminate_refusal(self, at) {
            return self.refused(refusal);
        }
        let line = table::line_of(self.table, self.list.first().task);
        let late = self.report_end(at, line.deadline);
        let lead = self.list.remove_first();
        self.accepted(settle_call(lead), late)
    }

    // The line of the new job's task and that of the one that ends are looked up at once.
    fn chain(&mut self, at: Tick, task: u8) -> Answer
        requires { Handed self.old }
        ensures { CallLeaves self.old (Chain at task) result self.new }
    {
        let lines = table::lines_of(self.table, task, self.list.first().task);
        let new = asked(lines.one, at, task);
        if let Err(refusal) = chain_refusal(self, new) {
            return self.refused(refusal);
        }
        let late = self.report_end(at, lines.other.deadline);
        let lead = self.list.replace_first(new.job(Phase::Delayed));
        self.accepted(settle_call(lead), late)
    }

    // ---- the parts of a call

    // Time moves to the tick of an accepted call: the newly late jobs are counted, and given.
    fn report(&mut self, at: Tick) -> Late
        requires { Shaped self.old.list × Sorted (view self.old.list) }
        ensures { (self.new ≡ reported_at at self.old) × (result ≡ late_of self.old at) }
    {
        let late = self.list.newly_late(self.last, at);
        self.monitor.count_late(late);
        self.last = at;
        late
    }

    // The same where the first job ends, of which the relative deadline is given: behind the late jobs it is counted, too, with its response.
    fn report_end(&mut self, at: Tick, deadline: Span) -> Late
        requires { Shaped self.old.list × Sorted (view self.old.list) × (deadline.0 ≤ 1000000000) × (at.0 ≤ greatest.0) }
        ensures { (self.new ≡ ended_by deadline at self.old) × (result ≡ late_of self.old at) }
    {
        let job = self.list.first();
        let late = self.report(at);
        self.monitor.count_ended(Ended {
            task: job.task,
            response: ticks::response(at, job.due, deadline),
        });
        late
    }

    // What runs: the job that leads. It is the one that the kernel runs (rules, proofs/First).
    fn running(&self) -> Option<Running>
        ensures { result ≡ choice_in (view self.now.list) }
    {
        self.list.front().map(|first| Running {
            task: first.task,
            due: first.due,
        })
    }

    // What a refused call answers: no kernel call, no late job.
    fn refused(&self, refusal: CallRefusal) -> Answer
        ensures { result ≡ (refused_of self.now (call_number refusal)).answer }
    {
        Answer {
            result: u8::from(refusal),
            running: self.running(),
            call: KernelCall::NoCall,
            late: jobs::none_late(),
        }
    }

    // What an accepted call answers, which leaves this state.
    fn accepted(&self, call: KernelCall, late: Late) -> Answer
        ensures { result ≡ (left_as self.now call late).answer }
    {
        Answer {
            result: 0,
            running: self.running(),
            call,
            late,
        }
    }
}

// The number of a refusal; 0 where there is none.
fn number_of(told: Result<(), CallRefusal>) -> u8
    ensures { result ≡ result_number told }
{
    match told {
        Ok(()) => 0,
        Err(refusal) => u8::from(refusal),
    }
}

// The last accepted call's tick, after this call.
fn moved(refusal: u8, last: Tick, at: Tick) -> Tick
    ensures { result ≡ cond (eqb refusal 0) at last }
{
    if refusal == 0 {
        return at;
    }
    last
}

// The job that an activation at this tick would make, and the limit that it has to keep.
fn asked(line: Line, at: Tick, task: u8) -> Activation
    ensures { result ≡ asked_by line at task }
{
    Activation {
        at,
        task,
        limit: line.limit,
        due: ticks::plus(at, line.deadline),
    }
}

impl Activation {
    // The new job.
    fn job(self, phase: Phase) -> Job
        ensures { result ≡ job_as self.task self.due phase }
    {
        Job {
            due: self.due,
            task: self.task,
            phase,
        }
    }
}

// The kernel call of an activation: ActivateTask if the new job is first, otherwise none.
fn entry_call(first: bool, task: u8) -> KernelCall
    ensures { result ≡ entry_call first task }
{
    if first {
        return KernelCall::ActivateTask(task);
    }
    KernelCall::NoCall
}

// The kernel call once the running job has left: ChainTask if the job that leads is delayed; otherwise TerminateTask.
fn settle_call(lead: Option<Job>) -> KernelCall
    ensures { result ≡ settle_of lead }
{
    let Some(job) = lead else {
        return KernelCall::TerminateTask;
    };
    match job.phase {
        Phase::Delayed => KernelCall::ChainTask(job.task),
        Phase::Released => KernelCall::TerminateTask,
    }
}

// Does nothing. Its contract is all of specs/Claims, so that a claim without a proof fails the check.
pub fn scheduler_holds()
    ensures { Claims }
{}
