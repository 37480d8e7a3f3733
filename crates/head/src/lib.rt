// The scheduler of one recorder head, for C: the same calls as the board's, over structs without enums.
#![tactic(auto)]

ghost use Rattle.std.specs.Prelude.{◌≡◌, map, ◌≤◌, drop, replicate};
ghost use Rattle.rules.specs.Words.{places};
ghost use Rattle.rules.specs.declared.Call.TheVariants.{Wait, Activate, Terminate, Chain};
ghost use Rattle.jobs.specs.Listed.{blank_job};
ghost use Rattle.head.specs.Placed.{placed_job, job_in, placed, state_in, HeadHanded, task_in, due_in, number_of, called_of};
ghost use Rattle.scheduler.specs.State.{Handed};
ghost use Rattle.head.specs.Calls.{checked_table, HeadHandedOut, LinesChecked, stepped_for, head_step, Left, head_why};
ghost use Rattle.head.specs.Claims.{Claims};

use jobs::JobList;
use monitor::Monitor;
use rules::{
    Answer, CallRefusal, Job, KernelCall, Late, Line, Named, PLACES, Phase, Reason, Running, Tick,
    Verdict,
};
use scheduler::{State, Stepped};
use table::TaskTable;

// A pending job.
#[repr(C)]
#[derive(Clone, Copy)]
pub struct HeadJob {
    pub due: Tick,
    pub task: u8,
    pub released: bool,
}

// The lines of the tasks, and how many there are: a struct of its own, since C takes none with a const parameter.
#[repr(C)]
#[derive(Clone, Copy)]
pub struct HeadTable {
    pub lines: [Line; PLACES],
    pub count: usize,
}

// The scheduler state of a recorder head.
#[repr(C)]
#[derive(Clone, Copy)]
pub struct HeadState {
    pub table: HeadTable,
    pub last: Tick,
    pub jobs: [HeadJob; PLACES],
    pub count: usize,
    pub monitor: Monitor,
}

// What a call returns: the result, whether a job runs, its task and deadline (else 0), the kernel call (0 none, 1 ActivateTask, 2 ChainTask, 3 TerminateTask), the task that it names (else 0), and the newly late jobs.
#[repr(C)]
#[derive(Clone, Copy)]
pub struct HeadAnswer {
    pub result: u8,
    pub runs: bool,
    pub task: u8,
    pub due: Tick,
    pub call: u8,
    pub called: u8,
    pub late: Late,
}

// What the check answers: its number, how many lines are named, and these (else 0).
#[repr(C)]
#[derive(Clone, Copy)]
pub struct HeadVerdict {
    pub number: u8,
    pub named: u8,
    pub first: u8,
    pub second: u8,
}

// What the check gives: the state, which counts as handed out where the number is 0, and its answer.
#[repr(C)]
#[derive(Clone, Copy)]
pub struct HeadChecked {
    pub state: HeadState,
    pub verdict: HeadVerdict,
}

// Why a task's first pending job does or does not run: the result, which is 0, or 3 for a task without a line; the reason (0 refused, 1 none is pending, 2 it runs, 3 an earlier deadline is running, 4 the same deadline was there first); and for 3 and 4 task and deadline of the running job (else 0).
#[repr(C)]
#[derive(Clone, Copy)]
pub struct HeadWhy {
    pub result: u8,
    pub reason: u8,
    pub task: u8,
    pub due: Tick,
}

// What a call gives: the next state, and its answer.
#[derive(Clone, Copy)]
struct HeadStepped {
    state: HeadState,
    answer: HeadAnswer,
}

// ---- how a state is kept for C: by functions and not From, since jobs that are taken over already are passed beside the state

// A job as C keeps it.
impl From<Job> for HeadJob {
    ghost use Rattle.std.specs.Prelude.{◌≡◌};
    ghost use Rattle.head.specs.Placed.{placed_job};

    ghost from_gives = { λ job kept. kept ≡ placed_job job };

    fn from(job: Job) -> HeadJob {
        HeadJob {
            due: job.due,
            task: job.task,
            released: job.phase.is_released(),
        }
    }
}

// Jobs as C keeps them: the first n are taken over, and those behind them are there already. (By places: one array is read where the other is written.)
fn placed_jobs(there: [HeadJob; PLACES], jobs: [Job; PLACES], n: usize) -> [HeadJob; PLACES]
    requires { (n ≤ places) × (drop n there ≡ drop n (map placed_job jobs)) }
    ensures { result ≡ map placed_job jobs }
{
    let mut out = there;
    for i in 0..n {
        out[i] = HeadJob::from(jobs[i]);
    }
    out
}

// The jobs that C keeps: the first n are taken over, and those behind them are blank. A flag is read where it stands: so it is known to be 0 or 1, as a phase is.
fn jobs_in(jobs: [HeadJob; PLACES], n: usize) -> [Job; PLACES]
    requires { (n ≤ places) × (drop n (replicate places blank_job) ≡ drop n (map job_in jobs)) }
    ensures { result ≡ map job_in jobs }
{
    let mut out = [Job {
        due: Tick(0),
        task: 0,
        phase: Phase::Delayed,
    }; PLACES];
    for i in 0..n {
        out[i] = Job {
            due: jobs[i].due,
            task: jobs[i].task,
            phase: Phase::from(jobs[i].released),
        };
    }
    out
}

// A state as C keeps it, by its jobs as C keeps them.
fn placed_with(s: State, jobs: [HeadJob; PLACES]) -> HeadState
    requires { jobs ≡ map placed_job s.list.jobs }
    ensures { result ≡ placed s }
{
    let lines = s.table.lines;
    HeadState {
        table: HeadTable {
            lines,
            count: s.table.count,
        },
        last: s.last,
        jobs,
        count: s.list.count,
        monitor: s.monitor,
    }
}

// A state as C keeps it.
fn placed(s: State) -> HeadState
    ensures { result ≡ placed s }
{
    let none = [HeadJob {
        due: Tick(0),
        task: 0,
        released: false,
    }; PLACES];
    placed_with(s, placed_jobs(none, s.list.jobs, PLACES))
}

// The state that C keeps, by its jobs.
fn state_in(p: HeadState, jobs: [Job; PLACES]) -> State
    requires { jobs ≡ map job_in p.jobs }
    ensures { result ≡ state_in p }
{
    let lines = p.table.lines;
    State {
        table: TaskTable {
            lines,
            count: p.table.count,
        },
        last: p.last,
        list: JobList {
            jobs,
            count: p.count,
        },
        monitor: p.monitor,
    }
}

// ---- how an answer is given to C: by numbers, as C reads them (c/head.h)

// What a call returns.
impl From<Answer> for HeadAnswer {
    ghost use Rattle.std.specs.Prelude.{◌≡◌};
    ghost use Rattle.head.specs.Placed.{answer_for};

    ghost from_gives = { λ answer told. told ≡ answer_for answer };

    fn from(answer: Answer) -> HeadAnswer {
        let running = answer.running;
        let call = answer.call;
        HeadAnswer {
            result: answer.result,
            runs: running.is_some(),
            task: task_in(running),
            due: due_in(running),
            call: number_of(call),
            called: called_of(call),
            late: answer.late,
        }
    }
}

// The task of what runs.
fn task_in(running: Option<Running>) -> u8
    ensures { result ≡ task_in running }
{
    running.map_or(0, |job| job.task)
}

// Its deadline.
fn due_in(running: Option<Running>) -> Tick
    ensures { result ≡ due_in running }
{
    running.map_or(Tick(0), |job| job.due)
}

// The kernel call, by its number.
fn number_of(call: KernelCall) -> u8
    ensures { result ≡ number_of call }
{
    match call {
        KernelCall::NoCall => 0,
        KernelCall::ActivateTask(task) => 1,
        KernelCall::ChainTask(task) => 2,
        KernelCall::TerminateTask => 3,
    }
}

// The task that it names.
fn called_of(call: KernelCall) -> u8
    ensures { result ≡ called_of call }
{
    match call {
        KernelCall::ActivateTask(task) | KernelCall::ChainTask(task) => task,
        KernelCall::NoCall | KernelCall::TerminateTask => 0,
    }
}

// What the check answers.
impl From<Verdict> for HeadVerdict {
    ghost use Rattle.std.specs.Prelude.{◌≡◌};
    ghost use Rattle.head.specs.Placed.{verdict_for};

    ghost from_gives = { λ verdict told. told ≡ verdict_for verdict };

    fn from(verdict: Verdict) -> HeadVerdict {
        let number = verdict.number;
        match verdict.lines {
            Named::NoneNamed => HeadVerdict {
                number,
                named: 0,
                first: 0,
                second: 0,
            },
            Named::TheLine(i) => HeadVerdict {
                number,
                named: 1,
                first: i,
                second: 0,
            },
            Named::BothLines(i, j) => HeadVerdict {
                number,
                named: 2,
                first: i,
                second: j,
            },
        }
    }
}

// What the question is answered with.
impl From<Result<Reason, CallRefusal>> for HeadWhy {
    ghost use Rattle.std.specs.Prelude.{◌≡◌};
    ghost use Rattle.head.specs.Placed.{why_for};

    ghost from_gives = { λ why told. told ≡ why_for why };

    fn from(why: Result<Reason, CallRefusal>) -> HeadWhy {
        match why {
            Ok(Reason::NonePending) => HeadWhy {
                result: 0,
                reason: 1,
                task: 0,
                due: Tick(0),
            },
            Ok(Reason::ItRuns) => HeadWhy {
                result: 0,
                reason: 2,
                task: 0,
                due: Tick(0),
            },
            Ok(Reason::Earlier(task, due)) => HeadWhy {
                result: 0,
                reason: 3,
                task,
                due,
            },
            Ok(Reason::ThereFirst(task, due)) => HeadWhy {
                result: 0,
                reason: 4,
                task,
                due,
            },
            Err(refusal) => HeadWhy {
                result: u8::from(refusal),
                reason: 0,
                task: 0,
                due: Tick(0),
            },
        }
    }
}

// ---- the check by value

// The check of a task table: a fresh state is handed out if it gives 0.
fn checked_table(t: TaskTable) -> HeadChecked
    ensures { (result ≡ checked_table t) × HeadHandedOut result }
{
    let checked = scheduler::check(t);
    HeadChecked {
        state: placed(checked.state),
        verdict: HeadVerdict::from(checked.verdict),
    }
}

// ---- the calls by value: `HeadHanded` stands at each, since C may hand in any state

// What a call gives, as C keeps it, by its jobs as C keeps them.
fn stepped_for(next: Stepped, jobs: [HeadJob; PLACES]) -> HeadStepped
    requires { jobs ≡ map placed_job next.state.list.jobs }
    ensures { result ≡ stepped_for next }
{
    HeadStepped {
        state: placed_with(next.state, jobs),
        answer: HeadAnswer::from(next.answer),
    }
}

// The state that C keeps, taken over.
fn opened(p: HeadState) -> State
    requires { HeadHanded p }
    ensures { result ≡ state_in p }
{
    state_in(p, jobs_in(p.jobs, p.count))
}

// What a call gives on a state that C keeps: its jobs are taken over again, as many as there were or are.
fn closed(p: HeadState, next: Stepped) -> HeadStepped
    requires { HeadHanded p × Handed next.state }
    ensures { result ≡ stepped_for next }
{
    let n = p.count.max(next.state.list.count);
    stepped_for(next, placed_jobs(p.jobs, next.state.list.jobs, n))
}

// Tick, by value. It leaves the jobs as they are, so none is taken over behind it.
fn step_tick(p: HeadState, at: Tick) -> HeadStepped
    requires { HeadHanded p }
    ensures { (result ≡ head_step p (Wait at)) × HeadHanded result.state }
{
    let s = opened(p);
    let next = scheduler::tick(s, at);
    stepped_for(next, p.jobs)
}

// The other calls, by value. (One function over a closure for the three would copy the state twice more.)
fn step_activate(p: HeadState, at: Tick, task: u8) -> HeadStepped
    requires { HeadHanded p }
    ensures { (result ≡ head_step p (Activate at task)) × HeadHanded result.state }
{
    let s = opened(p);
    let next = scheduler::activate(s, at, task);
    closed(p, next)
}

fn step_terminate(p: HeadState, at: Tick) -> HeadStepped
    requires { HeadHanded p }
    ensures { (result ≡ head_step p (Terminate at)) × HeadHanded result.state }
{
    let s = opened(p);
    let next = scheduler::terminate(s, at);
    closed(p, next)
}

fn step_chain(p: HeadState, at: Tick, task: u8) -> HeadStepped
    requires { HeadHanded p }
    ensures { (result ≡ head_step p (Chain at task)) × HeadHanded result.state }
{
    let s = opened(p);
    let next = scheduler::chain(s, at, task);
    closed(p, next)
}

// ---- the question by value

// Why a task's first pending job does or does not run, by value.
fn ask_why(p: HeadState, task: u8) -> HeadWhy
    requires { HeadHanded p }
    ensures { result ≡ head_why p task }
{
    let s = opened(p);
    HeadWhy::from(scheduler::why(s, task))
}

// ---- the check and the calls for C: lines as they are, the state of a recorder head updated where it stands

// The check of the lent lines: a fresh state is handed out if it gives 0. Of more than 32 lines none is read.
#[unsafe(no_mangle)]
pub extern "C" fn head_check(lines: &[Line]) -> HeadChecked
    ensures { LinesChecked lines.now result }
{
    checked_table(TaskTable::copied(lines))
}

// Tick: time moves; no kernel call.
#[unsafe(no_mangle)]
pub extern "C" fn head_tick(s: &mut HeadState, at: Tick) -> HeadAnswer
    requires { HeadHanded s.old }
    ensures { Left s.old (Wait at) result s.new }
{
    let next = step_tick(*s, at);
    *s = next.state;
    next.answer
}

// Activate: a new job of the task goes into the list. If it is first it is released by ActivateTask; otherwise no kernel call.
#[unsafe(no_mangle)]
pub extern "C" fn head_activate(s: &mut HeadState, at: Tick, task: u8) -> HeadAnswer
    requires { HeadHanded s.old }
    ensures { Left s.old (Activate at task) result s.new }
{
    let next = step_activate(*s, at, task);
    *s = next.state;
    next.answer
}

// Terminate: the running job leaves the list. If the new first job is delayed it is released by ChainTask; otherwise TerminateTask.
#[unsafe(no_mangle)]
pub extern "C" fn head_terminate(s: &mut HeadState, at: Tick) -> HeadAnswer
    requires { HeadHanded s.old }
    ensures { Left s.old (Terminate at) result s.new }
{
    let next = step_terminate(*s, at);
    *s = next.state;
    next.answer
}

// Chain: the running job leaves, the named task's job is inserted at the same tick, then as for terminate.
#[unsafe(no_mangle)]
pub extern "C" fn head_chain(s: &mut HeadState, at: Tick, task: u8) -> HeadAnswer
    requires { HeadHanded s.old }
    ensures { Left s.old (Chain at task) result s.new }
{
    let next = step_chain(*s, at, task);
    *s = next.state;
    next.answer
}

// Why a task's first pending job does or does not run. The state is only read.
#[unsafe(no_mangle)]
pub extern "C" fn head_why(s: &HeadState, task: u8) -> HeadWhy
    requires { HeadHanded s.now }
    ensures { result ≡ head_why s.now task }
{
    ask_why(*s, task)
}

// Does nothing. Its contract is all of specs/Claims, so that a claim without a proof fails the check.
pub fn head_holds()
    ensures { Claims }
{}
