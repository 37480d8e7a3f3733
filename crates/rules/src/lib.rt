// The data that document 01 speaks of. What it says of them stands in specs/.
#![tactic(auto)]

ghost use Rattle.std.specs.Prelude.{◌≡◌};
ghost use Rattle.rules.specs.Layer.{is_released};
ghost use Rattle.rules.specs.Claims.{Claims};

// How many lines a table holds, how many jobs a list, how many late tasks an answer and how many tallies a state.
pub const PLACES: usize = 32;

// A position in time.
#[repr(C)]
#[derive(Clone, Copy, PartialEq, PartialOrd)]
pub struct Tick(pub u64);

// A length of time. It is only ever added to a tick, never compared with one.
#[repr(C)]
#[derive(Clone, Copy, Default, PartialEq)]
pub struct Span(pub u64);

// A line of the task table. Its place from 0 is its task number.
#[repr(C)]
#[derive(Clone, Copy, Default, PartialEq)]
pub struct Line {
    pub deadline: Span,
    pub priority: u8,
    pub limit: u8,
}

// The lines that a refused table's answer names: none, the line, or both. (Three ways, so no Option.)
#[derive(Clone, Copy)]
pub enum Named {
    NoneNamed,
    TheLine(u8),
    BothLines(u8, u8),
}

// What the check answers: its number, and the lines named. A number, and no Result: the claim CheckExact speaks of 0 to 5, and `HeadVerdict` tells C so.
#[derive(Clone, Copy)]
pub struct Verdict {
    pub number: u8,
    pub lines: Named,
}

// Whether the layer holds a pending job back, or the kernel has it.
#[derive(Clone, Copy)]
pub enum Phase {
    Delayed,
    Released,
}

impl Phase {
    // Whether the kernel has the job.
    pub fn is_released(self) -> bool
        ensures { result ≡ is_released self }
    {
        matches!(self, Phase::Released)
    }
}

// Released or not.
impl From<bool> for Phase {
    ghost use Rattle.std.specs.Prelude.{◌≡◌};
    ghost use Rattle.rules.specs.Answers.{phase_of};

    ghost from_gives = { λ released phase. phase ≡ phase_of released };

    fn from(released: bool) -> Phase {
        if released {
            Phase::Released
        } else {
            Phase::Delayed
        }
    }
}

// A pending job as a list keeps it. Its activation tick is its deadline less its task's D. (`Job` of specs/Jobs also says that tick, and more.)
#[derive(Clone, Copy)]
pub struct Job {
    pub due: Tick,
    pub task: u8,
    pub phase: Phase,
}

// A call: time moves (tick), activate, terminate, chain.
#[derive(Clone, Copy)]
pub enum Call {
    Wait(Tick),
    Activate(Tick, u8),
    Terminate(Tick),
    Chain(Tick, u8),
}

// The kernel call that a call made. (Four ways, one sign each in a print, so no Option of three.)
#[derive(Clone, Copy)]
pub enum KernelCall {
    NoCall,
    ActivateTask(u8),
    ChainTask(u8),
    TerminateTask,
}

// The job that runs, by its task and deadline.
#[derive(Clone, Copy)]
pub struct Running {
    pub task: u8,
    pub due: Tick,
}

// Newly late jobs: their count, and their tasks in 32 places, unused places 0. (C has the same in c/head.h; there is no heap.)
#[repr(C)]
#[derive(Clone, Copy)]
pub struct Late {
    pub count: u8,
    pub tasks: [u8; PLACES],
}

// What a call returns. Its result is a number, 0 or a refusal's: the claim RefusalsExact speaks of it so, and `HeadAnswer` tells C so.
#[derive(Clone, Copy)]
pub struct Answer {
    pub result: u8,
    pub running: Option<Running>,
    pub call: KernelCall,
    pub late: Late,
}

// What is counted of a task: late jobs, ended jobs, and the greatest response.
#[repr(C)]
#[derive(Clone, Copy)]
pub struct Tally {
    pub late: u32,
    pub ended: u32,
    pub response: u64,
}

// What was read on a tape, and the place after it.
#[derive(Clone, Copy, Debug, PartialEq, Eq)]
pub struct Taken<T> {
    pub value: T,
    pub next: usize,
}

// Why a tape or a write is refused, by document 01's numbers: the bytes end inside a number, the last of several groups is 0, a kind above 3, a value above its bound, what no tape can say, a buffer that is shorter than the bytes, a tape longer than a program takes.
#[derive(Clone, Copy, Debug, PartialEq, Eq)]
pub enum TapeRefusal {
    CutShort = 20,
    ZeroGroup = 21,
    UnknownKind = 22,
    AboveBound = 23,
    Unwritable = 24,
    NoRoom = 25,
    TooLong = 26,
}

impl From<TapeRefusal> for u8 {
    ghost use Rattle.std.specs.Prelude.{◌≡◌};
    ghost use Rattle.rules.specs.Number.{tape_number};

    ghost from_gives = { λ refusal number. number ≡ tape_number refusal };

    fn from(refusal: TapeRefusal) -> u8 {
        refusal as u8
    }
}

// Where a tape is bad: the refusal, and the place.
#[derive(Clone, Copy)]
pub struct Halt {
    pub refusal: TapeRefusal,
    pub place: usize,
}

// Why a tape doesn't open: its table is refused, with the check's answer, or the tape is bad.
#[derive(Clone, Copy)]
pub enum Unopened {
    BadTable(Verdict),
    BadTape(Halt),
}

// Why a task's first pending job does or does not run: none is pending, it runs, an earlier deadline is running, or the same deadline was there first. The running job is named by its task and deadline, as the claim WhyTrue takes them apart.
#[derive(Clone, Copy)]
pub enum Reason {
    NonePending,
    ItRuns,
    Earlier(u8, Tick),
    ThereFirst(u8, Tick),
}

// Why a call is refused: the rows of document 01 by their numbers.
#[derive(Clone, Copy)]
pub enum CallRefusal {
    NoJob = 2,
    NoTask = 3,
    LimitReached = 4,
    BadTick = 8,
    DueBeyond = 9,
    NoPlace = 10,
}

impl From<CallRefusal> for u8 {
    ghost use Rattle.std.specs.Prelude.{◌≡◌};
    ghost use Rattle.rules.specs.Answers.{call_number};

    ghost from_gives = { λ refusal number. number ≡ call_number refusal };

    fn from(refusal: CallRefusal) -> u8 {
        refusal as u8
    }
}

// Does nothing. Its contract is all of specs/Claims, so that a claim without a proof fails the check.
pub fn rules_hold()
    ensures { Claims }
{}
