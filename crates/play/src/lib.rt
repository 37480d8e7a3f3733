// The layer in words: tables and calls, each printed with its answer. For runs only.
#![tactic(auto)]

ghost use Rattle.scheduler.specs.State.{Handed};
ghost use Rattle.play.specs.Run.{Kept};

use jobs::JobList;
use monitor::Monitor;
use print::Page;
use rules::{Answer, Job, Phase, Running, Tick, Verdict};
use scheduler::State;
use table::TaskTable;

// A state that calls are made on, and whether an answer stands alone on its line. That the check handed it out is no ghost field: `Handed` has a table and a head in
// it, and is no fact alone.
#[derive(Clone, Copy)]
struct Run {
    state: State,
    bare: bool,
}

// ---- the list

// A pending job: its task and deadline, and whether it is delayed or released.
fn job(page: &mut Page, job: Job) {
    page.words(b", ");
    page.two(job.task as u64, job.due.0);
    match job.phase {
        Phase::Delayed => page.words(b" delayed"),
        Phase::Released => page.words(b" released"),
    }
}

// The job that the kernel's dispatcher picks, as an answer shows it.
fn picked(list: JobList, table: TaskTable) -> Option<Running> {
    let k = kernel::dispatch(list, table)?;
    let job = list.jobs.get(k)?;
    Some(Running {
        task: job.task,
        due: job.due,
    })
}

// The last accepted tick, the pending jobs, and the one that the dispatcher picks.
fn listed(list: JobList, last: Tick, choice: Option<Running>) {
    let mut page = Page::new();
    page.words(b"list -> last ");
    page.number(last.0);
    for next in list.jobs.iter().take(list.count) {
        job(&mut page, *next);
    }
    page.words(b"; kernel ");
    page.running(choice);
    show::send(&mut page);
}

// ---- counts

// What is counted of each task, one behind the other.
fn counts(monitor: Monitor, tasks: usize) {
    let mut page = Page::new();
    page.words(b"counts");
    for (i, tally) in monitor.tallies.iter().take(tasks).enumerate() {
        if 0 < i {
            page.byte(b',');
        }
        page.byte(b' ');
        show::tally(&mut page, *tally);
    }
    show::send(&mut page);
}

// ---- calls

// The words in front of an answer. (A page is made where it is sent: given by value it would be copied.)
fn question(page: &mut Page, text: &[u8]) {
    page.words(text);
    page.words(b" -> ");
}

// 'why 2': why the task's first pending job does or does not run.
fn waits(run: Run, text: &[u8])
    requires { Handed run.state }
{
    let task = script::task_of(text);
    let mut page = Page::new();
    question(&mut page, text);
    reasons::why(&mut page, task, lent::why(run.state, task));
    show::send(&mut page);
}

// A call's answer. (In a function of its own, as each page that is sent: else its place would be cleared twice.)
fn told(text: &[u8], bare: bool, tick: Tick, answer: Answer) {
    let mut page = Page::new();
    if !bare {
        question(&mut page, text);
    }
    page.answer(tick, answer);
    show::send(&mut page);
}

// A call is made and printed.
fn called(run: Run, text: &[u8]) -> Run
    requires { Handed run.state }
    ensures { Handed result.state }
{
    let call = script::call_of(text);
    let stepped = lent::call(run.state, call);
    told(text, run.bare, records::tick_of(call), stepped.answer);
    Run {
        state: stepped.state,
        bare: run.bare,
    }
}

fn no_table(text: &[u8]) {
    let mut page = Page::new();
    question(&mut page, text);
    page.words(b"no table");
    show::send(&mut page);
}

// ---- tables

// What the place for the state holds after the check: how many lines and jobs, and the last accepted tick.
fn fresh(page: &mut Page, state: State) {
    page.words(b"lines and jobs ");
    page.two(state.table.count as u64, state.list.count as u64);
    page.words(b", last tick ");
    page.number(state.last.0);
}

// 'check 3 12 2, 5 11 2': the check's answer.
fn checked(text: &[u8]) {
    let mut page = Page::new();
    question(&mut page, text);
    page.verdict(lent::check(script::table_of(text)).verdict);
    show::send(&mut page);
}

// 'state 3 12 2, 5 11 2': the state that the check leaves.
fn left(text: &[u8]) {
    let mut page = Page::new();
    question(&mut page, text);
    fresh(&mut page, lent::check(script::table_of(text)).state);
    show::send(&mut page);
}

fn refused(verdict: Verdict) {
    let mut page = Page::new();
    page.verdict(verdict);
    show::send(&mut page);
}

// A run from a fresh state: 'lines 3 12 2, 5 11 2' is printed; 'printed 3 12 2, 5 11 2' is not, and its run is bare, with the header above it. None from a
// refused table.
fn begun(text: &[u8], bare: bool) -> Option<Run>
    ensures { Kept result }
{
    if !bare {
        show::say(text);
    }
    let checked = lent::check(script::table_of(text));
    if checked.verdict.number != 0 {
        refused(checked.verdict);
        return None;
    }
    if bare {
        show::header();
    }
    Some(Run {
        state: checked.state,
        bare,
    })
}

// ---- lines

// What a line asks for.
#[derive(Clone, Copy)]
enum Asked {
    Begin { bare: bool },
    Check,
    State,
    List,
    Counts,
    Why,
    Call,
}

// A line that begins with a small letter asks for something. 'printed' and 'state' are told by their first letter, the other words by their third: letters and no words, since a line that only has them is read so.
fn asked_by(text: &[u8]) -> Option<Asked> {
    let asked = match (script::byte_at(text, 0), script::byte_at(text, 2)) {
        (first, _) if first < b'a' => return None,
        (b'p', _) => Asked::Begin { bare: true },
        (_, b'n') => Asked::Begin { bare: false },
        (b's', _) => Asked::State,
        (_, b'e') => Asked::Check,
        (_, b's') => Asked::List,
        (_, b'u') => Asked::Counts,
        (_, b'y') => Asked::Why,
        _ => Asked::Call,
    };
    Some(asked)
}

// A line on a state: a call changes it, any other line shows it.
fn step(run: Run, asked: Asked, text: &[u8]) -> Run
    requires { Handed run.state }
    ensures { Handed result.state }
{
    let state = run.state;
    match asked {
        Asked::List => listed(state.list, state.last, picked(state.list, state.table)),
        Asked::Counts => counts(state.monitor, state.table.count),
        Asked::Why => waits(run, text),
        _ => return called(run, text),
    }
    run
}

// A line on the state, if there is one.
fn stepped(run: Option<Run>, asked: Asked, text: &[u8]) -> Option<Run>
    requires { Kept run }
    ensures { Kept result }
{
    match run {
        Some(run) => Some(step(run, asked, text)),
        None => {
            no_table(text);
            None
        }
    }
}

// A line of words. One that asks for nothing is printed as it stands.
fn line_of(run: Option<Run>, text: &[u8]) -> Option<Run>
    requires { Kept run }
    ensures { Kept result }
{
    let Some(asked) = asked_by(text) else {
        show::say(text);
        return run;
    };
    match asked {
        Asked::Begin { bare } => return begun(text, bare),
        Asked::Check => checked(text),
        Asked::State => left(text),
        _ => return stepped(run, asked, text),
    }
    run
}

// The lines of a text.
pub fn lines(text: &[u8]) {
    let mut run = None;
    for line in script::split(text, b'\n') {
        run = line_of(run, line);
    }
}
