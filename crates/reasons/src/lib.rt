// Q-1 in words: a line that says why a task waits, and what the program tape_why prints for a tape.
#![tactic(auto)]

ghost use Rattle.rules.specs.Print.{spaced};
ghost use Rattle.rules.specs.WhyPrint.{reason_words, why_words, why_text, why_lines, why_transcript};
ghost use Rattle.scheduler.specs.State.{table_of, head_of, Handed};
ghost use Rattle.print.specs.Buffers.{Put};
ghost use Rattle.reasons.specs.Words.{waits_text, refused_text, named_text, refused_line};
ghost use Rattle.reasons.specs.Claims.{Claims};

use print::Page;
use rules::{CallRefusal, Reason, Tick};
use scheduler::State;
use streams::STDOUT_FILENO;

// ---- a task's line, part by part

// Of a job that waits: the task that runs, how it stands, and its deadline.
fn waits(page: &mut Page, task: u8, how: &[u8], due: Tick)
    ensures { Put page.old.bytes page.old.len (waits_text task how.now due) page.new.bytes page.new.len }
{
    page.words(b"is waiting: task ");
    page.number(task as u64);
    page.words(how);
    page.number(due.0);
}

// A reason's words.
fn because(page: &mut Page, reason: Reason)
    ensures { Put page.old.bytes page.old.len (spaced (reason_words reason)) page.new.bytes page.new.len }
{
    match reason {
        Reason::NonePending => page.words(b"has no pending job"),
        Reason::ItRuns => page.words(b"is running"),
        Reason::Earlier(task, due) => waits(
            page,
            task,
            b" is running with the earlier deadline ",
            due,
        ),
        Reason::ThereFirst(task, due) => waits(
            page,
            task,
            b" was there first and is running with the same deadline ",
            due,
        ),
    }
}

// The words of a refused question, by any number: the promise for callers that have no refusal.
pub fn refused(page: &mut Page, number: u8)
    ensures { Put page.old.bytes page.old.len (refused_text number) page.new.bytes page.new.len }
{
    page.words(b"is refused: ");
    page.number(number as u64);
}

// An answer's words.
fn told(page: &mut Page, answer: Result<Reason, CallRefusal>)
    ensures { Put page.old.bytes page.old.len (spaced (why_words answer)) page.new.bytes page.new.len }
{
    match answer {
        Ok(reason) => because(page, reason),
        Err(refusal) => refused(page, u8::from(refusal)),
    }
}

// What a task's line begins with.
fn named(page: &mut Page, task: u8)
    ensures { Put page.old.bytes page.old.len (named_text task) page.new.bytes page.new.len }
{
    page.words(b"task ");
    page.number(task as u64);
    page.byte(b' ');
}

// A task's line of a refused question without its newline, by any number: the promise for callers that have no refusal.
pub fn why_refused(page: &mut Page, task: u8, number: u8)
    ensures { Put page.old.bytes page.old.len (refused_line task number) page.new.bytes page.new.len }
{
    named(page, task);
    refused(page, number);
}

// A task's line without its newline.
pub fn why(page: &mut Page, task: u8, answer: Result<Reason, CallRefusal>)
    ensures { Put page.old.bytes page.old.len (why_text task answer) page.new.bytes page.new.len }
{
    named(page, task);
    told(page, answer);
}

// ---- the whole print

// A line for each task of a state's table.
fn lines(page: &mut Page, state: State)
    requires { Handed state }
    ensures { Put page.old.bytes page.old.len (why_lines (table_of state) (head_of state).board) page.new.bytes page.new.len }
{
    let count = state.table.count as u8;
    for task in 0..count {
        let answer = scheduler::why(state, task);
        why(page, task, answer);
        page.byte(b'\n');
    }
}

// What is printed for a tape: it is run with no print, and then each task's line is put, and a bad record's behind them. A table or a tape that is refused before has its one line.
pub fn text(tape: &[u8], page: &mut Page)
    ensures { Put page.old.bytes page.old.len (why_transcript tape.now) page.new.bytes page.new.len }
{
    let opened = transcript::open(tape);
    let Ok(run) = opened else {
        return transcript::open_line(page, &opened);
    };
    let ran = transcript::run_out(tape, run);
    lines(page, ran.state);
    transcript::halt_line(page, ran.halt);
}

// Prints it. False where standard output takes no more.
pub fn write(tape: &[u8]) -> bool {
    let mut page = Page::new();
    text(tape, &mut page);
    page.send(STDOUT_FILENO)
}

// Does nothing. Its contract is all of specs/Claims, so that a claim without a proof fails the check.
pub fn reasons_hold()
    ensures { Claims }
{}
