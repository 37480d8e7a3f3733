// What document 01's program prints for a tape: read, checked, run and printed, piece by piece.
#![tactic(auto)]

ghost use Rattle.std.specs.Prelude.{◌≡◌, ◌+◌, ◌≤◌};
ghost use Rattle.rules.specs.Print.{count_above, opening_text};
ghost use Rattle.scheduler.specs.State.{Handed};
ghost use Rattle.print.specs.Buffers.{Put};
ghost use Rattle.transcript.specs.Pieces.{Opens, called_of, halt_of, halt_text, ran_of, buffer_room, line_most, NextLine, Piece};
ghost use Rattle.transcript.specs.Claims.{Claims};

use print::{Page, ROOM};
use rules::{Answer, Call, Halt, PLACES, Taken, TapeRefusal, Tick, Unopened};
use scheduler::State;
use streams::STDOUT_FILENO;
use table::TableRefusal;
use tape::MOST_BYTES;

// How many bytes are kept free for a line. None is longer (specs/Claims, LinesFit).
const LINE: usize = 1024;

// How far a tape was run: the state, the place of the next record, and the tick of the one before it. That the state is handed out stands where a run is used: `Handed` holds a table and a head, so it is no fact that a ghost field could hold.
#[derive(Clone, Copy)]
pub struct Run {
    pub state: State,
    pub at: usize,
    pub preceding: Tick,
}

// What a record's call answered, and the run behind the record.
#[derive(Clone, Copy)]
struct Called {
    answer: Answer,
    run: Run,
}

// A tape run to where it stops: the state that its calls left, and where the tape is bad, if it isn't run to its end.
#[derive(Clone, Copy)]
pub struct Ran {
    pub state: State,
    pub halt: Option<Halt>,
}

// ---- the table

// A count of lines above 32.
fn is_above(count: Result<Taken<u64>, TapeRefusal>) -> bool
    ensures { result ≡ count_above count }
{
    count.is_ok_and(|count| PLACES < count.value as usize)
}

// 26 before everything; a count above 32 as soon as it is read; then the table, and its check. The run stands in front of the first record.
pub fn open(tape: &[u8]) -> Result<Run, Unopened>
    ensures { Opens tape.now result }
{
    if MOST_BYTES < tape.len() {
        return Err(Unopened::BadTape(Halt {
            refusal: TapeRefusal::TooLong,
            place: MOST_BYTES,
        }));
    }
    if is_above(tape::read_count(tape)) {
        return Err(Unopened::BadTable(TableRefusal::LineCount.into()));
    }
    let read = tape::read_table(tape).map_err(|refusal| Unopened::BadTape(Halt {
        refusal,
        place: 0,
    }))?;
    let checked = scheduler::check(read.value);
    if checked.verdict.number != 0 {
        return Err(Unopened::BadTable(checked.verdict));
    }
    Ok(Run {
        state: checked.state,
        at: read.next,
        preceding: Tick(0),
    })
}

// The header once the table is accepted; otherwise the one line only.
pub fn open_line(page: &mut Page, opened: &Result<Run, Unopened>)
    ensures { Put page.old.bytes page.old.len (opening_text opened.now) page.new.bytes page.new.len }
{
    match opened {
        Ok(_) => page.header_line(),
        Err(Unopened::BadTable(verdict)) => page.table_line(*verdict),
        Err(Unopened::BadTape(halt)) => page.tape_line(*halt),
    }
}

// ---- the records

// A record's call is made, and the run goes on behind the record.
fn run_call(run: Run, call: Call, next: usize) -> Called
    requires { Handed run.state }
    ensures { (result ≡ called_of run call next) × Handed result.run.state }
{
    let made = scheduler::call(run.state, call);
    Called {
        answer: made.answer,
        run: Run {
            state: made.state,
            at: next,
            preceding: records::tick_of(call),
        },
    }
}

// Where the tape is bad, if what the reader answers at a place is no record and not the tape's end.
fn halt_of(read: Result<Option<Taken<Call>>, TapeRefusal>, place: usize) -> Option<Halt>
    ensures { result ≡ halt_of place read }
{
    read.err().map(|refusal| Halt { refusal, place })
}

// A bad tape's line; nothing at the tape's end.
pub fn halt_line(page: &mut Page, halt: Option<Halt>)
    ensures { Put page.old.bytes page.old.len (halt_text halt) page.new.bytes page.new.len }
{
    if let Some(halt) = halt {
        page.tape_line(halt);
    }
}

// The next record is read and run, and its line put on the page. The end of the tape and a refusal stop the run.
pub fn next_line(tape: &[u8], run: Run, page: &mut Page) -> Option<Run>
    requires { Handed run.state }
    ensures { NextLine tape.now run page.old.bytes page.old.len result page.new.bytes page.new.len }
{
    let read = records::read_record(tape, run.at, run.preceding);
    let Ok(Some(Taken { value: call, next })) = read else {
        halt_line(page, halt_of(read, run.at));
        return None;
    };
    let called = run_call(run, call, next);
    page.answer_line(records::tick_of(call), called.answer);
    Some(called.run)
}

// The records from there on are read and run with no print, to the tape's end or a bad one. (By a loop: each record's place comes from the one before it.)
pub fn run_out(tape: &[u8], mut run: Run) -> Ran
    requires { Handed run.state }
    ensures { (result ≡ ran_of tape.now run) × Handed result.state }
{
    loop {
        let read = records::read_record(tape, run.at, run.preceding);
        let Ok(Some(Taken { value: call, next })) = read else {
            return Ran {
                state: run.state,
                halt: halt_of(read, run.at),
            };
        };
        run = run_call(run, call, next).run;
    }
}

// The next piece: lines as long as one more is sure to fit. As `next_line` by `next_line`, but for the copies: each call is stored where the state stands.
fn piece(tape: &[u8], mut run: Run, page: &mut Page) -> Option<Run>
    requires { Handed run.state × (page.old.len + line_most ≤ buffer_room) }
    ensures { Piece tape.now run page.old.bytes page.old.len result page.new.bytes page.new.len }
{
    while page.len + LINE <= ROOM {
        let read = records::read_record(tape, run.at, run.preceding);
        let Ok(Some(Taken { value: call, next })) = read else {
            halt_line(page, halt_of(read, run.at));
            return None;
        };
        run.at = next;
        run.preceding = records::tick_of(call);
        let answer = match call {
            Call::Wait(tick) => {
                let made = scheduler::tick(run.state, tick);
                run.state = made.state;
                made.answer
            }
            Call::Activate(tick, task) => {
                let made = scheduler::activate(run.state, tick, task);
                run.state = made.state;
                made.answer
            }
            Call::Terminate(tick) => {
                let made = scheduler::terminate(run.state, tick);
                run.state = made.state;
                made.answer
            }
            Call::Chain(tick, task) => {
                let made = scheduler::chain(run.state, tick, task);
                run.state = made.state;
                made.answer
            }
        };
        page.answer_line(run.preceding, answer);
    }
    Some(run)
}

// ---- to standard output

// Prints what the program prints for a tape. False where standard output takes no more.
pub fn write(tape: &[u8]) -> bool {
    let mut page = Page::new();
    let opened = open(tape);
    open_line(&mut page, &opened);
    let Ok(mut run) = opened else {
        return page.send(STDOUT_FILENO);
    };
    loop {
        let rest = piece(tape, run, &mut page);
        if !page.send(STDOUT_FILENO) {
            return false;
        }
        let Some(next) = rest else {
            return true;
        };
        run = next;
        page.clear();
    }
}

// Does nothing. Its contract is all of specs/Claims, so that a claim without a proof fails the check.
pub fn transcript_holds()
    ensures { Claims }
{}
