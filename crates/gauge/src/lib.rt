// For the benchmark outside/cost: tapes and numbers gone through. Each function gives one number that depends on all that was done.
#![tactic(auto)]

ghost use Rattle.std.specs.Iterator.{at_most};

use rules::{Answer, Call, Running, TapeRefusal, Tick};
use transcript::Run;

// What runs, as one number.
fn running_in(choice: Option<Running>) -> u64 {
    choice.map_or(0, |running| running.due.0 ^ u64::from(running.task))
}

// An answer as one number.
fn answer_in(a: Answer) -> u64 {
    running_in(a.running) ^ u64::from(a.result) ^ u64::from(a.late.count)
}

// A count of bytes written as one number.
fn written_in(answer: Result<usize, TapeRefusal>) -> u64 {
    answer.map_or_else(|refusal| u64::from(u8::from(refusal)), |n| n as u64)
}

// ---- tapes

// The calls of a tape's records, to the end or a refusal. A tape has no more records than bytes. (Of its own: other readers of records show the place and the refusal, too.)
#[derive(Drop)]
struct Records<'a> {
    tape: &'a [u8],
    at: usize,
    preceding: Tick,
    left: usize,
}

fn records_of(tape: &[u8], run: Run) -> Records<'_> {
    Records {
        tape,
        at: run.at,
        preceding: run.preceding,
        left: tape.len(),
    }
}

impl<'a> Iterator for Records<'a> {
    type Item = Call;

    ghost remaining = { λ s. at_most s.left };

    fn next(&mut self) -> Option<Call> {
        self.left = self.left.checked_sub(1)?;
        let taken = records::read_record(self.tape, self.at, self.preceding).ok()??;
        self.at = taken.next;
        self.preceding = records::tick_of(taken.value);
        Some(taken.value)
    }
}

// A tape's records read and their calls made, by value, to the end or a refusal.
#[unsafe(no_mangle)]
pub extern "C" fn gauge_calls(tape: &[u8]) -> u64 {
    let Ok(run) = transcript::open(tape) else {
        return 0;
    };
    let mut state = run.state;
    let mut seen = 0;
    for call in records_of(tape, run) {
        // each call is stored where the state stands: one way for all four would copy it once more
        match call {
            Call::Wait(tick) => {
                let r = scheduler::tick(state, tick);
                state = r.state;
                seen ^= answer_in(r.answer);
            }
            Call::Activate(tick, task) => {
                let r = scheduler::activate(state, tick, task);
                state = r.state;
                seen ^= answer_in(r.answer);
            }
            Call::Terminate(tick) => {
                let r = scheduler::terminate(state, tick);
                state = r.state;
                seen ^= answer_in(r.answer);
            }
            Call::Chain(tick, task) => {
                let r = scheduler::chain(state, tick, task);
                state = r.state;
                seen ^= answer_in(r.answer);
            }
        }
        seen ^= records::tick_of(call).0;
    }
    seen
}

// The same without the calls.
#[unsafe(no_mangle)]
pub extern "C" fn gauge_records(tape: &[u8]) -> u64 {
    let Ok(run) = transcript::open(tape) else {
        return 0;
    };
    let mut seen = 0;
    for call in records_of(tape, run) {
        seen ^= records::tick_of(call).0;
    }
    seen
}

// ---- numbers

// Numbers one behind the other, to the end or a refusal. There are no more of them than bytes.
#[derive(Drop)]
struct Numbers<'a> {
    bytes: &'a [u8],
    at: usize,
    left: usize,
}

fn numbers_of(bytes: &[u8]) -> Numbers<'_> {
    Numbers {
        bytes,
        at: 0,
        left: bytes.len(),
    }
}

impl<'a> Iterator for Numbers<'a> {
    type Item = u64;

    ghost remaining = { λ s. at_most s.left };

    fn next(&mut self) -> Option<u64> {
        self.left = self.left.checked_sub(1)?;
        let taken = number::read_number(self.bytes, self.at).ok()?;
        self.at = taken.next;
        Some(taken.value)
    }
}

// Numbers read one after the other, to the end or a refusal.
#[unsafe(no_mangle)]
pub extern "C" fn gauge_numbers(bytes: &[u8]) -> u64 {
    numbers_of(bytes).fold(0, |seen, value| seen ^ value)
}

// The same, and each is written to the buffer, from its first byte on.
#[unsafe(no_mangle)]
pub extern "C" fn gauge_written(bytes: &[u8], buf: &mut [u8]) -> u64 {
    let mut seen = 0;
    for value in numbers_of(bytes) {
        seen ^= value ^ written_in(number::write_number(value, buf));
    }
    seen
}
