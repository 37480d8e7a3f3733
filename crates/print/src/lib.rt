// Lines as document 01 prints them, put on a page.
#![tactic(auto)]

ghost use Rattle.std.specs.Prelude.{[], ◌∷◌};
ghost use Rattle.print.specs.Buffers.{Put};

use rules::{Answer, Halt, KernelCall, Late, Named, PLACES, Running, Tick, Verdict};
use std::fmt;

// How many bytes a page has. What does not fit is left out.
pub const ROOM: usize = 65536;

// Bytes, and how many of them are put: a text goes behind them (specs/Buffers). The lines are methods, no `fmt::Display`: `write!` promises its text only where it gives Ok, and no clause says that it does; `Put` holds of each call.
#[derive(Drop)]
pub struct Page {
    pub bytes: [u8; ROOM],
    pub len: usize,
}

// A byte put at a place, and the place behind it. (By `len` of a page the place would be stored for each byte of a text.)
fn put(bytes: &mut [u8; ROOM], at: usize, b: u8) -> usize
    ensures { Put bytes.old at (b ∷ []) bytes.new result }
{
    if at < ROOM {
        bytes[at] = b;
        return at + 1;
    }
    at
}

impl Page {
    ghost use Rattle.std.specs.Prelude.{◌≡◌, [], ◌∷◌, replicate};
    ghost use Rattle.rules.specs.Print.{decimal, spaced, ended, call_text, comma_tasks, late_text, answer_text, header_text, table_text, tape_text};
    ghost use Rattle.rules.specs.Number.{tape_number};
    ghost use Rattle.print.specs.Buffers.{Put, choice_text, named_text};

    pub fn new() -> Page
        ensures { (result.bytes ≡ replicate ROOM 0) × (result.len ≡ 0) }
    {
        Page {
            bytes: [0; ROOM],
            len: 0,
        }
    }

    // What is put next stands at the first byte again.
    pub fn clear(&mut self)
        ensures { (self.new.bytes ≡ self.old.bytes) × (self.new.len ≡ 0) }
    {
        self.len = 0;
    }

    // ---- parts of a line

    pub fn byte(&mut self, b: u8)
        ensures { Put self.old.bytes self.old.len (b ∷ []) self.new.bytes self.new.len }
    {
        self.len = put(&mut self.bytes, self.len, b);
    }

    pub fn words(&mut self, text: &[u8])
        ensures { Put self.old.bytes self.old.len text.now self.new.bytes self.new.len }
    {
        let mut next = self.len;
        for b in text {
            next = put(&mut self.bytes, next, *b);
        }
        self.len = next;
    }

    pub fn number(&mut self, n: u64)
        ensures { Put self.old.bytes self.old.len (decimal n) self.new.bytes self.new.len }
    {
        let mut digits = [0u8; 20];
        let k = io::decimal(n, &mut digits);
        self.words(&digits[..k]);
    }

    // A letter and a task number.
    #[tactic(auto, using(crate::proofs::Texts::then))]
    fn named(&mut self, letter: u8, task: u8)
        ensures { Put self.old.bytes self.old.len (letter ∷ decimal task) self.new.bytes self.new.len }
    {
        self.byte(letter);
        self.number(task as u64);
    }

    // Two numbers with a space between them.
    pub fn two(&mut self, x: u64, y: u64)
        ensures { Put self.old.bytes self.old.len (spaced (decimal x ∷ decimal y ∷ [])) self.new.bytes self.new.len }
    {
        self.number(x);
        self.byte(b' ');
        self.number(y);
    }

    // The running task and its deadline.
    pub fn running(&mut self, choice: Option<Running>)
        ensures { Put self.old.bytes self.old.len (choice_text choice) self.new.bytes self.new.len }
    {
        match choice {
            None => self.words(b"- -"),
            Some(running) => self.two(running.task as u64, running.due.0),
        }
    }

    fn kernel_call(&mut self, call: KernelCall)
        ensures { Put self.old.bytes self.old.len (call_text call) self.new.bytes self.new.len }
    {
        match call {
            KernelCall::NoCall => self.byte(b'-'),
            KernelCall::ActivateTask(task) => self.named(b'A', task),
            KernelCall::ChainTask(task) => self.named(b'C', task),
            KernelCall::TerminateTask => self.byte(b'T'),
        }
    }

    // Tasks, each with a comma in front of it.
    fn more_tasks(&mut self, tasks: &[u8])
        ensures { Put self.old.bytes self.old.len (comma_tasks tasks.now) self.new.bytes self.new.len }
    {
        for task in tasks {
            self.named(b',', *task);
        }
    }

    // The newly late tasks joined by commas.
    fn late_tasks(&mut self, late: Late)
        ensures { Put self.old.bytes self.old.len (late_text late) self.new.bytes self.new.len }
    {
        let count = (late.count as usize).min(PLACES);
        let [first, more @ ..] = &late.tasks[..count] else {
            return self.byte(b'-');
        };
        self.number(*first as u64);
        self.more_tasks(more);
    }

    // The lines that a table's answer names.
    fn lines_named(&mut self, lines: Named)
        ensures { Put self.old.bytes self.old.len (named_text lines) self.new.bytes self.new.len }
    {
        match lines {
            Named::NoneNamed => self.words(b"- -"),
            Named::TheLine(i) => {
                self.number(i as u64);
                self.words(b" -");
            }
            Named::BothLines(i, j) => self.two(i as u64, j as u64),
        }
    }

    // ---- lines without their newlines

    // What a call answered: its tick, result, running task, its deadline, kernel call, newly late tasks.
    pub fn answer(&mut self, tick: Tick, answer: Answer)
        ensures { Put self.old.bytes self.old.len (answer_text tick answer) self.new.bytes self.new.len }
    {
        self.two(tick.0, answer.result as u64);
        self.byte(b' ');
        self.running(answer.running);
        self.byte(b' ');
        self.kernel_call(answer.call);
        self.byte(b' ');
        self.late_tasks(answer.late);
    }

    // What the check answered: its number and the lines named.
    pub fn verdict(&mut self, verdict: Verdict)
        ensures { Put self.old.bytes self.old.len (table_text verdict) self.new.bytes self.new.len }
    {
        self.words(b"table ");
        self.number(verdict.number as u64);
        self.byte(b' ');
        self.lines_named(verdict.lines);
    }

    // ---- whole lines

    // A call's line.
    pub fn answer_line(&mut self, tick: Tick, told: Answer)
        ensures { Put self.old.bytes self.old.len (ended (answer_text tick told)) self.new.bytes self.new.len }
    {
        self.answer(tick, told);
        self.byte(b'\n');
    }

    // What stands above the lines of calls.
    pub fn header_line(&mut self)
        ensures { Put self.old.bytes self.old.len (ended header_text) self.new.bytes self.new.len }
    {
        self.words(b"tick res run due call late\n");
    }

    // A refused table's line.
    pub fn table_line(&mut self, refused: Verdict)
        ensures { Put self.old.bytes self.old.len (ended (table_text refused)) self.new.bytes self.new.len }
    {
        self.verdict(refused);
        self.byte(b'\n');
    }

    // A bad tape's line, by any number and the place: the promise for callers that have no refusal.
    pub fn tape_numbers(&mut self, refusal: u8, place: usize)
        ensures { Put self.old.bytes self.old.len (ended (tape_text refusal place)) self.new.bytes self.new.len }
    {
        self.words(b"tape ");
        self.number(refusal as u64);
        self.words(b" at ");
        self.number(place as u64);
        self.byte(b'\n');
    }

    // A bad tape's line: the refusal's number and the place.
    pub fn tape_line(&mut self, halt: Halt)
        ensures { Put self.old.bytes self.old.len (ended (tape_text (tape_number halt.refusal) halt.place)) self.new.bytes self.new.len }
    {
        self.tape_numbers(u8::from(halt.refusal), halt.place);
    }

    // ---- out

    // What is put goes to a descriptor in one write. False where it doesn't take it all.
    pub fn send(&self, to: i32) -> bool {
        match self.bytes.get(..self.len) {
            Some(text) => io::write_all(to, text),
            None => false,
        }
    }
}

// `write!` and `writeln!` put their text on a page, too.
impl fmt::Write for Page {
    ghost use Rattle.print.specs.Buffers.{Put};

    ghost write_str_gives = { λ before text after. Put before.bytes before.len text after.bytes after.len };

    fn write_str(&mut self, s: &str) -> fmt::Result {
        self.words(s.as_bytes());
        Ok(())
    }
}
