// Small texts and tapes from standard input, each printed with what is made of it.
// 'make:' and a text, with / for a line's end, \ for a carriage return, ~ for a tab: the tape's bytes, and whether its own text makes it again; or the sentence.
// 'show:' and a tape's bytes: its text. A line of a text or a byte that starts with '255*' stands there 255 times.
#![tactic(auto)]

use print::Page;
use script::Room;
use std::fmt::Write;
use streams::STDOUT_FILENO;
use tape::MOST_BYTES;
use words::{Sink, Trouble};

// A text of a run. What is longer is cut off.
type Text = Room<524288>;

// ---- texts and tapes of a line

// What a sign of a text stands for. (A table of signs.)
fn meant(sign: u8) -> u8 {
    match sign {
        b'/' => b'\n',
        b'\\' => b'\r',
        b'~' => b'\t',
        _ => sign,
    }
}

// How often a line of a text stands there, and the line.
fn times(line: &[u8]) -> (u64, &[u8]) {
    match line.iter().position(|b| *b == b'*') {
        Some(star) => (script::number(line).0, &line[star + 1..]),
        None => (1, line),
    }
}

// The text that stands in a line, into a room. (Given by value it would be copied; so below.)
fn expand(signs: &[u8], text: &mut Text) {
    for line in signs.split_inclusive(|b| *b == b'/') {
        let (times, line) = times(line);
        for _ in 0..times {
            for sign in line {
                text.push(meant(*sign));
            }
        }
    }
}

// A text that takes the pages of a tape's text, as far as there is room.
#[derive(Drop)]
struct Taker<'a>(&'a mut Text);

impl Sink for Taker<'_> {
    fn take(&mut self, page: &Page) -> bool {
        self.0.extend(&page.bytes[..page.len.min(print::ROOM)]);
        self.0.len < self.0.bytes.len()
    }
}

// The text of a tape, into a room.
fn put_text(tape: &[u8], text: &mut Text) {
    words::show_to(tape, &mut Taker(text));
}

// ---- answers

// Whether a text makes a tape.
fn makes(text: &[u8], tape: &[u8]) -> bool {
    let mut again = [0u8; MOST_BYTES];
    match words::make(text, &mut again) {
        Ok(n) => &again[..n] == tape,
        Err(_) => false,
    }
}

// Whether a tape's own text makes it.
fn makes_again(tape: &[u8]) -> bool {
    let mut text = Text::new();
    put_text(tape, &mut text);
    makes(text.as_slice(), tape)
}

// The first bytes of a tape, and whether its own text makes it.
fn accepted(tape: &[u8]) {
    let mut page = Page::new();
    let n = tape.len();
    let _ = write!(page, "{n} bytes:");
    page.send(STDOUT_FILENO);
    show::bytes(tape);
    if makes_again(tape) {
        show::put(b"; same\n");
    } else {
        show::put(b"; differs\n");
    }
}

fn refused(trouble: Trouble<'_>) {
    let mut page = Page::new();
    words::sentence(trouble, &mut page);
    show::send(&mut page);
}

fn make(text: &[u8]) {
    let mut tape = [0u8; MOST_BYTES];
    match words::make(text, &mut tape) {
        Ok(n) => accepted(&tape[..n]),
        Err(trouble) => refused(trouble),
    }
}

// The text of a tape as it stands in a line: with / for a line's end.
fn show_tape(tape: &[u8]) {
    let mut text = Text::new();
    put_text(tape, &mut text);
    for line in script::split(text.as_slice(), b'\n') {
        show::put(line);
        show::put(b"/");
    }
    show::put(b"\n");
}

// ---- lines

fn asked_text(signs: &[u8]) {
    let mut text = Text::new();
    expand(signs, &mut text);
    make(text.as_slice());
}

fn asked_tape(bytes: &[u8]) {
    let mut tape: Room<{ script::ROOM }> = Room::new();
    tape.words(bytes, 0, bytes.len());
    show_tape(tape.as_slice());
}

// A line of standard input. One that begins with a small letter is asked, from behind its first five bytes on. (By its letter: any four bytes may stand behind that.)
fn answer(line: &[u8]) {
    show::put(line);
    match line {
        [b'm', _, _, _, _, signs @ ..] => {
            show::put(b" -> ");
            asked_text(signs);
        }
        [b'a'..=u8::MAX, _, _, _, _, bytes @ ..] => {
            show::put(b" -> ");
            asked_tape(bytes);
        }
        _ => {
            show::put(b"\n");
        }
    }
}

fn lines(text: &[u8]) {
    for line in script::split(text, b'\n') {
        answer(line);
    }
}

fn main() {
    streams::text_program(lines);
}
