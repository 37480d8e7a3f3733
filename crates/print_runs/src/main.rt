// What is printed for many tapes: their bytes are read from standard input, in words.
#![tactic(auto)]

use print::Page;
use script::{ROOM, Room};
use std::fmt::Write;

// ---- a long print, summed up

// Where counts stand still.
const MOST: u64 = 1000000000;

// Lines, bytes, and the sum of each byte times 1 plus its place modulo 251, modulo 4294967296.
#[derive(Clone, Copy, Default)]
struct Sum {
    lines: u64,
    bytes: u64,
    sum: u32,
}

impl Sum {
    fn byte(&mut self, b: u8) {
        let factor = 1 + (self.bytes % 251) as u32;
        self.sum = self.sum.wrapping_add(u32::from(b) * factor);
        self.bytes = self.bytes.saturating_add(1).min(MOST);
        if b == b'\n' {
            self.lines = self.lines.saturating_add(1).min(MOST);
        }
    }

    // A part of a print.
    fn text(&mut self, text: &[u8]) {
        for b in text {
            self.byte(*b);
        }
    }
}

// What is put on a page.
fn text_of(page: &Page) -> &[u8] {
    &page.bytes[..page.len.min(print::ROOM)]
}

// The sum, and the last line of the print.
fn told(all: Sum, last: &Page) {
    let mut page = Page::new();
    let _ = write!(
        page,
        "-> {} lines, {} bytes, sum {}, last: ",
        all.lines, all.bytes, all.sum
    );
    if let [line @ .., _] = text_of(last) {
        page.words(line);
    }
    show::send(&mut page);
}

// A tape is run line by line, and its print summed up. A tape has no more records than bytes.
fn long(tape: &[u8]) {
    let opened = transcript::open(tape);
    let mut page = Page::new();
    transcript::open_line(&mut page, &opened);
    let mut all = Sum::default();
    all.text(text_of(&page));
    let mut run = opened.ok();
    for _ in 0..=tape.len() {
        let Some(now) = run else {
            break;
        };
        let end = page.len;
        page.clear();
        run = transcript::next_line(tape, now, &mut page);
        all.text(text_of(&page));
        // nothing is put at the tape's end: the last line stands there still
        if page.len == 0 {
            page.len = end;
        }
    }
    told(all, &page);
}

// ---- lines

// A line of words. One that begins with a small letter is a tape: 'tape: 01 05 ..' is printed, and what it prints; 'why: ..', and why its tasks wait;
// 'long: ..', and the sum of what it prints. (By its letter: a line that only begins so is read so.)
fn line_of(text: &[u8]) {
    show::put(text);
    show::put(b"\n");
    let letter = script::byte_at(text, 0);
    if letter < b'a' {
        return;
    }
    let mut room: Room<ROOM> = Room::new();
    room.words(text, script::find(text, 0, b':'), text.len());
    let tape = room.as_slice();
    match letter {
        b't' => {
            transcript::write(tape);
        }
        b'w' => {
            reasons::write(tape);
        }
        _ => long(tape),
    }
}

fn lines(text: &[u8]) {
    for line in script::split(text, b'\n') {
        line_of(line);
    }
}

fn main() {
    streams::text_program(lines);
}
