// Tables, calls and bytes read from text, so that a run says in words what is called.
#![tactic(auto)]

ghost use Rattle.std.specs.Prelude.{◌≡◌, ◌+◌, ◌==◌, ◌<◌, ◌≤◌, [], ◌∷◌, ◌++◌, drop, length, min, take, MatchOption};
ghost use Rattle.std.specs.Iterator.{at_most};
ghost use Rattle.std.specs.List.{position};
ghost use Rattle.script.specs.Texts.{IsFirstPart};

use rules::{Call, Line, PLACES, Span, Tick};
use std::fmt;
use table::{LineList, TaskTable};

// ---- parts of a text

// The parts of a text, each up to the byte that ends it. Behind the last such byte stands a part only where there is something.
#[derive(Drop)]
pub struct Parts<'a> {
    rest: &'a [u8],
    end: u8,
}

pub fn split(text: &[u8], end: u8) -> Parts<'_>
    ensures rest { result.rest.now ≡ text.now }
    ensures end { result.end ≡ end }
{
    Parts { rest: text, end }
}

impl<'a> Iterator for Parts<'a> {
    type Item = &'a [u8];

    ghost next_gives = { λ s r t. (t.end ≡ s.end) × MatchOption r (length s.rest.now ≡ 0) (λ x. (0 < length s.rest.now) × IsFirstPart s.end s.rest.now x.now t.rest.now) };

    ghost remaining = { λ s. at_most (length s.rest.now) };

    fn next(&mut self) -> Option<&'a [u8]> {
        let rest = self.rest;
        if rest.is_empty() {
            return None;
        }
        let (part, rest) = first_part(rest, self.end);
        self.rest = rest;
        Some(part)
    }
}

// The first place that holds this byte, if one does.
fn place_of(text: &[u8], b: u8) -> Option<usize>
    ensures { result ≡ position (λ x. x == b) text.now }
{
    text.iter().position(|x| *x == b)
}

// What stands before the first such byte, all where there is none; and what stands behind it.
fn first_part(text: &[u8], end: u8) -> (&[u8], &[u8])
    ensures { IsFirstPart end text.now result.0.now result.1.now }
{
    match place_of(text, end) {
        Some(n) => (&text[..n], behind(text, n + 1)),
        None => (text, behind(text, text.len())),
    }
}

// The first place from here on that holds this byte; the text's end where none does, and no Option: a part ends there, too.
pub fn find(text: &[u8], from: usize, b: u8) -> usize
    requires { from ≤ length text.now }
    ensures { (from ≤ result) × (result ≤ length text.now) }
{
    match place_of(&text[from..], b) {
        Some(n) => from + n,
        None => text.len(),
    }
}

// What stands from a place on; nothing past the end.
pub fn behind(text: &[u8], at: usize) -> &[u8]
    ensures { result.now ≡ drop at text.now }
{
    &text[at.min(text.len())..]
}

// The byte at a place; 0 past the end, and no Option: no word has a 0.
pub fn byte_at(text: &[u8], at: usize) -> u8 {
    text.get(at).copied().unwrap_or(0)
}

// ---- numbers

// A number with one more digit. From 18,446,744,073,709,551,610 on, numbers read as the greatest that 64 bits hold, so it is no
// `saturating_mul`.
fn with_digit(value: u64, digit: u8) -> u64
    requires { digit ≤ 9 }
{
    if value < u64::MAX / 10 {
        value * 10 + u64::from(digit)
    } else {
        u64::MAX
    }
}

// What stands from the first digit on.
fn digits(text: &[u8]) -> &[u8] {
    let n = text.iter().position(|b| b.is_ascii_digit());
    behind(text, n.unwrap_or(text.len()))
}

// The first number of a text, 0 where there is none (the runs' words read so); and what stands behind it.
pub fn number(text: &[u8]) -> (u64, &[u8]) {
    let text = digits(text);
    let mut value = 0;
    for (i, b) in text.iter().enumerate() {
        match b {
            b'0'..=b'9' => value = with_digit(value, *b - b'0'),
            _ => return (value, &text[i..]),
        }
    }
    (value, &text[text.len()..])
}

// A number that is held in a byte; those above 255 read as 255.
fn small(n: u64) -> u8 {
    u8::try_from(n).unwrap_or(u8::MAX)
}

// ---- calls

// The letter that tells a call: its first one, or its second where that is a t. (A letter and no word: a text that only begins so is read so.)
fn letter(text: &[u8]) -> u8 {
    match text {
        [b't', second, ..] => *second,
        [first, ..] => *first,
        [] => 0,
    }
}

// 'activate 0 at 5', 'chain 0 at 5', 'terminate at 5', 'tick at 5': the call that a text starts with.
pub fn call_of(text: &[u8]) -> Call {
    let (first, rest) = number(text);
    let (second, _) = number(rest);
    match letter(text) {
        b'a' => Call::Activate(Tick(second), small(first)),
        b'c' => Call::Chain(Tick(second), small(first)),
        b'e' => Call::Terminate(Tick(first)),
        _ => Call::Wait(Tick(first)),
    }
}

// 'why 2': the task that a text names.
pub fn task_of(text: &[u8]) -> u8 {
    small(number(text).0)
}

// ---- tables

// How many lines have a place here: as many as a table on tape has at most.
const MOST: usize = 255;

// Lines by their places, and how many there are.
pub type Lines = LineList<MOST>;

// One more line; from 256 lines on nothing changes. (`LineList::copied` counts no line that has no place.)
fn put_line(told: &mut Lines, line: Line) {
    if told.count <= MOST {
        if told.count < MOST {
            told.lines[told.count] = line;
        }
        told.count += 1;
    }
}

// '3 12 2': a line by its D, priority and limit; '32x 3 12 2': 32 such lines; words with no number behind them: none.
fn put_entry(told: &mut Lines, text: &[u8]) {
    let text = digits(text);
    if text.is_empty() {
        return;
    }
    let (times, rest) = number(text);
    match rest {
        [b'x', ..] => {
            let line = line_of(rest);
            for _ in 0..times {
                put_line(told, line);
            }
        }
        _ => put_line(told, line_of(text)),
    }
}

// D, priority and limit of a line.
fn line_of(text: &[u8]) -> Line {
    let (deadline, rest) = number(text);
    let (priority, rest) = number(rest);
    let (limit, _) = number(rest);
    Line {
        deadline: Span(deadline),
        priority: small(priority),
        limit: small(limit),
    }
}

// The lines of a text, with commas between them. Numbers that an entry lacks are those of the next.
pub fn lines_of(text: &[u8]) -> Lines {
    let mut told = Lines {
        lines: [Line::default(); MOST],
        count: 0,
    };
    // by what is left, not by parts: an entry may go on behind its comma
    let mut rest = text;
    while !rest.is_empty() {
        put_entry(&mut told, rest);
        rest = first_part(rest, b',').1;
    }
    told
}

// The lines of a text as a table: the first 32, and how many there are.
pub fn table_of(text: &[u8]) -> TaskTable {
    let told = lines_of(text);
    let mut lines = [Line::default(); PLACES];
    lines.copy_from_slice(&told.lines[..PLACES]);
    TaskTable {
        lines,
        count: told.count,
    }
}

// ---- bytes

// How many bytes a tape or a buffer of a run has at most.
pub const ROOM: usize = 65537;

// Bytes put one behind the other, as far as there is room; an array, since there is no heap. (A `print::Page` speaks of any place, a room of none behind its end.)
#[derive(Drop)]
pub struct Room<const N: usize> {
    pub bytes: [u8; N],
    pub len: usize,
    ghost in_range: { len ≤ N },
}

impl<const N: usize> Room<N> {
    pub fn new() -> Self
        ensures { result.len ≡ 0 }
    {
        Room {
            bytes: [0; N],
            len: 0,
        }
    }

    pub fn as_slice(&self) -> &[u8]
        ensures { result.now ≡ take self.now.len self.now.bytes }
    {
        &self.bytes[..self.len]
    }

    pub fn push(&mut self, b: u8)
        ensures bytes { take self.new.len self.new.bytes ≡ take N (take self.old.len self.old.bytes ++ b ∷ []) }
        ensures len { self.new.len ≡ min (self.old.len + 1) N }
    {
        if self.len < N {
            self.bytes[self.len] = b;
            self.len += 1;
        }
    }

    // Bytes one behind the other.
    #[tactic(auto, using(crate::proofs::Rooms::one_more))]
    pub fn extend(&mut self, bytes: &[u8])
        ensures bytes { take self.new.len self.new.bytes ≡ take N (take self.old.len self.old.bytes ++ bytes.now) }
        ensures len { self.new.len ≡ min (self.old.len + length bytes.now) N }
    {
        for b in bytes {
            self.push(*b);
        }
    }

    // 'EE', '12*EE': the byte that a word ends in. A word of one letter is no byte.
    fn word(&mut self, word: &[u8])
        ensures { self.old.len ≤ self.new.len }
    {
        if let [.., high, low] = word {
            let b = hex_digit(*high) * 16 + hex_digit(*low);
            let more = times(word).min((N - self.len) as u64) as usize;
            let room = &mut self.bytes[..];
            room[self.len..self.len + more].fill(b);
            self.len += more;
        }
    }

    // The bytes of the words that begin in a part of a text, with spaces between them.
    pub fn words(&mut self, text: &[u8], from: usize, to: usize)
        requires { to ≤ length text.now }
        ensures { self.old.len ≤ self.new.len }
    {
        if from < to {
            let end = find(text, to - 1, b' ');
            for word in split(&text[from..end], b' ') {
                self.word(word);
            }
        }
    }
}

impl<const N: usize> fmt::Write for Room<N> {
    ghost write_str_gives = { λ before text after. take after.len after.bytes ≡ take N (take before.len before.bytes ++ text) };

    fn write_str(&mut self, s: &str) -> fmt::Result {
        self.extend(s.as_bytes());
        Ok(())
    }
}

// What a hexadecimal digit stands for. (Any other byte stands for something as well, so `char::to_digit` is none of it.)
fn hex_digit(b: u8) -> u8
    ensures { result ≤ 15 }
{
    (b % 16 + b / 64 * 9) % 16
}

// '12*EE': how often; once where it is not said.
fn times(word: &[u8]) -> u64 {
    if word.contains(&b'*') {
        number(word).0
    } else {
        1
    }
}
