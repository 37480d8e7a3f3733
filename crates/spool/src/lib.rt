// Numbers, records and tables of a tape in words, each printed with what the reader or the writer answers. For runs only.
#![tactic(auto)]

ghost use Rattle.std.specs.Prelude.{◌≤◌, length};

use rules::{Call, Line, Taken, TapeRefusal, Tick};
use script::{Lines, ROOM, Room};
use streams::STDOUT_FILENO;
use tape::MOST_LINES;

// ---- answers in words

// A number, with a space in front.
fn number(n: u64) {
    show::put(b" ");
    io::print_decimal(STDOUT_FILENO, n);
}

// Words, and a number.
fn labelled(label: &[u8], n: u64) {
    show::put(label);
    number(n);
}

fn refused(refusal: TapeRefusal) {
    labelled(b" refused", u8::from(refusal) as u64);
}

fn next_place(next: usize) {
    labelled(b", next", next as u64);
}

// What a reader answers: its value in words, and the place behind it.
fn read<T, F: FnOnce(T)>(answer: Result<Taken<T>, TapeRefusal>, value_in_words: F)
    requires { F.IsAlwaysCallable value_in_words }
{
    match answer {
        Ok(taken) => {
            value_in_words(taken.value);
            next_place(taken.next);
        }
        Err(refusal) => refused(refusal),
    }
}

// D, priority and limit.
fn line(x: Line) {
    number(x.deadline.0);
    number(x.priority as u64);
    number(x.limit as u64);
}

// A call and its tick.
fn call(call: Call) {
    match call {
        Call::Wait(_) => {
            show::put(b" tick");
        }
        Call::Activate(_, task) => labelled(b" activate", task as u64),
        Call::Terminate(_) => {
            show::put(b" terminate");
        }
        Call::Chain(_, task) => labelled(b" chain", task as u64),
    }
    labelled(b" at", records::tick_of(call).0);
}

fn record(answer: Result<Option<Taken<Call>>, TapeRefusal>) {
    match answer.transpose() {
        Some(answer) => read(answer, call),
        None => {
            show::put(b" end");
        }
    }
}

// What a writer answers. Gives how far it went in so much room.
fn written(answer: Result<usize, TapeRefusal>, room: usize) -> usize
    ensures { result ≤ room }
{
    match answer {
        Ok(n) => {
            labelled(b" count", n as u64);
            n.min(room)
        }
        Err(refusal) => {
            refused(refusal);
            0
        }
    }
}

// What a buffer holds.
fn content(bytes: &[u8]) {
    show::put(b":");
    show::bytes(bytes);
}

// ---- lines that read

// The records from a place on, each with its place, to the end of the tape or a refusal. A tape has no more records than bytes.
fn records_from(tape: &[u8], from: usize) {
    let mut at = from;
    let mut preceding = Tick(0);
    for _ in 0..tape.len() + 1 {
        show::put(b";");
        number(at as u64);
        let answer = records::read_record(tape, at, preceding);
        record(answer);
        let Ok(Some(taken)) = answer else {
            return;
        };
        preceding = records::tick_of(taken.value);
        at = taken.next;
    }
}

// A whole tape: how many lines its table has, those that are kept, and the records behind it.
fn whole(tape: &[u8]) {
    match tape::read_table(tape) {
        Ok(taken) => {
            let table = taken.value;
            labelled(b" lines", table.count as u64);
            for x in table.lines.iter().take(table.count) {
                show::put(b";");
                line(*x);
            }
            next_place(taken.next);
            records_from(tape, taken.next);
        }
        Err(refusal) => refused(refusal),
    }
}

// What the first bytes of a buffer are read as: 'number at 1', 'count', 'line at 1', 'record at 1 after 3', 'tape'; or those bytes.
fn shown(text: &[u8], tape: &[u8]) {
    let (at, rest) = script::number(text);
    let at = at as usize;
    match script::byte_at(text, 0) {
        b'n' => read(number::read_number(tape, at), number),
        b'c' => read(tape::read_count(tape), number),
        b'l' => read(tape::read_line(tape, at), line),
        b'r' => record(records::read_record(tape, at, Tick(script::number(rest).0))),
        b't' => whole(tape),
        _ => content(tape),
    }
}

// ---- lines that write

// ' record activate 0 at 5 after 3'.
fn write_record(text: &[u8], buf: &mut [u8]) -> Result<usize, TapeRefusal> {
    let call = script::call_of(script::behind(text, 8));
    let after = script::find(text, 0, b'f');
    let (preceding, _) = script::number(&text[after..]);
    records::write_record(Tick(preceding), call, buf)
}

// ' number 300', a record, ' table 3 12 2, 5 11 2'.
fn write_one(text: &[u8], buf: &mut [u8]) -> Result<usize, TapeRefusal> {
    match script::byte_at(text, 1) {
        b'n' => number::write_number(script::number(text).0, buf),
        b'r' => write_record(text, buf),
        _ => { lent::write_table(script::lines_of(text), buf) }
    }
}

// What stands between semicolons is written to a buffer, one behind the other. Gives the place behind the last.
fn write_each(text: &[u8], buf: &mut [u8]) -> usize
    ensures { result ≤ length buf.old }
{
    let from = script::find(text, 0, b' ');
    let mut at = 0;
    for part in script::split(&text[from..], b';') {
        let answer = write_one(part, &mut buf[at..]);
        at += written(answer, buf.len() - at);
    }
    at
}

// '11 22 [ EE EE ] 33': what stands in brackets is lent.
fn write(text: &[u8], room: &mut Room<ROOM>) {
    let colon = script::find(text, 0, b':');
    let open = script::find(text, colon, b'[');
    let shut = script::find(text, open, b']');
    room.words(text, colon, open);
    let start = room.len;
    room.words(text, open, shut);
    let end = room.len;
    write_each(&text[..colon], &mut room.bytes[start..end]);
    room.words(text, shut, text.len());
}

// ---- lines that write and read

// How many lines of a table, read back one by one, are those that were written. (Counted on the way: each line's place comes from the one before it.)
fn agreeing(tape: &[u8], told: Lines) -> usize {
    let mut at = number::group_count(told.count as u64);
    let mut n = 0;
    for given in &told.lines[..told.count.min(MOST_LINES)] {
        let Ok(taken) = tape::read_line(tape, at) else {
            return n;
        };
        if taken.value == *given {
            n += 1;
        }
        at = taken.next;
    }
    n
}

// A tape that was written: all of it, and then the table's lines one by one.
fn back(text: &[u8], tape: &[u8]) {
    show::put(b";");
    whole(tape);
    labelled(b"; agree", agreeing(tape, script::lines_of(text)) as u64);
}

// ---- lines

// A line that is answered: 'w' writes and shows the buffer, 'b' writes and reads back, any other letter reads. (Letters and no words, here and above, as the lines are read.)
fn answered(text: &[u8]) {
    let mut room: Room<ROOM> = Room::new();
    match script::byte_at(text, 0) {
        b'w' => {
            write(text, &mut room);
            content(room.as_slice());
        }
        b'b' => {
            let n = write_each(text, &mut room.bytes);
            back(text, &room.bytes[..n]);
        }
        _ => {
            let colon = script::find(text, 0, b':');
            room.words(text, colon, text.len());
            shown(text, room.as_slice());
        }
    }
}

// A line of words. One that begins with a small letter is answered.
fn line_of(text: &[u8]) {
    show::put(text);
    if b'a' <= script::byte_at(text, 0) {
        show::put(b" ->");
        answered(text);
    }
    show::put(b"\n");
}

// The lines of a text.
pub fn lines(text: &[u8]) {
    for line in script::split(text, b'\n') {
        line_of(line);
    }
}
