// A text from standard input made into a tape on standard output; or one sentence on standard error.
#![tactic(auto)]

ghost use Rattle.std.specs.Prelude.{◌≡◌, length};

use streams::{STDERR_FILENO, STDIN_FILENO, STDOUT_FILENO};
use tape::MOST_BYTES;

// How many bytes a text has at most. That of any tape is shorter.
const MOST_TEXT: usize = 2097152;

// Room for a text, and one byte more.
fn room() -> [u8; MOST_TEXT + 1]
    ensures { 2097153 ≡ length result }
{
    [0; MOST_TEXT + 1]
}

// Makes a text into a tape, or says what is wrong with it. A tape goes out in one write.
fn answer(text: &[u8]) {
    let mut tape = [0u8; MOST_BYTES];
    match words::make(text, &mut tape) {
        Ok(n) => streams::tell(io::write_all(STDOUT_FILENO, &tape[..n])),
        Err(trouble) => words::say_fault(trouble),
    }
}

fn main() {
    let mut text = room();
    let n = io::read_full(STDIN_FILENO, &mut text);
    if MOST_TEXT < n {
        io::write_all(STDERR_FILENO, b"the text is longer than 2097152 bytes\n");
        return;
    }
    answer(&text[..n]);
}
