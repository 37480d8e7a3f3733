// The numbers of a program's three streams, as every program finds them; and the programs over a tape and over a text.
#![tactic(auto)]

use tape::MOST_BYTES;

pub const STDIN_FILENO: i32 = 0;

pub const STDOUT_FILENO: i32 = 1;

pub const STDERR_FILENO: i32 = 2;

// Says on standard error that standard output did not take all, where it did not.
pub fn tell(took_all: bool) {
    if !took_all {
        io::write_all(STDERR_FILENO, b"standard output takes no more\n");
    }
}

// Reads a tape from standard input, and prints by a function that says whether standard output took all.
pub fn tape_program<F: FnOnce(&[u8]) -> bool>(print: F)
    requires { F.IsAlwaysCallable print }
{
    // one byte more than a tape has, so that a longer one shows
    let mut tape = [0u8; MOST_BYTES + 1];
    let n = io::read_full(STDIN_FILENO, &mut tape);
    tell(print(&tape[..n]));
}

// Reads a text from standard input, and runs it.
pub fn text_program<F: FnOnce(&[u8])>(run: F)
    requires { F.IsAlwaysCallable run }
{
    let mut text = io::large_buffer();
    let n = io::read_full(STDIN_FILENO, &mut text);
    run(&text[..n]);
}
