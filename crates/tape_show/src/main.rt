// A tape from standard input shown as a text on standard output.
#![tactic(auto)]

fn main() {
    streams::tape_program(words::show);
}
