// The program of document 01: a tape from standard input, and each decision to standard output.
#![tactic(auto)]

fn main() {
    streams::tape_program(transcript::write);
}
