// Q-1's program: a tape from standard input is run, and why each task waits goes to standard output.
#![tactic(auto)]

fn main() {
    streams::tape_program(reasons::write);
}
