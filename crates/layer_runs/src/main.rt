// The check and the calls: the words are read from standard input.
#![tactic(auto)]

fn main() {
    streams::text_program(play::lines);
}
