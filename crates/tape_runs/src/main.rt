// Numbers, records and tables on tape, and whole tapes: the words are read from standard input.
#![tactic(auto)]

fn main() {
    streams::text_program(spool::lines);
}
