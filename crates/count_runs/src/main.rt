// The counts: they stand still at 4294967295, and the greatest response is kept. Nobody makes that many calls, so monitors are set close to it.
#![tactic(auto)]

use monitor::{Ended, Monitor};
use print::Page;
use rules::{Late, PLACES, Tally};
use std::fmt::Write;

fn one_more(count: u32) {
    let mut page = Page::new();
    let _ = write!(page, "{count} and one more -> {}", monitor::up(count));
    show::send(&mut page);
}

// The same tally for every task.
fn set(late: u32, ended: u32, response: u64) -> Monitor {
    Monitor {
        tallies: [Tally {
            late,
            ended,
            response,
        }; PLACES],
    }
}

// Newly late jobs of one task.
fn late(mut monitor: Monitor, jobs: u8, task: u8) -> Monitor {
    monitor.count_late(Late {
        count: jobs,
        tasks: [task; PLACES],
    });
    monitor
}

// An ended job of a task, with its response.
fn ended(mut monitor: Monitor, task: u8, response: u64) -> Monitor {
    monitor.count_ended(Ended { task, response });
    monitor
}

// What is counted of the first task and the last.
fn shown(text: &[u8], monitor: Monitor) {
    let [first, .., last] = monitor.tallies;
    let mut page = Page::new();
    page.words(text);
    page.words(b" -> ");
    show::tally(&mut page, first);
    page.words(b", ");
    show::tally(&mut page, last);
    show::send(&mut page);
}

fn counts() {
    show::heading(b"a count and one more");
    for count in [0, 1, 4294967293, 4294967294, 4294967295] {
        one_more(count);
    }
}

fn late_jobs() {
    show::heading(b"late jobs");
    let m = set(4294967293, 5, 7);
    shown(b"set", m);
    let m = late(m, 0, 0);
    shown(b"no late job", m);
    let m = late(m, 1, 0);
    shown(b"one of task 0", m);
    let m = late(m, 1, 0);
    shown(b"one of task 0", m);
    let m = late(m, 1, 0);
    shown(b"one of task 0", m);
    let m = late(m, 2, 0);
    shown(b"two of task 0", m);
}

fn many_late_jobs() {
    show::heading(b"32 late jobs in one call");
    let m = set(4294967263, 5, 7);
    shown(b"set", m);
    let m = late(m, 32, 31);
    shown(b"32 of task 31", m);
    let m = late(m, 32, 31);
    shown(b"32 of task 31", m);
    let m = late(m, 31, 0);
    shown(b"31 of task 0", m);
    let m = late(m, 32, 0);
    shown(b"32 of task 0", m);
}

fn ended_jobs() {
    show::heading(b"ended jobs and the greatest response");
    let m = set(5, 4294967292, 7);
    shown(b"set", m);
    let m = ended(m, 0, 6);
    shown(b"one of task 0, response 6", m);
    let m = ended(m, 0, 7);
    shown(b"one of task 0, response 7", m);
    let m = ended(m, 0, 8);
    shown(b"one of task 0, response 8", m);
    let m = ended(m, 0, 0);
    shown(b"one of task 0, response 0", m);
}

fn greatest_response() {
    show::heading(b"the greatest response has no stop, also where the count stands still");
    let m = set(5, 4294967295, 8);
    shown(b"set", m);
    let m = ended(m, 31, 9);
    shown(b"one of task 31, response 9", m);
    let m = ended(m, 31, 4611686018427387903);
    shown(b"one of task 31, response 4611686018427387903", m);
    let m = ended(m, 31, 9);
    shown(b"one of task 31, response 9", m);
}

fn main() {
    show::say(
        b"what happens -> late jobs, ended jobs and greatest response of task 0, then of task 31",
    );
    counts();
    late_jobs();
    many_late_jobs();
    ended_jobs();
    greatest_response();
}
