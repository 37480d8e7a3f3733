// Monitoring: what is counted of each task.
#![tactic(auto)]

ghost use Rattle.std.specs.Prelude.{◌≡◌, cond};
ghost use Rattle.rules.specs.Counts.{no_tallies, up, late_more, ended_more, on_task, with_late};
ghost use Rattle.monitor.specs.Tallies.{counts, tasks_of, with_end};

use rules::{Late, PLACES, Tally};

// A tally for each task number.
#[repr(C)]
#[derive(Clone, Copy)]
pub struct Monitor {
    pub tallies: [Tally; PLACES],
}

// An ended job: its task, and its response.
#[derive(Clone, Copy)]
pub struct Ended {
    pub task: u8,
    pub response: u64,
}

// One more, up to where counts stand still.
pub fn up(count: u32) -> u32
    ensures { result ≡ up count }
{
    count.saturating_add(1)
}

// One more late job.
fn late_more(tally: Tally) -> Tally
    ensures { result ≡ late_more tally }
{
    Tally {
        late: up(tally.late),
        ended: tally.ended,
        response: tally.response,
    }
}

// One more ended job, with its response.
fn ended_more(tally: Tally, response: u64) -> Tally
    ensures { result ≡ ended_more response tally }
{
    Tally {
        late: tally.late,
        ended: up(tally.ended),
        response: tally.response.max(response),
    }
}

impl Monitor {
    // Nothing counted yet.
    pub fn none() -> Monitor
        ensures { result ≡ counts no_tallies }
    {
        Monitor {
            tallies: [Tally {
                late: 0,
                ended: 0,
                response: 0,
            }; PLACES],
        }
    }

    // The newly late jobs are counted, each for its task.
    pub fn count_late(&mut self, late: Late)
        ensures { self.new ≡ counts (with_late (tasks_of late) self.old.tallies) }
    {
        let n = (late.count as usize).min(PLACES);
        for task in &late.tasks[..n] {
            let t = *task as usize;
            if t < PLACES {
                self.tallies[t] = late_more(self.tallies[t]);
            }
        }
    }

    // An ended job is counted.
    pub fn count_ended(&mut self, ended: Ended)
        ensures { self.new ≡ counts (with_end ended self.old.tallies) }
    {
        let t = ended.task as usize;
        if t < PLACES {
            self.tallies[t] = ended_more(self.tallies[t], ended.response);
        }
    }
}

// ---- by value

// The newly late jobs are counted, each for its task.
pub fn with_late(mut monitor: Monitor, late: Late) -> Monitor
    ensures { result ≡ counts (with_late (tasks_of late) monitor.tallies) }
{
    monitor.count_late(late);
    monitor
}

// A job of a task ended, with its response; where none did, nothing is counted.
pub fn with_ended(mut monitor: Monitor, ends: bool, task: u8, response: u64) -> Monitor
    ensures { result ≡ counts (cond ends (on_task task (ended_more response) monitor.tallies) monitor.tallies) }
{
    if ends {
        monitor.count_ended(Ended { task, response });
    }
    monitor
}
