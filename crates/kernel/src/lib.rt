// A model of the kernel's dispatcher: of the released jobs the highest priority runs, and within it the first released.
#![tactic(auto)]

ghost use Rattle.std.specs.Prelude.{◌≡◌};
ghost use Rattle.jobs.specs.Listed.{view};
ghost use Rattle.kernel.specs.Dispatch.{takes_over, better_of, dispatch_of};
ghost use Rattle.kernel.specs.Claims.{Claims};

use jobs::JobList;
use rules::{Job, PLACES, Phase};
use table::TaskTable;

// The best job so far: where it stands, if there is one, and its priority. No Option of both: `no_best` of specs/Dispatch has a priority, too, the lowest.
#[derive(Clone, Copy)]
struct Best {
    found: Option<usize>,
    top: u8,
}

// Whether a released job takes over from the best so far: it is at least as high, and what stands further back in the list was released earlier.
fn takes_over(priority: u8, top: u8) -> bool
    ensures { result ≡ takes_over priority top }
{
    top <= priority
}

// The best so far, after one job more.
fn better(table: TaskTable, at: usize, best: Best, job: Job) -> Best
    ensures { result ≡ better_of table.lines at best job }
{
    match job.phase {
        Phase::Delayed => best,
        Phase::Released => {
            let line = table::line_of(table, job.task);
            if takes_over(line.priority, best.top) {
                Best {
                    found: Some(at),
                    top: line.priority,
                }
            } else {
                best
            }
        }
    }
}

// The job that the kernel runs, by its place in the list.
pub fn dispatch(list: JobList, table: TaskTable) -> Option<usize>
    ensures { result ≡ dispatch_of table.lines (view list) }
{
    let n = list.count.min(PLACES);
    let mut best = Best {
        found: None,
        top: 0,
    };
    for (i, job) in list.jobs[..n].iter().enumerate() {
        best = better(table, i, best, *job);
    }
    best.found
}

// Does nothing. Its contract is all of specs/Claims, so that a claim without a proof fails the check.
pub fn kernel_holds()
    ensures { Claims }
{}
