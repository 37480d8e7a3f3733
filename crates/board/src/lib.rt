// What a board's code in Rattle calls: the check of lent lines, the calls on the scheduler state of a recorder head, updated where it stands, why a task waits, and the table of lent lines on tape.
// The bodies are thin: what they pass on is by value, and covered.
#![tactic(auto)]

ghost use Rattle.std.specs.Prelude.{◌≡◌};
ghost use Rattle.rules.specs.declared.Call.TheVariants.{Wait, Activate, Terminate, Chain};
ghost use Rattle.rules.specs.Tape.{TableWrote};
ghost use Rattle.scheduler.specs.State.{Handed, why_of};
ghost use Rattle.board.specs.Lent.{LinesChecked, Left};
ghost use Rattle.board.specs.Claims.{Claims};

use rules::{Answer, CallRefusal, Line, Reason, TapeRefusal, Tick};
use scheduler::{Checked, State};
use table::TaskTable;

// ---- the check

// The check of the lent lines, as they are: a fresh state is handed out if it gives 0. Of more than 32 lines none is read.
pub fn check(lines: &[Line]) -> Checked
    ensures { LinesChecked lines.now result }
{
    scheduler::check(TaskTable::copied(lines))
}

// ---- the calls: alike but for the step that each makes; one function over a closure would be as long at each. `Handed` stands at each: what a refused check gives is a State, too

// Tick: time moves; no kernel call.
pub fn tick(s: &mut State, at: Tick) -> Answer
    requires { Handed s.old }
    ensures { Left s.old (Wait at) result s.new }
{
    let next = scheduler::tick(*s, at);
    *s = next.state;
    next.answer
}

// Activate: a new job of the task goes into the list. If it is first it is released by ActivateTask; otherwise no kernel call.
pub fn activate(s: &mut State, at: Tick, task: u8) -> Answer
    requires { Handed s.old }
    ensures { Left s.old (Activate at task) result s.new }
{
    let next = scheduler::activate(*s, at, task);
    *s = next.state;
    next.answer
}

// Terminate: the running job leaves the list. If the new first job is delayed it is released by ChainTask; otherwise TerminateTask.
pub fn terminate(s: &mut State, at: Tick) -> Answer
    requires { Handed s.old }
    ensures { Left s.old (Terminate at) result s.new }
{
    let next = scheduler::terminate(*s, at);
    *s = next.state;
    next.answer
}

// Chain: the running job leaves, the named task's job is inserted at the same tick, then as for terminate.
pub fn chain(s: &mut State, at: Tick, task: u8) -> Answer
    requires { Handed s.old }
    ensures { Left s.old (Chain at task) result s.new }
{
    let next = scheduler::chain(*s, at, task);
    *s = next.state;
    next.answer
}

// ---- the question

// Why a task's first pending job does or does not run. The state is only read.
pub fn why(s: &State, task: u8) -> Result<Reason, CallRefusal>
    requires { Handed s.now }
    ensures { result ≡ why_of s.now task }
{
    scheduler::why(*s, task)
}

// ---- the table on tape

// The table of the lent lines, from the buffer's first byte on: the count of its bytes, or the refusal. Of more than 255 lines none is read.
pub fn write_table(lines: &[Line], buf: &mut [u8]) -> Result<usize, TapeRefusal>
    ensures { TableWrote (record { lines = lines.now }) buf.old result buf.new }
{
    tape::write_lines(lines, buf)
}

// ---- what is claimed

// Does nothing. Its contract is all of specs/Claims, so that a claim without a proof fails the check.
pub fn board_holds()
    ensures { Claims }
{}
