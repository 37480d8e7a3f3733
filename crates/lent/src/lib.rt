// For programs, which hold a table's lines and a state by value: they are lent to the board's check, its table writer and its calls, and come back.
#![tactic(auto)]

ghost use Rattle.std.specs.Prelude.{◌≡◌};
ghost use Rattle.rules.specs.declared.Call.TheVariants.{Wait, Activate, Terminate, Chain};
ghost use Rattle.rules.specs.Tape.{TableWrote};
ghost use Rattle.tape.specs.Tables.{given_lines};
ghost use Rattle.scheduler.specs.State.{Handed, CheckGives, CallGives, why_of};

use rules::{Call, CallRefusal, Line, PLACES, Reason, TapeRefusal, Tick};
use scheduler::{Checked, State, Stepped};
use table::{LineList, TaskTable};
use tape::MOST_LINES;

// ---- the check

// The check of a table, as `scheduler::check`. Up to 32 lines are lent; of more the count alone decides, so any 33 are.
pub fn check(given: TaskTable) -> Checked
    ensures { CheckGives given result }
{
    if given.count <= PLACES {
        return board::check(&given.lines[..given.count]);
    }
    board::check(&[Line::default(); 33])
}

// ---- the table on tape

// The table, as `tape::write_table`. Up to 255 lines are lent; of more the count alone decides, so any 256 are.
pub fn write_table(table: LineList<MOST_LINES>, buf: &mut [u8]) -> Result<usize, TapeRefusal>
    ensures { TableWrote (given_lines table.lines table.count) buf.old result buf.new }
{
    let count = table.count;
    if count <= MOST_LINES {
        return board::write_table(&table.lines[..count], buf);
    }
    board::write_table(&[Line::default(); 256], buf)
}

// ---- the calls: alike but for the call of the board that each makes; one function over a closure would be as long at each. `Handed` stands at each, as in `board`

// As `board::tick`, on a state that is lent to it and comes back.
pub fn tick(mut s: State, at: Tick) -> Stepped
    requires { Handed s }
    ensures { CallGives s (Wait at) result }
{
    let answer = board::tick(&mut s, at);
    Stepped { state: s, answer }
}

// As `board::activate`.
pub fn activate(mut s: State, at: Tick, task: u8) -> Stepped
    requires { Handed s }
    ensures { CallGives s (Activate at task) result }
{
    let answer = board::activate(&mut s, at, task);
    Stepped { state: s, answer }
}

// As `board::terminate`.
pub fn terminate(mut s: State, at: Tick) -> Stepped
    requires { Handed s }
    ensures { CallGives s (Terminate at) result }
{
    let answer = board::terminate(&mut s, at);
    Stepped { state: s, answer }
}

// As `board::chain`.
pub fn chain(mut s: State, at: Tick, task: u8) -> Stepped
    requires { Handed s }
    ensures { CallGives s (Chain at task) result }
{
    let answer = board::chain(&mut s, at, task);
    Stepped { state: s, answer }
}

// Any of the four. (The arms of `scheduler::call`, over the functions above.)
pub fn call(s: State, call: Call) -> Stepped
    requires { Handed s }
    ensures { CallGives s call result }
{
    match call {
        Call::Wait(at) => tick(s, at),
        Call::Activate(at, task) => activate(s, at, task),
        Call::Terminate(at) => terminate(s, at),
        Call::Chain(at, task) => chain(s, at, task),
    }
}

// ---- the question

// As `board::why`, on a state that is lent to it.
pub fn why(s: State, task: u8) -> Result<Reason, CallRefusal>
    requires { Handed s }
    ensures { result ≡ why_of s task }
{
    board::why(&s, task)
}
