// Ticks: the one sum of a tick and a length of time, and what is asked of ticks.
#![tactic(auto)]

ghost use Rattle.std.specs.Prelude.{◌≡◌, ◌+◌, ◌≤◌};
ghost use Rattle.rules.specs.Table.{greatest, plus};
ghost use Rattle.rules.specs.Calls.{bad_tick};
ghost use Rattle.rules.specs.Late.{is_past};
ghost use Rattle.ticks.specs.Ticks.{sum, is_beyond, response_by};

use rules::{Span, Tick};

// The greatest tick.
pub const GREATEST: u64 = 4611686018427387903;

// The tick after the greatest, which no call may have.
const BEYOND: u64 = GREATEST + 1;

// A tick and a length of time (a relative deadline, a record's ticks), added: the one place where that is done. Past the greatest tick it gives the tick after that.
pub fn plus(at: Tick, deadline: Span) -> Tick
    ensures { result ≡ sum at deadline }
{
    Tick(at.0.saturating_add(deadline.0).min(BEYOND))
}

// Above the greatest tick: 9 of a call, 23 of a record's ticks.
pub fn is_beyond(due: Tick) -> bool
    ensures { result ≡ is_beyond due }
{
    GREATEST < due.0
}

// Below the last accepted call's (or the preceding record's) tick, or above the greatest tick: 8 of a call, 24 of a record.
pub fn bad_tick(last: Tick, at: Tick) -> bool
    ensures { result ≡ bad_tick last at }
{
    at < last || is_beyond(at)
}

// Whether a pending job with this deadline is late at a call at this tick: one at or above the deadline.
pub fn is_past(at: Tick, due: Tick) -> bool
    ensures { result ≡ is_past at due }
{
    due <= at
}

// The response of a job that ends at a tick: its relative deadline, and how long after its deadline it ends (or less how long before it).
// What it asks keeps the numbers within 64 bits.
pub fn response(at: Tick, due: Tick, deadline: Span) -> u64
    requires { (plus at deadline).0 ≤ greatest.0 + greatest.0 }
    ensures { result ≡ response_by at due deadline }
{
    if due.0 <= at.0 {
        let after = Span(at.0 - due.0);
        return after.0 + deadline.0;
    }
    let before = Span(due.0 - at.0);
    deadline.0.saturating_sub(before.0)
}
