// What a failed code does to an end.
ghost use Rattle.std.specs.Prelude.{◌≡◌, ◌≤◌};
ghost use Rattle.ends.specs.Holding.{held, with_places};
ghost use Rattle.ends.specs.Checks.{last_time};
ghost use Rattle.ends.specs.Steps.{soon, emptied, failing};

use ends::{CodedSuites, PAIRWISE_PLACES, State};

// in milliseconds
const MINUTE: u64 = 60_000;

// Whether a code failed within a minute before this time, or after it.
fn is_soon(state: &State, time: u64) -> bool
    ensures { result ≡ soon time (held state.now).failure }
{
    state
        .last_failure
        .is_some_and(|failure| time < MINUTE || time - MINUTE < failure)
}

// Empties each place whose suite has a code.
fn empty(state: &mut State, coded: CodedSuites)
    ensures { held state.new ≡ with_places (held state.old) (emptied coded (held state.old).at) }
{
    let (pairwise, group) = state.slots.split_at_mut(PAIRWISE_PLACES);
    if coded.pairwise {
        pairwise.fill(None);
    }
    if coded.group {
        group.fill(None);
    }
}

// Records a code that failed at this time. A second within a minute begins a block: whether it did.
// Kept: state, suites and time one by one: `admit` reads the state and `fail` changes it, so one struct serves not both.
pub fn fail(state: &mut State, coded: CodedSuites, time: u64) -> bool
    requires { time ≤ last_time }
    ensures answer { result ≡ soon time (held state.old).failure }
    ensures holds { held state.new ≡ failing coded (held state.old) time }
{
    let soon = is_soon(state, time);
    state.last_failure = Some(time);
    if soon {
        state.block_end = Some(time + MINUTE);
        empty(state, coded);
    }
    soon
}
