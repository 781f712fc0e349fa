// A frame at an end.
// Kept: the two lent memories one by one, each function asking for their lengths, here and in completing.rt and joining.rt.
// No plainer: a struct of two `&mut` with the lengths as ghost fields would have to be taken apart and put together at
// each step, and each contract says what the message memory holds before and after.
ghost use Rattle.std.specs.Prelude.{◌≡◌, ℕ, ◌≤◌, true, length};
ghost use Rattle.ends.specs.Places.{exists};
ghost use Rattle.ends.specs.Holding.{held};
ghost use Rattle.ends.specs.Checks.{then, or_refuse, settled};
ghost use Rattle.ends.specs.Arrivals.{at_place, over_suite};
ghost use Rattle.ends.specs.Steps.{soon};
ghost use Rattle.ends.specs.declared.refusals.Refusal.TheVariants.{NoMatch};
ghost use Rattle.arriving.specs.Outcomes.{Took, Arrives, finished, recorded};

use crate::completing::Failure;
use crate::incoming::{Admitted, Hearing, Incoming};
use crate::pieces::body_of;
use admission::{fail, find_place};
use ends::{Arrived, Place, Refusal, State};
use suite::Suite;

impl<S: Suite> Hearing<'_, S> {
    // What a place of the end makes of a frame.
    fn take_at(
        &self,
        state: &mut State,
        working: &mut [u8],
        message: &mut [u8],
    ) -> Result<Arrived, Failure>
        requires exists { exists self.now.incoming.place ≡ true }
        requires room { 2560 ≤ length working.old }
        requires memory { 2304 ≤ length message.old }
        ensures { (time : ℕ) → Took self.now.incoming.place (settled (then (or_refuse NoMatch ((held state.old).at self.now.incoming.place)) (at_place S.Suite.means self.now.role self.now.incoming.place self.now.incoming.header.now self.now.incoming.frame.now self.now.incoming.counter time))) (held state.old) (held state.new) message.old message.new result }
    {
        let index = self.incoming.place.index();
        self.take_in(&mut state.slots[index], working, message)
    }
}

// What the end answers: it records a failed code, and refuses the frame for it.
fn finish(
    state: &mut State,
    admitted: &Admitted,
    place: Place,
    taken: Result<Arrived, Failure>,
) -> Result<Arrived, Refusal>
    ensures answer { result ≡ finished (soon admitted.now.time (held state.old).failure) place admitted.now.header.now.fragment taken }
    ensures holds { held state.new ≡ recorded admitted.now.coded (held state.old) admitted.now.time taken }
{
    let fragment = admitted.header.fragment;
    // Kept: tried as `map_err`, and the proof did not close: nothing is known of a state that its closure changes.
    match taken {
        Ok(arrived) => Ok(arrived),
        Err(Failure::Refused(refusal)) => Err(refusal),
        Err(Failure::CodeFailed) => {
            if fail(state, admitted.coded, admitted.time) {
                Err(Refusal::BlockBegun(place, fragment))
            } else {
                Err(Refusal::CodeFailed(place, fragment))
            }
        }
    }
}

// A frame that was admitted, over its suite. The working memory is left as it happens to be: its owner wipes it.
pub fn arrive_over<S: Suite>(
    suite: &S,
    state: &mut State,
    admitted: &Admitted,
    working: &mut [u8],
    message: &mut [u8],
) -> Result<Arrived, Refusal>
    requires room { 2560 ≤ length working.old }
    requires memory { 2304 ≤ length message.old }
    ensures { Arrives admitted.now.coded (settled (over_suite S.Suite.means (held state.old) admitted.now.header.now admitted.now.frame.now admitted.now.time)) (held state.old) (held state.new) message.old message.new result }
{
    let (counter, key_id) = suite.head(body_of(admitted.frame))?;
    let place = find_place(state, admitted.header, key_id)?;
    let hearing = Hearing {
        suite,
        role: state.role,
        incoming: Incoming {
            place,
            header: admitted.header,
            counter,
            frame: admitted.frame,
        },
    };
    let taken = hearing.take_at(state, working, message);
    finish(state, admitted, place, taken)
}
