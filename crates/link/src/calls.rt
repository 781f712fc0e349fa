// Make, install and remove. No call of a link end asks anything of its caller: what it cannot use it refuses.
ghost use Rattle.std.specs.Prelude.{◌≡◌, ◌≤◌};
ghost use Rattle.ends.specs.Places.{Suites, Keep, suites, suite_at};
ghost use Rattle.ends.specs.Calls.{installing, told};
ghost use Rattle.ends.specs.Calls.Call.{Install, Remove};
ghost use Rattle.ends.specs.Calls.Answer.{Granted};
ghost use Rattle.ends.specs.Checks.{first};
ghost use Rattle.ends.specs.Installs.{new, make_checks, if_granted};
ghost use Rattle.ends.specs.Steps.{IsStep, no_memories, RefusalsChangeNothing};
ghost use Rattle.ends.specs.declared.roles.Role.TheVariants.{Logger};
ghost use Rattle.laws.specs.Laws.{CountersOfFramesDiffer, CountersOfDeliveriesRise, RefusedCallsLeaveNoTrace, SentMessagesAreDelivered};
ghost use Rattle.link.specs.Whole.{held_by, no_address, HasSuites, SameSuites};

use crate::link_ends::LinkEnd;
use ends::{InstallRequest, Place, Refusal, Role, State};
use frame::Address;
use laws::laws_of_runs;
use suite::{Sizes, Suite};

// The sizes of the suite that a place stands over.
fn sizes_at<P: Suite, G: Suite>(place: Place) -> Sizes
    ensures value { result ≡ (suite_at (suites P.Suite.means G.Suite.means) place).sizes }
    ensures key { result.key ≤ 32 }
{
    match place {
        Place::Pairwise(_) => P::sizes(),
        Place::Group(_) => G::sizes(),
    }
}

impl<P: Suite, G: Suite> LinkEnd<P, G> {
    // An end that is not made yet: a logger with no address and nothing installed.
    pub fn blank(pairwise_suite: P, group_suite: G) -> LinkEnd<P, G>
        ensures suites { HasSuites pairwise_suite group_suite result }
        ensures holds { held_by result ≡ new Logger no_address }
    {
        LinkEnd {
            pairwise_suite,
            group_suite,
            state: State::new(Role::Logger, Address { octets: [0; 6] }),
        }
    }

    // Makes this end a new one, whatever it held. Every run of calls begins here, so the laws over runs stand here.
    pub fn make(&mut self, role: Role, own: &Address) -> Result<(), Refusal>
        ensures answered { result ≡ first (make_checks own.now) tt }
        ensures holds { held_by self.new ≡ if_granted result (new role own.now) (held_by self.old) }
        ensures suites { SameSuites self.old self.new }
        ensures refusals_change_nothing { RefusalsChangeNothing (suites P.Suite.means G.Suite.means) }
        ensures counters_differ { CountersOfFramesDiffer (suites P.Suite.means G.Suite.means) }
        ensures deliveries_rise { CountersOfDeliveriesRise (suites P.Suite.means G.Suite.means) }
        ensures refusals_leave_no_trace { RefusedCallsLeaveNoTrace (suites P.Suite.means G.Suite.means) }
        ensures delivered_as_sent { (T : Suites) → Keep T → SentMessagesAreDelivered (suites P.Suite.means G.Suite.means) T }
        ensures sent_to_here { (T : Suites) → Keep T → SentMessagesAreDelivered T (suites P.Suite.means G.Suite.means) }
    {
        laws_of_runs::<P, G>();
        installing::make(&mut self.state, role, own)
    }

    // Installs a key in a place, under the far end's address, or the base's for a group. The time is in milliseconds.
    pub fn install(
        &mut self,
        place: Place,
        key: &[u8],
        address: &Address,
        start: u64,
        time: u64,
    ) -> Result<(), Refusal>
        ensures step { IsStep (suites P.Suite.means G.Suite.means) (held_by self.old) (Install (installing place key.now address.now start time)) (told (λ _. Granted) result) (held_by self.new) no_memories }
        ensures suites { SameSuites self.old self.new }
    {
        let sizes = sizes_at::<P, G>(place);
        let request = InstallRequest {
            place,
            key,
            address: *address,
            start,
            time,
        };
        installing::install(&mut self.state, &sizes, &request)
    }

    // Empties a place.
    pub fn remove(&mut self, place: Place) -> Result<(), Refusal>
        ensures step { IsStep (suites P.Suite.means G.Suite.means) (held_by self.old) (Remove place) (told (λ _. Granted) result) (held_by self.new) no_memories }
        ensures suites { SameSuites self.old self.new }
    {
        installing::remove(&mut self.state, place)
    }
}
