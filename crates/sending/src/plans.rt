// How a message goes out: its plan, from the checks that granted it to the counters that it uses.
ghost use Rattle.std.specs.Prelude.{◌≡◌, ◌+◌, ◌^◌, ◌<◌, ◌≤◌, true, IfOk, OnOk};
ghost use Rattle.ends.specs.Places.{exists};
ghost use Rattle.ends.specs.Holding.{held, filled, filling};
ghost use Rattle.ends.specs.Sends.{destination_of, source_of, address1_of, address3_of, direction_from, plan_of, planned};
ghost use Rattle.sending.specs.Outgoings.{outgoing, Granted};
ghost use Rattle.sending.specs.Sent.{next_counter, used, having_sent};

use crate::asked::Asked;
use crate::checks::pieces;
use ends::{Installation, Place, Plan, Refusal, Role, State};
use frame::Address;
use suite::Direction;

// There are so many sequence numbers.
const SEQUENCE_NUMBERS: u16 = 4096;

// A granted send: its plan, and the key of its place with zeros beyond it.
#[derive(Clone, Copy)]
pub struct Outgoing {
    pub plan: Plan,
    // Kept: no heap, fixed memory: the longest key of a suite. How much of it is the key says the suite.
    pub key: [u8; 32],
}

// Where a message goes and where it comes from, and what its frames say of that beside the sender, Address 2: the
// receiver in Address 1, and in Address 3 what the other two leave out.
#[derive(Clone, Copy)]
struct Addressing {
    destination: Address,
    source: Address,
    address1: Address,
    address3: Address,
}

// The direction in which an end of this role sends.
// Kept: beside `direction_to` of arriving, which has the two the other way round. One function of the role and of the way would
// be no plainer: it would match on both, for one call of each kind. No `From`, which would hide that a role also hears.
pub fn direction(role: Role) -> Direction
    ensures { result ≡ direction_from role }
{
    match role {
        Role::Base => Direction::FromBase,
        Role::Logger => Direction::FromLogger,
    }
}

impl Asked<'_> {
    // A base sends pairwise to the place's far end; a logger speaks for itself.
    fn addressing(&self, installation: &Installation) -> Addressing
        ensures destination { result.destination ≡ destination_of self.now.state.now.role self.now.request.now.place self.now.request.now (filling installation.now) }
        ensures source { result.source ≡ source_of self.now.state.now.role self.now.state.now.own self.now.request.now }
        ensures address1 { result.address1 ≡ address1_of self.now.state.now.role result.destination (filling installation.now) }
        ensures address3 { result.address3 ≡ address3_of self.now.state.now.role result.destination result.source }
    {
        let Asked { state, request, .. } = self;
        match state.role {
            Role::Base => {
                let destination = if request.place.is_group() {
                    request.destination
                } else {
                    installation.address
                };
                Addressing {
                    destination,
                    source: request.source,
                    address1: destination,
                    address3: request.source,
                }
            }
            Role::Logger => Addressing {
                destination: request.destination,
                source: state.own,
                address1: installation.address,
                address3: request.destination,
            },
        }
    }

    // The plan of the message, under what fills its place.
    fn plan_of(&self, installation: &Installation) -> Plan
        requires size { self.now.lengths.message ≤ 2304 }
        requires cut { 1 ≤ self.now.request.now.piece_length }
        ensures { result ≡ plan_of self.now.sizes (held self.now.state.now) self.now.request.now self.now.lengths.message (filling installation.now) }
    {
        let Asked { state, request, .. } = self;
        let Addressing {
            destination,
            source,
            address1,
            address3,
        } = self.addressing(installation);
        Plan {
            role: state.role,
            key_id: request.place.key_id(),
            counter: installation.send,
            sequence: state.sequence % SEQUENCE_NUMBERS,
            destination,
            source,
            address1,
            address2: state.own,
            address3,
            piece_length: request.piece_length,
            count: pieces(self.lengths.message + self.sizes.code, request.piece_length),
        }
    }

    // The plan and the key of the send, or why it is refused.
    pub fn plan(&self) -> Result<Outgoing, Refusal>
        ensures value { result ≡ outgoing (planned self.now.sizes (held self.now.state.now) self.now.request.now self.now.lengths.message self.now.lengths.frames self.now.lengths.index self.now.lengths.working) }
        ensures there { OnOk result (exists self.now.request.now.place ≡ true) }
        ensures granted { IfOk result (λ o. Granted self.now.sizes (held self.now.state.now) self.now.request.now self.now.lengths.message self.now.lengths.frames self.now.lengths.index self.now.lengths.working o) }
    {
        self.check_request()?;
        let installation = self
            .state
            .slot(self.request.place)
            .ok_or(Refusal::PlaceEmpty)?;
        self.check_lengths()?;
        let plan = self.plan_of(installation);
        self.check_supply(plan.count, installation.send)?;
        Ok(Outgoing {
            plan,
            key: installation.key,
        })
    }
}

// So many frames were sent from a place.
pub fn note_sent(state: &mut State, place: Place, count: u64)
    requires there { exists place ≡ true }
    requires few { next_counter ((held state.old).at place) + count < 2 ^ 64 }
    ensures { held state.new ≡ having_sent (held state.old) place count }
{
    state.sequence = (state.sequence % SEQUENCE_NUMBERS + 1) % SEQUENCE_NUMBERS;
    if let Some(installation) = &mut state.slots[place.index()] {
        installation.send += count;
    }
}
