// What becomes of joined pieces at their place: held, delivered or failed.
ghost use Rattle.std.specs.Prelude.{◌≡◌, ℕ, ◌+◌, ◌<◌, ◌≤◌, false, length, Some};
ghost use Rattle.ends.specs.Holding.{filling, filled};
ghost use Rattle.ends.specs.Checks.{then, or_refuse, settled};
ghost use Rattle.ends.specs.Arrivals.{direction_to, destination_in, source_in, code_agrees, completed, at_place};
ghost use Rattle.ends.specs.declared.refusals.Refusal.TheVariants.{NoMatch};
ghost use Rattle.arriving.specs.Outcomes.{Takes};
ghost use Rattle.arriving.specs.declared.completing.Failure.TheVariants.{Refused};

use crate::incoming::Hearing;
use crate::pieces::key_for;
use ends::{Arrived, Delivery, Installation, Refusal, Role};
use frame::{Header, Heading};
use octets::same;
use suite::{Direction, Suite};

// Why a place takes in no piece.
#[derive(Clone, Copy, PartialEq, Eq, Debug)]
pub enum Failure {
    Refused(Refusal),
    // the code is not that of the message: the end still has to record it
    CodeFailed,
}

// Kept: a derived `From` has no contract, and clauses name the failure that `?` makes (`from_gives`).
impl From<Refusal> for Failure {
    ghost from_gives = { λ r f. f ≡ Refused r };

    fn from(refusal: Refusal) -> Failure {
        Failure::Refused(refusal)
    }
}

// The direction from which an end of this role hears.
// Kept: beside `direction` of sending, which has the two the other way round. One function of the role and of the way would be
// no plainer: it would match on both, for one call of each kind.
fn direction_to(role: Role) -> Direction
    ensures { result ≡ direction_to role }
{
    match role {
        Role::Base => Direction::FromLogger,
        Role::Logger => Direction::FromBase,
    }
}

// Whom a message goes to and whom it comes from, as an end of this role reads them. It carries no priority.
fn heading_in(role: Role, header: &Header) -> Heading
    ensures destination { result.destination ≡ destination_in role header.now }
    ensures source { result.source ≡ source_in role header.now }
    ensures priority { result.priority ≡ 0 }
{
    let (destination, source) = match role {
        Role::Base => (header.address3, header.address2),
        Role::Logger => (header.address1, header.address3),
    };
    Heading {
        destination,
        source,
        priority: 0,
    }
}

impl<S: Suite> Hearing<'_, S> {
    // Whether the last octets are the code of those before them. The code is reckoned in lent memory.
    fn code_agrees(&self, installation: &Installation, whole: &[u8], code: &mut [u8]) -> bool
        requires code { length code.old ≡ S.Suite.means.sizes.code }
        requires whole { length code.old ≤ length whole.now }
        ensures { result ≡ code_agrees S.Suite.means self.now.role (filling installation.now) self.now.incoming.header.now whole.now }
    {
        let size = whole.len() - code.len();
        let heading = heading_in(self.role, self.incoming.header);
        self.suite.code(
            key_for::<S>(installation),
            direction_to(self.role),
            &heading,
            &whole[..size],
            code,
        );
        same(code, &whole[size..])
    }

    // Holds the joined pieces while more are to come. Otherwise delivers the message, or drops it where its code fails.
    fn complete(
        &self,
        installation: &mut Installation,
        whole: &[u8],
        code: &mut [u8],
        message: &mut [u8],
    ) -> Result<Arrived, Failure>
        requires most { length whole.now ≤ 2304 + S.Suite.means.sizes.code }
        requires least { self.now.incoming.header.now.more_fragments ≡ false → S.Suite.means.sizes.code < length whole.now }
        requires code { length code.old ≡ S.Suite.means.sizes.code }
        requires memory { 2304 ≤ length message.old }
        ensures { (time : ℕ) → Takes (completed S.Suite.means self.now.role self.now.incoming.place (filling installation.old) self.now.incoming.header.now self.now.incoming.counter time whole.now) (Some (filling installation.old)) (Some (filling installation.new)) message.old message.new result }
    {
        let incoming = self.incoming;
        let header = incoming.header;
        if header.more_fragments {
            incoming.hold(installation, whole);
            return Ok(Arrived::Held(incoming.place, header.fragment));
        }
        let length = whole.len() - code.len();
        let agrees = self.code_agrees(installation, whole, code);
        installation.partial = None;
        if !agrees {
            return Err(Failure::CodeFailed);
        }
        message[..length].copy_from_slice(&whole[..length]);
        installation.replay = incoming.counter;
        let heading = heading_in(self.role, header);
        Ok(Arrived::Delivered(Delivery {
            place: incoming.place,
            destination: heading.destination.number(),
            source: heading.source.number(),
            counter: incoming.counter,
            length,
        }))
    }

    // What an installation makes of a frame.
    fn take(
        &self,
        installation: &mut Installation,
        working: &mut [u8],
        message: &mut [u8],
    ) -> Result<Arrived, Failure>
        requires room { 2560 ≤ length working.old }
        requires memory { 2304 ≤ length message.old }
        ensures { (time : ℕ) → Takes (settled (at_place S.Suite.means self.now.role self.now.incoming.place self.now.incoming.header.now self.now.incoming.frame.now self.now.incoming.counter time (filling installation.old))) (Some (filling installation.old)) (Some (filling installation.new)) message.old message.new result }
    {
        let size = self.gather(installation, working)?;
        let code = S::sizes().code;
        let (whole, rest) = working.split_at_mut(size);
        self.complete(installation, whole, &mut rest[..code], message)
    }

    // What a place, filled or not, makes of a frame.
    pub fn take_in(
        &self,
        slot: &mut Option<Installation>,
        working: &mut [u8],
        message: &mut [u8],
    ) -> Result<Arrived, Failure>
        requires room { 2560 ≤ length working.old }
        requires memory { 2304 ≤ length message.old }
        ensures { (time : ℕ) → Takes (settled (then (or_refuse NoMatch (filled slot.old)) (at_place S.Suite.means self.now.role self.now.incoming.place self.now.incoming.header.now self.now.incoming.frame.now self.now.incoming.counter time))) (filled slot.old) (filled slot.new) message.old message.new result }
    {
        let installation = slot.as_mut().ok_or(Refusal::NoMatch)?;
        self.take(installation, working, message)
    }
}
