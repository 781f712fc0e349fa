// Whether a piece is in turn.
ghost use Rattle.std.specs.Prelude.{◌≡◌, ◌+◌, [], ◌∷◌, Some, ◌==◌};
ghost use Rattle.ends.specs.Holding.{filling, part_in, same_address};
ghost use Rattle.ends.specs.Checks.{first};
ghost use Rattle.ends.specs.Arrivals.{all, continues, out_of_turn, turn_checks};

use crate::incoming::Incoming;
use ends::{Installation, Partial, Refusal};
use frame::Header;

fn follows(before: u64, after: u64) -> bool
    ensures { result ≡ (before + 1 == after) }
{
    before.checked_add(1) == Some(after)
}

// Kept: no plainer by a struct of three addresses: the header and the definitions name them one by one.
fn has_addresses(partial: &Partial, header: &Header) -> bool
    ensures { result ≡ all (same_address partial.now.address1 header.now.address1 ∷ same_address partial.now.address2 header.now.address2 ∷ same_address partial.now.address3 header.now.address3 ∷ []) }
{
    partial.address1 == header.address1
        && partial.address2 == header.address2
        && partial.address3 == header.address3
}

// Whether a later fragment goes on from a partial message.
fn continues(partial: &Partial, header: &Header, counter: u64) -> bool
    ensures { result ≡ continues (Some (part_in partial.now)) header.now counter }
{
    follows(u64::from(partial.fragment), u64::from(header.fragment))
        && follows(partial.counter, counter)
        && partial.sequence == header.sequence
        && has_addresses(partial, header)
}

impl Incoming<'_> {
    fn is_out_of_turn(&self, installation: &Installation) -> bool
        ensures { result ≡ out_of_turn (filling installation.now) self.now.header.now self.now.counter }
    {
        let header = self.header;
        let counter = self.counter;
        let partial = installation.partial.as_ref();
        header.fragment > 0 && !partial.is_some_and(|partial| continues(partial, header, counter))
    }

    pub(crate) fn check_turn(&self, installation: &Installation) -> Result<(), Refusal>
        ensures { result ≡ first (turn_checks self.now.place (filling installation.now) self.now.header.now self.now.counter) tt }
    {
        if self.counter <= installation.replay {
            return Err(Refusal::Replayed(self.place, self.header.fragment));
        }
        if self.is_out_of_turn(installation) {
            return Err(Refusal::OutOfTurn(self.place, self.header.fragment));
        }
        Ok(())
    }
}
