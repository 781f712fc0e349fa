// The tables of an end: read, searched and changed.
ghost use Rattle.std.specs.Prelude.{◌≡◌, ◌<◌, ◌≤◌, true, length, None, IfSome, slice_index_or};
ghost use Rattle.std.specs.List.{position};
ghost use Rattle.std.specs.Option.{option_copied};
ghost use Rattle.ends.specs.Places.{exists};
ghost use Rattle.ends.specs.Holding.{held, filled, is_filled, holds, lowest, place_of_peer, with_place};
ghost use Rattle.ends.specs.Checks.{blocked};
ghost use Rattle.ends.specs.Installs.{new};

use crate::PAIRWISE_PLACES;
use crate::places::{Installation, Place};
use crate::roles::{Role, State};
use frame::Address;

impl State {
    // What a new end holds.
    #[tactic(auto, using(crate::proofs::Tables::all_empty))]
    pub fn new(role: Role, own: Address) -> State
        ensures { held result ≡ new role own }
    {
        State {
            role,
            own,
            slots: [None; 19],
            sequence: 0,
            last_failure: None,
            block_end: None,
        }
    }

    // What a place holds.
    // Kept: each function asks that there is such a place, since a caller may name any. A type of places that exist would
    // be no plainer: a refusal and a delivery name the place, so it would be made into a `Place` again.
    pub fn slot(&self, place: Place) -> Option<&Installation>
        requires { exists place ≡ true }
        ensures { filled (option_copied result) ≡ (held self.now).at place }
    {
        self.slots[place.index()].as_ref()
    }

    pub fn is_filled(&self, place: Place) -> bool
        requires { exists place ≡ true }
        ensures { result ≡ is_filled ((held self.now).at place) }
    {
        self.slot(place).is_some()
    }

    // Fills or empties a place.
    pub fn put(&mut self, place: Place, slot: Option<Installation>)
        requires { exists place ≡ true }
        ensures { held self.new ≡ with_place (held self.old) place (filled slot) }
    {
        self.slots[place.index()] = slot;
    }

    // Whether a suite, with a code or without one, is blocked.
    pub fn is_blocked(&self, coded: bool, time: u64) -> bool
        ensures { result ≡ blocked coded (held self.now) time }
    {
        coded && self.block_end.is_some_and(|end| time < end)
    }

    // The pairwise place that holds an address.
    pub fn place_of_peer(&self, address: &Address) -> Option<u8>
        ensures value { result ≡ place_of_peer (held self.now) address.now }
        ensures within { IfSome result (λ n. n < 16) }
    {
        find(&self.slots[..PAIRWISE_PLACES], address).map(|n| n as u8)
    }
}

// Where the first slot stands that holds an address.
fn find(slots: &[Option<Installation>], address: &Address) -> Option<usize>
    requires { length slots.now ≤ 16 }
    ensures value { result ≡ position (λ slot. holds address.now (filled slot)) slots.now }
    ensures within { IfSome result (λ n. n < length slots.now) }
{
    slots.iter().position(|slot| slot
        .as_ref()
        .is_some_and(|installation| installation.is_of(address)))
}
