// Places, and what they hold.
ghost use Rattle.std.specs.Prelude.{◌≡◌, ◌<◌, true};
ghost use Rattle.ends.specs.Places.{exists, index_of, is_group_place, key_id_of};
ghost use Rattle.ends.specs.Holding.{same_address};

use crate::PAIRWISE_PLACES;
use crate::joined::Joined;
use frame::Address;
use std::fmt;

// The name of a place: pairwise 0 to 15, or a group's by its key ID, 1 to 3. With another number there is no such place.
#[derive(Clone, Copy, PartialEq, Eq, Debug)]
pub enum Place {
    Pairwise(u8),
    Group(u8),
}

// A message of which the last piece has not come.
#[derive(Clone, Copy)]
pub struct Partial {
    // the pieces so far
    pub joined: Joined,
    // what the next piece has to go on from
    pub fragment: u8,
    pub counter: u64,
    pub sequence: u16,
    pub address1: Address,
    pub address2: Address,
    pub address3: Address,
}

// What a filled place holds.
#[derive(Clone, Copy)]
pub struct Installation {
    // the key, and zeros beyond it
    // Kept: no heap, fixed memory: the longest key of a suite. How much of it is the key says the suite.
    pub key: [u8; 32],
    // the far end's; of a group, the base's
    pub address: Address,
    // the counter of the next piece that is sent
    pub send: u64,
    // the counter of the last message that was delivered
    pub replay: u64,
    pub partial: Option<Partial>,
}

impl Place {
    pub fn exists(self) -> bool
        ensures { result ≡ exists self }
    {
        match self {
            Place::Pairwise(n) => n < 16,
            Place::Group(n) => (1..4).contains(&n),
        }
    }

    // Where it stands among the slots of an end.
    pub fn index(self) -> usize
        ensures value { result ≡ index_of self }
        ensures within { exists self ≡ true → result < 19 }
    {
        match self {
            Place::Pairwise(n) => usize::from(n),
            Place::Group(n) => PAIRWISE_PLACES + usize::from(n) - 1,
        }
    }

    pub fn is_group(self) -> bool
        ensures { result ≡ is_group_place self }
    {
        matches!(self, Place::Group(_))
    }

    // The key ID that frames under it carry.
    pub fn key_id(self) -> u8
        ensures { result ≡ key_id_of self }
    {
        match self {
            Place::Pairwise(_) => 0,
            Place::Group(n) => n,
        }
    }
}

impl fmt::Display for Place {
    fn fmt<W: fmt::Write>(&self, f: &mut fmt::Formatter<W>) -> fmt::Result {
        match self {
            Place::Pairwise(n) => write!(f, "pairwise place {n}"),
            Place::Group(n) => write!(f, "group {n}"),
        }
    }
}

impl Installation {
    // Whether it stands under this address.
    pub fn is_of(&self, address: &Address) -> bool
        ensures { result ≡ same_address self.now.address address.now }
    {
        self.address == *address
    }
}
