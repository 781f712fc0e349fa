// What a send and an install are asked for, and how a send is carried out.
ghost use Rattle.std.specs.Prelude.{◌≡◌, ◌+◌, ◌<◌, length, MatchOption};
ghost use Rattle.octets.specs.Octets.{part};

use crate::places::Place;
use crate::roles::Role;
use frame::Address;

// What is sent beside the message. A logger's source is itself, and a base's pairwise destination is the place's far
// end: what is given for these is not read.
#[derive(Clone, Copy, Debug)]
pub struct Request {
    pub place: Place,
    pub destination: Address,
    pub source: Address,
    // how long a piece is; the last may be shorter
    pub piece_length: usize,
    pub time: u64,
}

// What an install is asked for.
#[derive(Clone, Copy)]
pub struct InstallRequest<'a> {
    pub place: Place,
    pub key: &'a [u8],
    // the far end's; of a group, the base's
    pub address: Address,
    // what is delivered there must have a counter above it
    pub start: u64,
    pub time: u64,
}

// Where a frame stands in the memory of frames.
// Kept: no heap, fixed memory: frames stand end to end in memory that is lent.
#[derive(Clone, Copy, PartialEq, Eq, Debug)]
pub struct Span {
    pub offset: usize,
    pub length: usize,
}

impl Span {
    // Of a frame that is not there yet.
    pub const NOWHERE: Span = Span {
        offset: 0,
        length: 0,
    };

    // The frame that stands there, where the memory reaches that far.
    pub fn cut<'a>(&self, frames: &'a [u8]) -> Option<&'a [u8]>
        ensures { MatchOption result (length frames.now < self.now.offset + self.now.length) (λ frame. frame.now ≡ part self.now.offset self.now.length frames.now) }
    {
        frames.get(self.offset..)?.get(..self.length)
    }
}

// A message on its way out: what its frames have in common.
#[derive(Clone, Copy)]
pub struct Plan {
    pub role: Role,
    pub key_id: u8,
    // of the first piece
    pub counter: u64,
    pub sequence: u16,
    pub destination: Address,
    pub source: Address,
    pub address1: Address,
    pub address2: Address,
    pub address3: Address,
    pub piece_length: usize,
    // how many pieces there are
    pub count: usize,
}
