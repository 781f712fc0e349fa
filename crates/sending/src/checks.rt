// When a send is refused: each function runs one list of checks, in order.
ghost use Rattle.std.specs.Prelude.{◌≡◌, ◌≤◌};
ghost use Rattle.ends.specs.Holding.{held};
ghost use Rattle.ends.specs.Checks.{first};
ghost use Rattle.ends.specs.Sends.{pieces, request_checks, length_checks, supply_checks};

use crate::asked::{Asked, Lengths};
use ends::{LAST_TIME, LONGEST_MESSAGE, Refusal, WORKING_LENGTH};
use frame::Header;
use suite::LONGEST_PIECE;

const SHORTEST_PIECE: usize = 64;

// A fragment number has four bits.
const MOST_PIECES: usize = 16;

// How many pieces so many octets make.
pub fn pieces(size: usize, piece_length: usize) -> usize
    requires { 1 ≤ piece_length }
    ensures { result ≡ pieces size piece_length }
{
    size.div_ceil(piece_length)
}

impl Asked<'_> {
    // What is asked for, before the place is looked at.
    pub fn check_request(&self) -> Result<(), Refusal>
        ensures { result ≡ first (request_checks self.now.sizes (held self.now.state.now) self.now.request.now) tt }
    {
        let Asked { state, request, .. } = self;
        let base = state.role.is_base();
        let group = request.place.is_group();
        if request.time > LAST_TIME {
            return Err(Refusal::ClockRange);
        }
        if !request.place.exists() {
            return Err(Refusal::NoSuchPlace);
        }
        // only a base sends to a group
        if !base && group {
            return Err(Refusal::NoSuchPlace);
        }
        // a logger's source is itself: what is given is not read
        if base && request.source.is_group() {
            return Err(Refusal::WrongAddress);
        }
        // a base's group message goes to a group; its pairwise destination is not read
        if base && group && !request.destination.is_group() {
            return Err(Refusal::WrongAddress);
        }
        if state.is_blocked(self.sizes.code > 0, request.time) {
            return Err(Refusal::SuiteBlocked);
        }
        Ok(())
    }

    // The lengths of the message and of its pieces.
    pub fn check_lengths(&self) -> Result<(), Refusal>
        ensures { result ≡ first (length_checks self.now.sizes self.now.lengths.message self.now.request.now.piece_length) tt }
    {
        let size = self.lengths.message;
        let piece_length = self.request.piece_length;
        if !(1..=LONGEST_MESSAGE).contains(&size) {
            return Err(Refusal::MessageLength);
        }
        if piece_length % 2 == 1 {
            return Err(Refusal::PieceLength);
        }
        if !(SHORTEST_PIECE..=LONGEST_PIECE).contains(&piece_length) {
            return Err(Refusal::PieceLength);
        }
        if pieces(size + self.sizes.code, piece_length) > MOST_PIECES {
            return Err(Refusal::PieceLength);
        }
        Ok(())
    }

    // The counters that are left for so many pieces, and the lengths of the three memories.
    pub fn check_supply(&self, count: usize, send: u64) -> Result<(), Refusal>
        requires size { self.now.lengths.message ≤ 2304 }
        requires few { count ≤ 16 }
        ensures { result ≡ first (supply_checks self.now.sizes self.now.lengths.message count send self.now.lengths.frames self.now.lengths.index self.now.lengths.working) tt }
    {
        let sizes = self.sizes;
        let Lengths {
            message: size,
            frames,
            index,
            working,
        } = self.lengths;
        if (sizes.top + 1).saturating_sub(send) < count as u64 {
            return Err(Refusal::CountersSpent);
        }
        if frames < count * (Header::LENGTH + sizes.head + sizes.tail) + (size + sizes.code) {
            return Err(Refusal::MemoryShort);
        }
        if index < count {
            return Err(Refusal::MemoryShort);
        }
        if working < WORKING_LENGTH {
            return Err(Refusal::MemoryShort);
        }
        Ok(())
    }
}
