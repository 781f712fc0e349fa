// Why a call is refused.
ghost use Rattle.std.specs.Prelude.{◌≡◌};
ghost use Rattle.ends.specs.Refusals.{refusal_number, header_refusal};
ghost use Rattle.ends.specs.declared.refusals.Refusal.TheVariants.{HeadRefused};

use crate::places::Place;
use frame::HeaderFault;
use suite::{HeadFault, OpenFault};

// One case for each ground, in the order of the checks. From `Replayed` on, the place and the fragment number.
// Kept: these two one by one, as the definitions of the refusals have them: a struct would be taken apart again by each.
#[derive(Clone, Copy, PartialEq, Eq, Debug)]
pub enum Refusal {
    // 1: the time is above 2^62
    ClockRange,
    // 2: there is no such place, or a logger sends to a group
    NoSuchPlace,
    // 3: an address that cannot be used here
    WrongAddress,
    // 4: the key has not the suite's length
    KeyLength,
    // 5: the replay counter would start above the suite's highest
    StartAboveTop,
    // 6: install or send while the suite is blocked
    SuiteBlocked,
    // 7: the place is filled, or another pairwise place holds this peer
    PlaceTaken,
    // 8: the place is empty
    PlaceEmpty,
    // 9: the message is empty or too long
    MessageLength,
    // 10: the piece length is odd or out of range, or makes too many pieces
    PieceLength,
    // 11: fewer counters are left than there are pieces
    CountersSpent,
    // 12: a lent memory is too short
    MemoryShort,
    // 13: the frame is too short or too long
    FrameLength,
    // 14: no data frame, or not one for this end
    NotForThisEnd,
    // 15: the frame is not protected
    Unprotected,
    // 16: an arrival while the suite is blocked
    ArrivalBlocked,
    // 17: the suite reads no head, for the reason inside
    HeadRefused(HeadFault),
    // 18: no place matches
    NoMatch,
    // 19: the counter is not above the replay counter
    Replayed(Place, u8),
    // 20: a later fragment that does not go on from a partial message
    OutOfTurn(Place, u8),
    // 21: the suite opens no piece, for the reason inside
    OpenRefused(Place, u8, OpenFault),
    // 22: the joined pieces are too long, or a whole message is not longer than its code
    AssembledLength(Place, u8),
    // 23: the code failed
    CodeFailed(Place, u8),
    // 24: the code failed, and a block begins
    BlockBegun(Place, u8),
}

impl Refusal {
    // The number that the ground goes by.
    // Kept: no plainer as a From, since it tells less than the refusal does; and a cast reads no number of a variant with
    // something inside.
    pub fn number(&self) -> u8
        ensures { result ≡ refusal_number self.now }
    {
        match self {
            Refusal::ClockRange => 1,
            Refusal::NoSuchPlace => 2,
            Refusal::WrongAddress => 3,
            Refusal::KeyLength => 4,
            Refusal::StartAboveTop => 5,
            Refusal::SuiteBlocked => 6,
            Refusal::PlaceTaken => 7,
            Refusal::PlaceEmpty => 8,
            Refusal::MessageLength => 9,
            Refusal::PieceLength => 10,
            Refusal::CountersSpent => 11,
            Refusal::MemoryShort => 12,
            Refusal::FrameLength => 13,
            Refusal::NotForThisEnd => 14,
            Refusal::Unprotected => 15,
            Refusal::ArrivalBlocked => 16,
            Refusal::HeadRefused(_) => 17,
            Refusal::NoMatch => 18,
            Refusal::Replayed(_, _) => 19,
            Refusal::OutOfTurn(_, _) => 20,
            Refusal::OpenRefused(_, _, _) => 21,
            Refusal::AssembledLength(_, _) => 22,
            Refusal::CodeFailed(_, _) => 23,
            Refusal::BlockBegun(_, _) => 24,
        }
    }
}

// Faults of a frame's header and of a suite's head pass up by `?`.
// Kept: a derived `From` has no contract, and clauses name the refusal that `?` makes (`from_gives`).
impl From<HeaderFault> for Refusal {
    ghost from_gives = { λ e r. r ≡ header_refusal e };

    fn from(fault: HeaderFault) -> Refusal {
        match fault {
            HeaderFault::Short => Refusal::FrameLength,
            HeaderFault::NotData => Refusal::NotForThisEnd,
        }
    }
}

impl From<HeadFault> for Refusal {
    ghost from_gives = { λ e r. r ≡ HeadRefused e };

    fn from(fault: HeadFault) -> Refusal {
        Refusal::HeadRefused(fault)
    }
}
