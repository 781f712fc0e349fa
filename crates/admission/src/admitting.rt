// Whether a frame is for this end.
ghost use Rattle.std.specs.Prelude.{◌≡◌, length, OnOk};
ghost use Rattle.ends.specs.Holding.{held};
ghost use Rattle.ends.specs.Checks.{first};
ghost use Rattle.ends.specs.Arrivals.{range_checks, stranger, coded_for, header_checks, admitted};
ghost use Rattle.admission.specs.Ranges.{InRange};

use ends::{CodedSuites, LAST_TIME, LONGEST_MESSAGE, Refusal, State, WORKING_LENGTH};
use frame::{Address, Header};
use suite::LONGEST_PIECE;

// A header, the longest piece, and eight octets at most before it and behind it, whatever the suite.
const LONGEST_FRAME: usize = Header::LENGTH + 8 + LONGEST_PIECE + 8;

// How long the two memories are that an arrival is lent.
#[derive(Clone, Copy, Debug)]
pub struct Lengths {
    pub working: usize,
    pub message: usize,
}

// Clock, memories and the frame's length.
fn check_ranges(time: u64, frame: usize, lengths: Lengths) -> Result<(), Refusal>
    ensures value { result ≡ first (range_checks time lengths.working lengths.message frame) tt }
    ensures range { OnOk result (InRange time frame lengths.working lengths.message) }
{
    if time > LAST_TIME {
        return Err(Refusal::ClockRange);
    }
    if lengths.working < WORKING_LENGTH {
        return Err(Refusal::MemoryShort);
    }
    if lengths.message < LONGEST_MESSAGE {
        return Err(Refusal::MemoryShort);
    }
    if frame < Header::LENGTH {
        return Err(Refusal::FrameLength);
    }
    if frame > LONGEST_FRAME {
        return Err(Refusal::FrameLength);
    }
    Ok(())
}

// Whether Address 1 is neither the end's own nor, at a logger, a group's.
fn is_stranger(state: &State, address: &Address) -> bool
    ensures { result ≡ stranger (held state.now) address.now }
{
    *address != state.own && (state.role.is_base() || !address.is_group())
}

// Whether the suite that Address 1 chooses has a code.
fn is_coded(coded: CodedSuites, header: &Header) -> bool
    ensures { result ≡ coded_for coded header.now }
{
    if header.address1.is_group() {
        coded.group
    } else {
        coded.pairwise
    }
}

// Of the header of a data frame.
fn check_header(
    state: &State,
    coded: CodedSuites,
    header: &Header,
    time: u64,
) -> Result<(), Refusal>
    ensures { result ≡ first (header_checks coded (held state.now) time 8 header.now) tt }
{
    let is_base = state.role.is_base();
    if header.to_ds != is_base {
        return Err(Refusal::NotForThisEnd);
    }
    if header.from_ds == is_base {
        return Err(Refusal::NotForThisEnd);
    }
    if header.order {
        return Err(Refusal::NotForThisEnd);
    }
    if is_stranger(state, &header.address1) {
        return Err(Refusal::NotForThisEnd);
    }
    if !header.protected {
        return Err(Refusal::Unprotected);
    }
    if state.is_blocked(is_coded(coded, header), time) {
        return Err(Refusal::ArrivalBlocked);
    }
    Ok(())
}

// The header of a frame that is for this end and protected, while its suite is not blocked.
pub fn admit(
    state: &State,
    coded: CodedSuites,
    frame: &[u8],
    time: u64,
    lengths: Lengths,
) -> Result<Header, Refusal>
    ensures value { result ≡ admitted coded (held state.now) frame.now time lengths.working lengths.message }
    ensures range { OnOk result (InRange time (length frame.now) lengths.working lengths.message) }
{
    check_ranges(time, frame.len(), lengths)?;
    let header = Header::read(frame)?;
    check_header(state, coded, &header, time)?;
    Ok(header)
}
