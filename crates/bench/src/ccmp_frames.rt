// What bench/ccmp.c calls.
use crate::opened;
use ccmp::Ccmp;
use suite::{HeadFault, LONGEST_PIECE, OpenFault, PieceFault, Suite};

// What open answers in place of a length.
// Kept: C takes numbers for faults, and knows no Result.
const SHORT: u64 = 10001;

const UNMARKED: u64 = 10002;

const LONG: u64 = 10003;

const UNEQUAL: u64 = 10004;

const NO_ROOM: u64 = 10005;

// Seals a piece; 1 where it cannot be sealed.
// Kept: C takes a number.
#[unsafe(no_mangle)]
pub extern "C" fn rattle_ccmp_seal(
    key: &[u8; 16],
    header: &[u8; 24],
    key_id: u8,
    counter: u64,
    piece: &[u8],
    out: &mut [u8],
) -> u8 {
    let size = piece.len();
    if key_id > 3
        || counter > Ccmp::TOP_COUNTER
        || !(1..=LONGEST_PIECE).contains(&size)
        || out.len() < Ccmp::HEAD_LENGTH + size + Ccmp::TAIL_LENGTH
    {
        return 1;
    }
    Ccmp.seal(key, header, key_id, counter, piece, out);
    0
}

// Opens a body: the length of the piece, or what it was refused for.
#[unsafe(no_mangle)]
pub extern "C" fn rattle_ccmp_open(
    key: &[u8; 16],
    header: &[u8; 24],
    body: &[u8],
    out: &mut [u8],
) -> u64 {
    if out.len() < body.len() {
        return NO_ROOM;
    }
    match opened(&Ccmp, key, header, body, out) {
        Ok(size) => size as u64,
        Err(PieceFault::Head(HeadFault::Short)) => SHORT,
        Err(PieceFault::Head(HeadFault::Unmarked)) => UNMARKED,
        Err(PieceFault::Open(OpenFault::Long)) => LONG,
        Err(PieceFault::Open(OpenFault::Unequal)) => UNEQUAL,
    }
}
