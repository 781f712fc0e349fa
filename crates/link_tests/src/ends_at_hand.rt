// Ends, and what the tests ask of them.
use ends::{Place, Refusal, Request, Role};
use link::LinkEnd;
use stations::{BASE, LOGGER};
use suite::Suite;

// As long as a CCMP key is: the first sixteen octets of TKIP_KEY.
pub const CCMP_KEY: [u8; 16] = *b"temporal key 16.";

pub const PAIRWISE: Place = Place::Pairwise(0);

// A logger with its base in pairwise place 0, under this key.
pub fn logger<P: Suite + Drop, G: Suite + Drop>(
    pairwise: P,
    group: G,
    key: &[u8],
) -> Result<LinkEnd<P, G>, Refusal> {
    let mut end = LinkEnd::blank(pairwise, group);
    end.make(Role::Logger, &LOGGER)?;
    end.install(PAIRWISE, key, &BASE, 0, 0)?;
    Ok(end)
}

// A message from the logger to its base, cut at this length.
pub fn request(piece_length: usize, time: u64) -> Request {
    Request {
        place: PAIRWISE,
        destination: BASE,
        source: LOGGER,
        piece_length,
        time,
    }
}

// An answer with a refusal by its number.
// Kept: the tests keep their values, which are the numbers that docs/REFUSALS.md promises.
pub fn numbered<T: Drop>(answer: Result<T, Refusal>) -> Result<T, u8> {
    answer.map_err(|refusal| refusal.number())
}
