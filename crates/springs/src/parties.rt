// Who takes part beside the stations that all know, and what they ask for.
use ends::{Place, Request};
use frame::Address;

// The base beside the one on the ridge, and a new logger that it hears.
pub const NEW_BASE: Address = Address {
    octets: [0x02, 0x10, 0x20, 0x30, 0x40, 0x51],
};

pub const NEW_LOGGER: Address = Address {
    octets: [0x02, 0x00, 0x00, 0x00, 0x00, 0x12],
};

pub const FAR_END: Place = Place::Pairwise(0);

pub const EVERYONE: Place = Place::Group(1);

// A message from one station to others, in pieces of 64 octets.
pub fn request(place: Place, source: Address, destination: Address, time: u64) -> Request {
    Request {
        place,
        destination,
        source,
        piece_length: 64,
        time,
    }
}
