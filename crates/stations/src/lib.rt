// Stations and keys that the tests and the programs share.
#![tactic(auto)]

use frame::Address;

// The base on the ridge, and an old logger that it hears.
pub const BASE: Address = Address {
    octets: [0x02, 0x10, 0x20, 0x30, 0x40, 0x50],
};

pub const LOGGER: Address = Address {
    octets: [0x02, 0x00, 0x00, 0x00, 0x00, 0x07],
};

// All loggers of the base at once.
pub const GROUP: Address = Address {
    octets: [0x03, 0x00, 0x5e, 0x00, 0x00, 0x01],
};

// TKIP: temporal key, code key from the base, code key from the logger.
pub const TKIP_KEY: [u8; 32] = *b"temporal key 16.fr.base.fr.loggr";

pub const CCMP_KEY: [u8; 16] = *b"ccmp key, 16 oct";
