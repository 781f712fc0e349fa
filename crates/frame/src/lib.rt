// The frames of the link: addresses, the header of 24 octets, and the heading of a message.
#![tactic(auto)]

pub mod addresses;
pub mod headers;
pub mod headings;

pub use addresses::Address;
pub use headers::{Header, HeaderFault};
pub use headings::Heading;
