// What stands over a message.
use crate::addresses::Address;

// Whom a message goes to, whom it comes from, and its priority. A code is reckoned over these and the message.
#[derive(Clone, Copy, PartialEq, Eq, Debug)]
pub struct Heading {
    pub destination: Address,
    pub source: Address,
    pub priority: u8,
}
