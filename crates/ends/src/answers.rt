// What an arrival is answered, where it is not refused.
use crate::places::Place;

// A message that is whole, and whose code agrees.
// Kept: no heap: the message begins lent memory; and addresses stay numbers, as the laws of deliveries have them.
#[derive(Clone, Copy, PartialEq, Eq, Debug)]
pub struct Delivery {
    pub place: Place,
    // addresses as numbers, the first octet highest
    pub destination: u64,
    pub source: u64,
    // of the message's last piece
    pub counter: u64,
    pub length: usize,
}

#[derive(Clone, Copy, PartialEq, Eq, Debug)]
pub enum Arrived {
    // a good piece of which more are to come: its place and its fragment number
    Held(Place, u8),
    Delivered(Delivery),
}
