// What else may come to an end: frames that nobody it knows has sent.
use octets::padded;

// A frame as another station would have sent it: the last octet of Address 2 differs.
pub fn from_a_stranger(frame: &[u8]) -> [u8; 100] {
    let mut stray = copied(frame);
    stray[15] = 0x66;
    stray
}

// A frame with one bit of its sealed piece changed.
pub fn with_a_bit_changed(frame: &[u8]) -> [u8; 100] {
    let mut forged = copied(frame);
    forged[40] ^= 1;
    forged
}

// The first octets of a frame, and zeros beyond it.
fn copied(frame: &[u8]) -> [u8; 100] {
    padded(&frame[..frame.len().min(100)])
}
