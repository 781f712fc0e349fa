// Numbers in octets, the least significant first.
// Kept: beside the same two of `big`. A trait of orders would be no plainer: its functions would each need a law, and these are
// three lines at most.
ghost use Rattle.std.specs.Prelude.{◌≡◌, ◌+◌, ◌^◌, ◌<◌, ◌≤◌, length};
ghost use Rattle.octets.specs.Octets.{little, little_octets, part, written};

use crate::put;

// The number that N octets write at a place.
pub fn number_at<const N: usize>(octets: &[u8], at: usize) -> u64
    requires width { N ≤ 8 }
    requires room { at + N ≤ length octets.now }
    ensures value { result ≡ little (part at N octets.now) }
    ensures bound { result < 256 ^ N }
{
    let mut word = [0u8; 8];
    word[..N].copy_from_slice(&octets[at..at + N]);
    u64::from_le_bytes(word)
}

// Writes the N lowest octets of a number at a place.
pub fn put_number<const N: usize>(memory: &mut [u8], at: usize, value: u64)
    requires width { N ≤ 8 }
    requires room { at + N ≤ length memory.old }
    ensures { memory.new ≡ written at (little_octets N value) memory.old }
{
    put(memory, at, &value.to_le_bytes()[..N]);
}
