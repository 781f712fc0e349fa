// Octets in lent memory: copied, filled, compared, wiped; and the numbers that they write.
// Kept: each function asks for its room, as an index does. A type for a place that fits would be made for one call, and be no
// plainer.
#![tactic(auto)]

ghost use Rattle.std.specs.Prelude.{◌≡◌, ◌+◌, ◌≤◌, length, replicate, bit_or, bit_xor};
ghost use Rattle.std.specs.List.{fold, zip};
ghost use Rattle.std.specs.Str.{bytes_eq};
ghost use Rattle.octets.specs.Octets.{begins, part, written};

pub mod big;
pub mod little;

// Copies octets into a memory at a place.
pub fn put(memory: &mut [u8], at: usize, octets: &[u8])
    requires { at + length octets.now ≤ length memory.old }
    ensures { memory.new ≡ written at octets.now memory.old }
{
    memory[at..at + octets.len()].copy_from_slice(octets);
}

// The octets at a place, as an array.
pub fn array_at<const N: usize>(octets: &[u8], at: usize) -> [u8; N]
    requires { at + N ≤ length octets.now }
    ensures { result ≡ part at N octets.now }
{
    let mut array = [0u8; N];
    array.copy_from_slice(&octets[at..at + N]);
    array
}

// Octets as an array, which zeros fill up.
pub fn padded<const N: usize>(octets: &[u8]) -> [u8; N]
    requires { length octets.now ≤ N }
    ensures { result ≡ begins octets.now (replicate N 0) }
{
    let mut array = [0u8; N];
    array[..octets.len()].copy_from_slice(octets);
    array
}

// Writes one value into each octet of a memory.
pub fn fill(memory: &mut [u8], value: u8)
    ensures { memory.new ≡ replicate (length memory.old) value }
{
    memory.fill(value);
}

// Each bit in which an octet of one list differs from the other list's.
fn differences(a: &[u8], b: &[u8]) -> u8
    ensures { result ≡ fold (λ d p. bit_or d (bit_xor p.0 p.1)) 0 (zip a.now b.now) }
{
    a.iter().zip(b).fold(0, |differs, (x, y)| differs | (x ^ y))
}

// Whether two lists of octets are the same. Where their lengths agree each octet is read, so that the time it takes
// does not tell where they differ.
pub fn same(a: &[u8], b: &[u8]) -> bool
    ensures { result ≡ bytes_eq a.now b.now }
{
    if a.len() != b.len() {
        return false;
    }
    differences(a, b) == 0
}

// Lent working memory, which holds only zeros once this value is gone, whichever way a function is left.
pub struct Wipe<'a> {
    pub octets: &'a mut [u8],
}

impl Drop for Wipe<'_> {
    fn drop(self)
        ensures { self.exit.0.now ≡ replicate (length self.entry.octets.now) 0 }
    {
        self.octets.fill(0);
        let Wipe { octets: _ } = self;
    }
}
