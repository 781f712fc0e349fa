// Octets joined in fixed memory.
use octets::padded;

// The first `size` octets; all of them where `size` is beyond the memory. What is behind them is not part of it.
// Kept: no heap, fixed memory: a place holds its pieces itself. No invariant: each value means something, so no call that is
// lent a place asks for more.
#[derive(Clone, Copy)]
pub struct Joined {
    pub octets: [u8; 2312],
    pub size: usize,
}

impl Joined {
    ghost use Rattle.std.specs.Prelude.{◌≡◌, ◌≤◌, length};
    ghost use Rattle.ends.specs.Joining.{octets_in};

    // A copy of these octets.
    pub fn from_slice(octets: &[u8]) -> Joined
        requires { length octets.now ≤ 2312 }
        ensures { octets_in result ≡ octets.now }
    {
        Joined {
            octets: padded(octets),
            size: octets.len(),
        }
    }

    // Holds these octets in place of what it held. Only as many are copied, since a place is filled piece by piece.
    pub fn replace(&mut self, octets: &[u8])
        requires { length octets.now ≤ 2312 }
        ensures { octets_in self.new ≡ octets.now }
    {
        self.octets[..octets.len()].copy_from_slice(octets);
        self.size = octets.len();
    }

    pub fn as_slice(&self) -> &[u8]
        ensures value { result.now ≡ octets_in self.now }
        ensures most { length result.now ≤ 2312 }
    {
        &self.octets[..self.size.min(self.octets.len())]
    }
}
