// Addresses of stations.
ghost use Rattle.std.specs.Prelude.{◌≡◌, ◌+◌, ◌^◌, ◌<◌, ◌≤◌, ◌==◌, length};
ghost use Rattle.std.specs.Cmp.{nat_eq_equiv, on_equiv, on_per, partial_equiv_from_equiv};
ghost use Rattle.frame.specs.Addresses.{address_at, number, is_group};

use octets::{array_at, big};
use std::fmt;

// Six octets, as they stand in a frame.
#[derive(Clone, Copy, Debug)]
pub struct Address {
    pub octets: [u8; 6],
}

impl Address {
    // The address that stands at a place of a frame.
    pub fn at(frame: &[u8], at: usize) -> Address
        requires { at + 6 ≤ length frame.now }
        ensures { result ≡ address_at at frame.now }
    {
        Address {
            octets: array_at(frame, at),
        }
    }

    // The address as a number, its first octet highest: two addresses with one number are the same.
    pub fn number(&self) -> u64
        ensures value { result ≡ number self.now }
        ensures bound { result < 2 ^ 48 }
    {
        big::number_at::<6>(&self.octets, 0)
    }

    // Whether it names a group of stations, and not one.
    pub fn is_group(&self) -> bool
        ensures { result ≡ is_group self.now }
    {
        self.octets[0] % 2 == 1
    }
}

// Kept: by the number, since the definitions tell addresses by it. A derived `==` would say that the octets are one list, and
// each caller would have to show that this comes to the same.
impl PartialEq for Address {
    ghost eq = { λ a b. number a == number b };

    ghost laws = { on_per number (partial_equiv_from_equiv nat_eq_equiv) };

    fn eq(&self, other: &Address) -> bool {
        self.number() == other.number()
    }
}

impl Eq for Address {
    ghost laws = { on_equiv number nat_eq_equiv };
}

// The twelve hexadecimal digits of the number.
impl fmt::Display for Address {
    fn fmt<W: fmt::Write>(&self, f: &mut fmt::Formatter<W>) -> fmt::Result {
        write!(f, "{:012x}", self.number())
    }
}
