// What bench/tkip.c calls.
ghost use Rattle.std.specs.Prelude.{◌≡◌, true, ◌+◌, ◌^◌, ◌<◌, ◌≤◌, length};
ghost use Rattle.octets.specs.Octets.{begins};
ghost use Rattle.tkip.specs.Tkip.{tkip_seal};

use crate::opened;
use frame::{Address, Heading};
use octets::put;
use suite::Suite;
use tkip::Tkip;

#[unsafe(no_mangle)]
pub extern "C" fn rattle_tkip_seal(
    key: &[u8],
    header: &[u8],
    counter: u64,
    piece: &[u8],
    out: &mut [u8],
)
    requires key { length key.now ≡ 32 }
    requires header { length header.now ≡ 24 }
    requires counter { counter < 2 ^ 48 }
    requires piece { (1 ≤ length piece.now) × (length piece.now ≤ 2312) }
    requires room { 8 + length piece.now + 4 ≤ length out.old }
    ensures { out.new ≡ begins (tkip_seal key.now header.now 0 counter piece.now) out.old }
{
    Tkip.seal(key, header, 0, counter, piece, out);
}

// The length of the piece, or 0 where there is none.
// Kept: C takes a number, and knows no Option.
#[unsafe(no_mangle)]
pub extern "C" fn rattle_tkip_open(key: &[u8], header: &[u8], body: &[u8], out: &mut [u8]) -> usize
    requires key { length key.now ≡ 32 }
    requires header { length header.now ≡ 24 }
    requires room { length body.now ≤ 8 + length out.old + 4 }
{
    opened(&Tkip, key, header, body, out).unwrap_or(0)
}

// The code of a message from the base, whose addresses stand in a header.
#[unsafe(no_mangle)]
pub extern "C" fn rattle_michael(key: &[u8], header: &[u8], message: &[u8], code: &mut [u8])
    requires key { length key.now ≡ 8 }
    requires header { length header.now ≡ 24 }
    requires room { 8 ≤ length code.old }
{
    let heading = Heading {
        destination: Address::at(header, 4),
        source: Address::at(header, 16),
        priority: 0,
    };
    put(code, 0, &michael::code(key, &heading, message));
}
