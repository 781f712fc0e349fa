// What the benchmark calls from C; a slice is passed as its address and its length.
// Kept: C passes each argument by itself and each array as a slice, so lengths stand in the contracts.
#![tactic(auto)]

ghost use Rattle.std.specs.Prelude.{◌≡◌, ◌+◌, ◌≤◌, length};
ghost use Rattle.crc32.specs.Crc32.{crc32};
ghost use Rattle.rc4.specs.Rc4.{covered};
ghost use Rattle.frame.specs.Headers.{header_length};

use suite::{PieceFault, Suite};

pub mod blocks;
pub mod ccmp_frames;
pub mod tkip_frames;

#[unsafe(no_mangle)]
pub extern "C" fn rattle_crc32(octets: &[u8]) -> u32
    ensures { result ≡ crc32 octets.now }
{
    crc32::checksum(octets)
}

#[unsafe(no_mangle)]
pub extern "C" fn rattle_rc4(key: &[u8], octets: &mut [u8])
    requires { (1 ≤ length key.now) × (length key.now ≤ 256) }
    ensures { octets.new ≡ covered key.now octets.old }
{
    rc4::cover(key, octets);
}

// The CRC-32 of the octets, which are then covered under the key.
#[unsafe(no_mangle)]
pub extern "C" fn rattle_rc4_crc32(key: &[u8], octets: &mut [u8]) -> u32
    requires { (1 ≤ length key.now) × (length key.now ≤ 256) }
    ensures check { result ≡ crc32 octets.old }
    ensures octets { octets.new ≡ covered key.now octets.old }
{
    let check = rattle_crc32(octets);
    rattle_rc4(key, octets);
    check
}

// Opens a body over its suite: the length of the piece, or why there is none.
fn opened<S: Suite>(
    suite: &S,
    key: &[u8],
    header: &[u8],
    body: &[u8],
    out: &mut [u8],
) -> Result<usize, PieceFault>
    requires key { length key.now ≡ S.Suite.means.sizes.key }
    requires header { length header.now ≡ header_length }
    requires room { length body.now ≤ S.Suite.means.sizes.head + length out.old + S.Suite.means.sizes.tail }
{
    suite.head(body)?;
    Ok(suite.open(key, header, body, out)?)
}
