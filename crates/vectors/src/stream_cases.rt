// Known answers of CRC-32 and RC4.
ghost use Rattle.std.specs.Prelude.{◌≡◌, T};
ghost use Rattle.crc32.specs.Crc32.{crc32};
ghost use Rattle.rc4.specs.Rc4.{covered};

use crate::tell;
use std::io;

// Octets, and their CRC-32.
struct Check {
    name: &'static str,
    octets: &'static [u8],
    sum: u32,
}

const CHECKS: [Check; 2] = [
    Check {
        name: "CRC-32 of nothing",
        octets: b"",
        sum: 0,
    },
    Check {
        name: "CRC-32 of 123456789",
        octets: b"123456789",
        sum: 0xcbf4_3926,
    },
];

// A key, a plain text, and what RC4 makes of it under the key.
struct Cover {
    name: &'static str,
    key: &'static [u8],
    plain: &'static [u8],
    cipher: &'static [u8],
}

const COVERS: [Cover; 3] = [
    Cover {
        name: "RC4 under Key",
        key: b"Key",
        plain: b"Plaintext",
        cipher: b"\xbb\xf3\x16\xe8\xd9\x40\xaf\x0a\xd3",
    },
    Cover {
        name: "RC4 under Wiki",
        key: b"Wiki",
        plain: b"pedia",
        cipher: b"\x10\x21\xbf\x04\x20",
    },
    Cover {
        name: "RC4 under Secret",
        key: b"Secret",
        plain: b"Attack at dawn",
        cipher: b"\x45\xa0\x1f\x64\x5f\xc3\x5b\x38\x35\x52\x54\x4b\x9b\xf5",
    },
];

// Kept: fixed memory, in which each text has room, so that no case can run out of it.
const ROOM: usize = 64;

// Right only where the definition gives the sum.
fn checks(check: &Check) -> bool
    ensures { T result → crc32 check.now.octets.now ≡ check.now.sum }
{
    crc32::checksum(check.octets) == check.sum
        && crc32::check_octets(check.octets) == check.sum.to_le_bytes()
}

// Right only where the definition gives the cipher text.
fn covers(cover: &Cover) -> bool
    ensures { T result → covered cover.now.key.now cover.now.plain.now ≡ cover.now.cipher.now }
{
    let size = cover.plain.len();
    if size > ROOM || cover.key.is_empty() || cover.key.len() > 256 {
        return false;
    }
    let mut room = [0u8; ROOM];
    let part = &mut room[..size];
    part.copy_from_slice(cover.plain);
    rc4::cover(cover.key, part);
    &*part == cover.cipher
}

// Kept: no plainer by a helper: each list has its own test.
pub fn run(rt: &HostRuntime) -> io::Result<()> {
    for check in &CHECKS {
        tell(rt, check.name, checks(check))?;
    }
    for cover in &COVERS {
        tell(rt, cover.name, covers(cover))?;
    }
    Ok(())
}
