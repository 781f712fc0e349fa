// CRC-32 by tables, eight octets at a time.
#![tactic(auto)]

ghost use Rattle.std.specs.Prelude.{◌≡◌};
ghost use Rattle.std.specs.List.{flat_map};
ghost use Rattle.crc32.specs.Crc32.{steps, taken, remainder, crc32, check_octets};

mod tables;

use tables::entry;

// The remainder with one octet more.
fn take(c: u32, octet: u8) -> u32
    ensures { result ≡ taken c octet }
{
    entry(0, ((c ^ octet as u32) & 0xff) as u8) ^ (c >> 8)
}

// The remainder with more octets, one at a time.
fn take_octets(start: u32, octets: &[u8]) -> u32
    ensures { result ≡ remainder start octets.now }
{
    octets.iter().fold(start, |c, octet| take(c, *octet))
}

// What 64 steps make of a word: each of its octets has its own table.
fn divide(word: u64) -> u32
    ensures { result ≡ steps 64 word }
{
    let [a, b, c, d, e, f, g, h] = words::to_octets(word);
    entry(7, a)
        ^ entry(6, b)
        ^ entry(5, c)
        ^ entry(4, d)
        ^ entry(3, e)
        ^ entry(2, f)
        ^ entry(1, g)
        ^ entry(0, h)
}

// The remainder with eight octets more.
fn take_eight(c: u32, octets: &[u8; 8]) -> u32
    ensures { result ≡ remainder c octets.now }
{
    divide(words::from_octets(octets) ^ c as u64)
}

// The remainder with more octets, eight at a time.
fn take_eights(start: u32, eights: &[[u8; 8]]) -> u32
    ensures { result ≡ remainder start (flat_map (λ eight. eight) eights.now) }
{
    eights.iter().fold(start, take_eight)
}

// The CRC-32 of the octets.
pub fn checksum(octets: &[u8]) -> u32
    ensures { result ≡ crc32 octets.now }
{
    let (eights, rest) = octets.as_chunks::<8>();
    take_octets(take_eights(0xffff_ffff, eights), rest) ^ 0xffff_ffff
}

// The CRC-32 of the octets as it is sent behind them.
pub fn check_octets(octets: &[u8]) -> [u8; 4]
    ensures { result ≡ check_octets octets.now }
{
    checksum(octets).to_le_bytes()
}
