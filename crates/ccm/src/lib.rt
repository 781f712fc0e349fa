// CCM over AES-128, with a tail of 8 octets and a length field of 2. The definition stands in specs/Ccm.antt.
// The expanded key is made once for a message. Blocks are held as words of 128 bits, the first octet least significant.
#![tactic(auto)]

ghost use Rattle.std.specs.Prelude.{◌≡◌, ◌+◌, ◌-◌, ◌*◌, ◌/◌, ◌<◌, ◌≤◌, ◌∷◌, length, take, drop, is_ok, is_some};
ghost use Rattle.octets.specs.Octets.{written, begins, xored};
ghost use Rattle.aes.specs.Aes.{expanded, aes128};
ghost use Rattle.aes.specs.Words.{octets as word_octets, round_keys};
ghost use Rattle.ccm.specs.Ccm.{block_of, blocks, numbered, counter_block, first_flags, measured, chained, cbc_mac, covered, ccm_tail, ccm_seal, ccm_open, left_by_ccm_open, OpensExactly};
ghost use Rattle.ccm.specs.Inner.{under, WholeBlocks, filled, plain};

use aes::{Aes128, load, store};
use octets::{array_at, big, fill, padded, put, same};

// The tail is not the one that the message, the additional data and the nonce have under the key.
#[derive(Clone, Copy, PartialEq, Eq, Debug)]
pub struct WrongTail;

// The block of an octet of flags, the nonce and a number.
fn numbered_word(flags: u8, nonce: &[u8; 13], number: u16) -> u128
    ensures { word_octets result ≡ numbered flags nonce.now number }
{
    let mut block = [flags; 16];
    put(&mut block, 1, nonce);
    put(&mut block, 14, &number.to_be_bytes());
    load(&block)
}

// A part of a block, which zeros fill up.
fn filled_word(octets: &[u8]) -> u128
    requires { length octets.now ≤ 16 }
    ensures { word_octets result ≡ filled octets.now }
{
    load(&padded::<16>(octets))
}

// What a message is sealed or opened under: a key, expanded once, a nonce and additional data.
#[derive(Drop)]
struct Mode<'a> {
    cipher: Aes128,
    nonce: &'a [u8; 13],
    additional: &'a [u8],
    // counter block 0
    base: u128,
    ghost whole: { WholeBlocks (under cipher) },
    ghost few: { length additional.now ≤ 30 },
    ghost zero: { word_octets base ≡ counter_block nonce.now 0 },
}

impl<'a> Mode<'a> {
    // Kept: the limit stands at seal, at open and here, where it goes into the type, since callers pass the slice itself.
    fn new(key: &[u8; 16], nonce: &'a [u8; 13], additional: &'a [u8]) -> Mode<'a>
        requires { length additional.now ≤ 30 }
        ensures key { round_keys result.cipher ≡ expanded key.now }
        ensures nonce { result.nonce.now ≡ nonce.now }
        ensures additional { result.additional.now ≡ additional.now }
    {
        Mode {
            cipher: Aes128::expand(key),
            nonce,
            additional,
            base: numbered_word(1, nonce, 0),
        }
    }

    // Block `i` of the key stream, from block 0 on, which is that of the tail.
    fn stream(&self, i: u16) -> u128
        ensures { word_octets result ≡ under self.now.cipher (counter_block self.now.nonce.now i) }
    {
        let counter = self.base ^ (u128::from(i.swap_bytes()) << 112);
        self.cipher.encrypt_word(counter)
    }

    // Chains all blocks of octets from `start` on.
    fn chain(&self, start: u128, octets: &[u8]) -> u128
        ensures { word_octets result ≡ chained (under self.now.cipher) (word_octets start) (blocks octets.now) }
    {
        let (whole, rest) = octets.as_chunks::<16>();
        let mut mac = start;
        for block in whole {
            mac = self.cipher.encrypt_word(mac ^ load(block));
        }
        if rest.is_empty() {
            return mac;
        }
        self.cipher.encrypt_word(mac ^ filled_word(rest))
    }

    // Chains the additional data, if any, after its length.
    fn chain_additional(&self, start: u128) -> u128
        ensures { word_octets result ≡ chained (under self.now.cipher) (word_octets start) (blocks (measured self.now.additional.now)) }
    {
        let size = self.additional.len();
        if size == 0 {
            return start;
        }
        // Kept: no heap, fixed memory: a length of two octets and at most 30 behind it.
        let mut memory = [0u8; 32];
        big::put_number::<2>(&mut memory, 0, size as u64);
        put(&mut memory, 2, self.additional);
        self.chain(start, &memory[..size + 2])
    }

    // Chains the first block and the additional data, for a message of so many octets.
    fn begin(&self, size: u16) -> u128
        ensures { word_octets result ≡ cbc_mac (under self.now.cipher) (numbered (first_flags self.now.additional.now) self.now.nonce.now size ∷ blocks (measured self.now.additional.now)) }
    {
        let flags = if self.additional.is_empty() {
            0x19
        } else {
            0x59
        };
        let first = self
            .cipher
            .encrypt_word(numbered_word(flags, self.nonce, size));
        self.chain_additional(first)
    }

    // The tail, from the CBC-MAC.
    fn tail(&self, mac: u128) -> [u8; 8]
        ensures { result ≡ take 8 (xored (word_octets mac) (under self.now.cipher (counter_block self.now.nonce.now 0))) }
    {
        array_at(&store(mac ^ self.stream(0)), 0)
    }

    // Puts the last octets of a text, which fill no block, under the key stream, and chains them.
    // Kept: here and in `cover`, a constant in place of a closure. A closure that picks the plain block would be no plainer:
    // the contract would have to say what it picks, where now it says `plain OPENING`.
    fn cover_last<const OPENING: bool>(&self, mac: u128, text: &[u8], out: &mut [u8]) -> u128
        requires most { length text.now < 65536 }
        requires some { 16 * (length text.now / 16) < length text.now }
        requires room { length text.now ≤ length out.old }
        ensures memory { out.new ≡ written (16 * (length text.now / 16)) (drop (16 * (length text.now / 16)) (covered (under self.now.cipher) self.now.nonce.now text.now)) out.old }
        ensures mac { word_octets result ≡ under self.now.cipher (xored (word_octets mac) (block_of (plain OPENING (under self.now.cipher) self.now.nonce.now text.now) (length text.now / 16))) }
    {
        let i = text.len() / 16;
        let rest = &text[16 * i..];
        let block = filled_word(rest);
        let covered = store(block ^ self.stream((i + 1) as u16));
        let covered = &covered[..rest.len()];
        put(out, 16 * i, covered);
        let plain = if OPENING { filled_word(covered) } else { block };
        self.cipher.encrypt_word(mac ^ plain)
    }

    // Puts a text under the key stream, into the start of a memory, and gives the tail of the message: of the text where it is
    // sealed, and of what comes out where it is opened. Where a text is sealed the two encryptions of a block do not wait for
    // one another; where it is opened only the chain waits, for the key stream of the same block.
    fn cover<const OPENING: bool>(&self, text: &[u8], out: &mut [u8]) -> [u8; 8]
        requires most { length text.now < 65536 }
        requires room { length text.now ≤ length out.old }
        ensures memory { out.new ≡ begins (covered (under self.now.cipher) self.now.nonce.now text.now) out.old }
        ensures tail { result ≡ ccm_tail (under self.now.cipher) self.now.nonce.now self.now.additional.now (plain OPENING (under self.now.cipher) self.now.nonce.now text.now) }
    {
        let (whole, rest) = text.as_chunks::<16>();
        let mut mac = self.begin(text.len() as u16);
        for (i, block) in whole.iter().enumerate() {
            let block = load(block);
            let covered = block ^ self.stream((i + 1) as u16);
            // Kept: written by index, since as_chunks_mut and chunks_exact_mut say nothing of what the slice ends as.
            put(out, 16 * i, &store(covered));
            let plain = if OPENING { covered } else { block };
            mac = self.cipher.encrypt_word(mac ^ plain);
        }
        if rest.is_empty() {
            return self.tail(mac);
        }
        let mac = self.cover_last::<OPENING>(mac, text, out);
        self.tail(mac)
    }
}

// Seals a message, with additional data that is authenticated and not sealed, into the start of a memory: the message
// under the key stream, and its tail.
pub fn seal(key: &[u8; 16], nonce: &[u8; 13], additional: &[u8], message: &[u8], out: &mut [u8])
    requires additional { length additional.now ≤ 30 }
    requires message { length message.now < 65536 }
    requires room { length message.now + 8 ≤ length out.old }
    ensures length { length (ccm_seal (aes128 key.now) nonce.now additional.now message.now) ≡ length message.now + 8 }
    ensures memory { out.new ≡ begins (ccm_seal (aes128 key.now) nonce.now additional.now message.now) out.old }
{
    let tail = Mode::new(key, nonce, additional).cover::<false>(message, out);
    put(out, message.len(), &tail);
}

// Opens what was sealed: writes the message to the start of a memory, if the tail is right. All octets of the tail are
// compared. Where it is wrong, zeros stand in the place of the message.
pub fn open(
    key: &[u8; 16],
    nonce: &[u8; 13],
    additional: &[u8],
    sealed: &[u8],
    out: &mut [u8],
) -> Result<(), WrongTail>
    requires additional { length additional.now ≤ 30 }
    requires some { 8 ≤ length sealed.now }
    requires most { length sealed.now < 65544 }
    requires room { length sealed.now ≤ length out.old + 8 }
    ensures answer { is_ok result ≡ is_some (ccm_open (aes128 key.now) nonce.now additional.now sealed.now) }
    ensures memory { out.new ≡ left_by_ccm_open sealed.now (ccm_open (aes128 key.now) nonce.now additional.now sealed.now) out.old }
    ensures exactly { OpensExactly (aes128 key.now) nonce.now additional.now sealed.now }
{
    let (text, tail) = sealed.split_at(sealed.len() - 8);
    let right = Mode::new(key, nonce, additional).cover::<true>(text, out);
    if !same(&right, tail) {
        fill(&mut out[..text.len()], 0);
        return Err(WrongTail);
    }
    Ok(())
}
