// AES-128: the key expansion and the encryption of blocks, by words and T-tables.
// The definition stands in specs/Aes.antt. A block is sixteen octets, or the word of 128 bits that they make, the first of
// them least significant.
#![tactic(auto)]

ghost use Rattle.std.specs.Prelude.{◌≡◌, ◌<◌, [], length, slice_index_or};
ghost use Rattle.aes.specs.Aes.{next_key, expanded, encrypted, aes128};
ghost use Rattle.aes.specs.Words.{octets, held, round_keys};

use octets::array_at;
use sbox::substitute;
use state::State;
use ttable::{Mixing, Placing};

mod state;
mod ttable;

// The round constants.
const RCON: [u8; 10] = [0x01, 0x02, 0x04, 0x08, 0x10, 0x20, 0x40, 0x80, 0x1b, 0x36];

// An expanded key: the eleven round keys.
#[derive(Clone, Copy)]
pub struct Aes128 {
    keys: [State; 11],
}

// One block under a key that serves for no other.
pub fn encrypt_once(key: &[u8; 16], block: &[u8; 16]) -> [u8; 16]
    ensures { result ≡ aes128 key.now block.now }
{
    Aes128::expand(key).encrypt(block)
}

// The block of sixteen octets, as a word.
// Kept: no From, since it takes a slice that has to be of sixteen octets.
pub fn load(block: &[u8]) -> u128
    requires { length block.now ≡ 16 }
    ensures { octets result ≡ block.now }
{
    let octets = array_at::<16>(block, 0);
    u128::from_le_bytes(octets)
}

// The sixteen octets of a block.
// Kept: no From, beside `load`: both types are std's, and the words of a state lie between.
pub fn store(block: u128) -> [u8; 16]
    ensures { result ≡ octets block }
{
    State::from(block).into()
}

// The round key after `key`, by the round constant `x`.
fn next_key(x: u8, key: State) -> State
    ensures { held result ≡ next_key x (held key) }
{
    let [first, second, third, fourth] = key.d.to_le_bytes();
    let turned = u32::from_le_bytes([
        substitute(second),
        substitute(third),
        substitute(fourth),
        substitute(first),
    ]);
    let a = key.a ^ (turned ^ u32::from(x));
    let b = key.b ^ a;
    let c = key.c ^ b;
    let d = key.d ^ c;
    State { a, b, c, d }
}

impl Aes128 {
    pub fn expand(key: &[u8; 16]) -> Aes128
        ensures { round_keys result ≡ expanded key.now }
    {
        let mut keys = [State::from(load(key)); 11];
        // Kept: by index, since each key is made of the one before it in the same array, and nothing is known of what an array
        // ends as that is lent to a zip.
        for (n, x) in RCON.iter().enumerate() {
            keys[n + 1] = next_key(*x, keys[n]);
        }
        Aes128 { keys }
    }

    // The sixteen octets of round key `n`.
    pub fn round_key(&self, n: usize) -> [u8; 16]
        requires { n < 11 }
        ensures { result ≡ slice_index_or (round_keys self.now) n [] }
    {
        self.keys[n].into()
    }

    // A block as a word: what a mode of operation calls, since words go by registers.
    pub fn encrypt_word(&self, block: u128) -> u128
        ensures { octets result ≡ encrypted (round_keys self.now) (octets block) }
    {
        let mut s = State::from(block) ^ self.keys[0];
        for key in &self.keys[1..10] {
            s = key.round::<Mixing>(s);
        }
        self.keys[10].round::<Placing>(s).into()
    }

    // Two blocks.
    pub fn encrypt_two(&self, x: u128, y: u128) -> (u128, u128)
        ensures first { octets result.0 ≡ encrypted (round_keys self.now) (octets x) }
        ensures second { octets result.1 ≡ encrypted (round_keys self.now) (octets y) }
    {
        (self.encrypt_word(x), self.encrypt_word(y))
    }

    // A block as its octets.
    pub fn encrypt(&self, block: &[u8; 16]) -> [u8; 16]
        ensures { result ≡ encrypted (round_keys self.now) block.now }
    {
        store(self.encrypt_word(load(block)))
    }
}
