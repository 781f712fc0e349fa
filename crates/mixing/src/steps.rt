// The steps of the two phases, on words in place.
ghost use Rattle.std.specs.Prelude.{◌≡◌, ℕ, ◌+◌, ◌*◌, ◌%◌, ◌^◌, ◌<◌, ◌≤◌, map, length};
ghost use Rattle.std.specs.List.{range_with_len};
ghost use Rattle.mixing.specs.Mixing.{word, around, started, round_keys, rounded, stirred, front, seeded};

use crate::substitution::substitute;
use frame::Address;
use octets::{array_at, put};
use std::array;

// Word n of octets.
fn word_at(octets: &[u8], n: usize) -> u16
    requires { 2 * n + 2 ≤ length octets.now }
    ensures { result ≡ word octets.now n }
{
    u16::from_le_bytes(array_at(octets, 2 * n))
}

// The first N words of octets.
fn words_of<const N: usize>(octets: &[u8]) -> [u16; N]
    requires { 2 * N ≤ length octets.now }
    ensures { result ≡ map (word octets.now) (range_with_len 0 N) }
{
    array::from_fn(|n| word_at(octets, n))
}

// Each word in turn grows by what the one before it gives, under a word of the key. Before the first comes the last.
fn go_around<const N: usize, F: Fn(u16) -> u16>(keys: &[u16; N], words: &mut [u16; N], give: F)
    requires some { 0 < N }
    requires callable { F.IsAlwaysCallable give }
    ensures { (gives : ℕ → ℕ) → ((x y : ℕ) → x < 2 ^ 16 → F.post give x y → y ≡ gives x) → words.new ≡ around gives keys.now words.old }
{
    let mut before = words[N - 1];
    // Kept: the word of the key by its place. Tried with `iter_mut().zip(keys)`, whose proof does not close: once the loop
    // has lent the words to a zip, nothing is known of what they end as.
    for (n, word) in words.iter_mut().enumerate() {
        *word = word.wrapping_add(give(before ^ keys[n]));
        before = *word;
    }
}

// The words that phase 1 starts from.
pub(crate) fn start(transmitter: &Address, upper: u32) -> [u16; 5]
    ensures { result ≡ started transmitter.now upper }
{
    let [a, b, c] = words_of::<3>(&transmitter.octets);
    [(upper % 65536) as u16, (upper / 65536) as u16, a, b, c]
}

// The words of the key for round i of phase 1: the even ones or the odd ones, and the first of them again.
fn round_keys(key: &[u8; 16], i: u16) -> [u16; 5]
    ensures { result ≡ round_keys key.now (i % 2) }
{
    let [a, b, c, d, e, f, g, h] = words_of::<8>(key);
    if i % 2 == 0 {
        [a, c, e, g, a]
    } else {
        [b, d, f, h, b]
    }
}

// Round i of phase 1.
pub(crate) fn round(key: &[u8; 16], i: u16, words: &mut [u16; 5])
    ensures { words.new ≡ rounded key.now i words.old }
{
    go_around(&round_keys(key, i), words, substitute);
    words[4] = words[4].wrapping_add(i);
}

// The second step of phase 2.
pub(crate) fn stir(key: &[u8; 16], words: &mut [u16; 6])
    ensures { words.new ≡ stirred key.now words.old }
{
    let [a, b, c, d, e, f, g, h] = words_of::<8>(key);
    go_around(&[a, b, c, d, e, f], words, substitute);
    go_around(&[g, h, 0, 0, 0, 0], words, |word| word.rotate_right(1));
}

// The first four octets of the key of RC4.
fn front_octets(mixed: u16, lower: u16) -> [u8; 4]
    ensures { result ≡ front mixed lower }
{
    let [low, high] = lower.to_le_bytes();
    let [fourth, _] = (mixed / 2).to_le_bytes();
    [high, (high | 0x20) & 0x7f, low, fourth]
}

// The third step of phase 2: the key of RC4 from the mixed words.
pub(crate) fn seed(key: &[u8; 16], words: &[u16; 6], lower: u16) -> [u8; 16]
    ensures { result ≡ seeded key.now words.now lower }
{
    let mut octets = [0u8; 16];
    put(
        &mut octets,
        0,
        &front_octets(words[5] ^ word_at(key, 0), lower),
    );
    put(&mut octets, 4, words.map(u16::to_le_bytes).as_flattened());
    octets
}
