// What bench/aes.c calls. Only the first says by a contract what it gives; the others time blocks, chained or not.
ghost use Rattle.std.specs.Prelude.{◌≡◌};
ghost use Rattle.aes.specs.Aes.{aes128};

use aes::{Aes128, encrypt_once, load, store};

// One block, encrypted in place.
#[unsafe(no_mangle)]
pub extern "C" fn rattle_aes_block(key: &[u8; 16], block: &mut [u8; 16])
    ensures { block.new ≡ aes128 key.now block.old }
{
    *block = encrypt_once(key, block);
}

// A block encrypted `n` times over, each result the next block: what a chained code does.
#[unsafe(no_mangle)]
pub extern "C" fn rattle_aes_chain(key: &[u8; 16], block: &mut [u8; 16], n: u64) {
    let cipher = Aes128::expand(key);
    let mut s = load(block);
    for _ in 0..n {
        s = cipher.encrypt_word(s);
    }
    *block = store(s);
}

// The sum of `n` blocks under a counter: independent blocks, as in counter mode.
#[unsafe(no_mangle)]
pub extern "C" fn rattle_aes_counter(key: &[u8; 16], block: &mut [u8; 16], n: u64) {
    let cipher = Aes128::expand(key);
    let mut counter = load(block);
    let mut sum = counter;
    for _ in 0..n {
        sum ^= cipher.encrypt_word(counter);
        counter = counter.wrapping_add(1);
    }
    *block = store(sum);
}

// `n` blocks, every second one chained and the others under a counter, as a code and a key stream take them together.
#[unsafe(no_mangle)]
pub extern "C" fn rattle_aes_pair(key: &[u8; 16], block: &mut [u8; 16], n: u64) {
    let cipher = Aes128::expand(key);
    let start = load(block);
    let mut chained = start;
    let mut counter = start;
    let mut sum = start;
    for _ in 0..n / 2 {
        let (code, stream) = cipher.encrypt_two(chained, counter);
        chained = code ^ start;
        sum ^= stream;
        counter = counter.wrapping_add(1);
    }
    *block = store(chained ^ sum);
}
