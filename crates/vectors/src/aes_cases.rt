// The examples of FIPS 197 for AES-128. A block and a key are written as published, the first octet leftmost.
use crate::tell;
use aes::{Aes128, encrypt_once, load, store};
use std::io;

struct Encryption {
    name: &'static str,
    key: u128,
    block: u128,
    encrypted: u128,
}

const ENCRYPTIONS: [Encryption; 2] = [
    Encryption {
        name: "AES-128 key 000102..0f",
        key: 0x000102030405060708090a0b0c0d0e0f,
        block: 0x00112233445566778899aabbccddeeff,
        encrypted: 0x69c4e0d86a7b0430d8cdb78070b4c55a,
    },
    Encryption {
        name: "AES-128 key 2b7e15..3c",
        key: 0x2b7e151628aed2a6abf7158809cf4f3c,
        block: 0x3243f6a8885a308d313198a2e0370734,
        encrypted: 0x3925841d02dc09fbdc118597196a0b32,
    },
];

struct RoundKey {
    name: &'static str,
    key: u128,
    number: usize,
    octets: u128,
}

const ROUND_KEYS: [RoundKey; 2] = [
    RoundKey {
        name: "AES-128 round key 1",
        key: 0x2b7e151628aed2a6abf7158809cf4f3c,
        number: 1,
        octets: 0xa0fafe1788542cb123a339392a6c7605,
    },
    RoundKey {
        name: "AES-128 round key 10",
        key: 0x2b7e151628aed2a6abf7158809cf4f3c,
        number: 10,
        octets: 0xd014f9a8c9ee2589e13f0cc8b6630ca6,
    },
];

// The block is encrypted by its octets, by words, and beside another block.
fn encrypts(case: &Encryption) -> bool {
    let key = case.key.to_be_bytes();
    let block = case.block.to_be_bytes();
    let cipher = Aes128::expand(&key);
    let word = load(&block);
    let alone = store(cipher.encrypt_word(word));
    let (left, right) = cipher.encrypt_two(word, 0);
    let (_, beside) = cipher.encrypt_two(right, word);
    u128::from_be_bytes(encrypt_once(&key, &block)) == case.encrypted
        && u128::from_be_bytes(alone) == case.encrypted
        && u128::from_be_bytes(store(left)) == case.encrypted
        && u128::from_be_bytes(store(beside)) == case.encrypted
}

fn expands(case: &RoundKey) -> bool {
    if case.number > 10 {
        return false;
    }
    let cipher = Aes128::expand(&case.key.to_be_bytes());
    u128::from_be_bytes(cipher.round_key(case.number)) == case.octets
}

// Kept: no plainer by a helper: each list has its own test.
pub fn run(rt: &HostRuntime) -> io::Result<()> {
    for case in &ENCRYPTIONS {
        tell(rt, case.name, encrypts(case))?;
    }
    for case in &ROUND_KEYS {
        tell(rt, case.name, expands(case))?;
    }
    Ok(())
}
