// Known answers of the key mixing, a line for each.
ghost use Rattle.std.specs.Prelude.{◌≡◌, ◌/◌, ◌^◌, T};
ghost use Rattle.mixing.specs.Mixing.{phase1, rc4_key};

use crate::tell;
use frame::Address;
use mixing::Phase1;
use std::io;

// A temporal key, a transmitter and a counter, with the words of phase 1 and the key of RC4 that they give.
struct Case {
    name: &'static str,
    key: &'static [u8; 16],
    transmitter: Address,
    counter: u64,
    words: [u16; 5],
    seed: &'static [u8; 16],
}

const CASES: [Case; 8] = [
    Case {
        name: "TKIP key mixing 1",
        key: b"\x00\x01\x02\x03\x04\x05\x06\x07\x08\x09\x0a\x0b\x0c\x0d\x0e\x0f",
        transmitter: Address {
            octets: [0x10, 0x22, 0x33, 0x44, 0x55, 0x66],
        },
        counter: 0x0000_0000_0000,
        words: [0x3dd2, 0x016e, 0x76f4, 0x8697, 0xb2e8],
        seed: b"\x00\x20\x00\x33\xea\x8d\x2f\x60\xca\x6d\x13\x74\x23\x4a\x66\x0b",
    },
    Case {
        name: "TKIP key mixing 2",
        key: b"\x00\x01\x02\x03\x04\x05\x06\x07\x08\x09\x0a\x0b\x0c\x0d\x0e\x0f",
        transmitter: Address {
            octets: [0x10, 0x22, 0x33, 0x44, 0x55, 0x66],
        },
        counter: 0x0000_0000_0001,
        words: [0x3dd2, 0x016e, 0x76f4, 0x8697, 0xb2e8],
        seed: b"\x00\x20\x01\x90\xff\xdc\x31\x43\x89\xa9\xd9\xd0\x74\xfd\x20\xaa",
    },
    Case {
        name: "TKIP key mixing 3",
        key: b"\x63\x89\x3b\x25\x08\x40\xb8\xae\x0b\xd0\xfa\x7e\x61\xd2\x78\x3e",
        transmitter: Address {
            octets: [0x64, 0xf2, 0xea, 0xed, 0xdc, 0x25],
        },
        counter: 0x20dc_fd43_ffff,
        words: [0x7c67, 0x49d7, 0x9724, 0xb5e9, 0xb4f1],
        seed: b"\xff\x7f\xff\x93\x81\x0f\xc6\xe5\x8f\x5d\xd3\x26\x25\x15\x44\xce",
    },
    Case {
        name: "TKIP key mixing 4",
        key: b"\x63\x89\x3b\x25\x08\x40\xb8\xae\x0b\xd0\xfa\x7e\x61\xd2\x78\x3e",
        transmitter: Address {
            octets: [0x64, 0xf2, 0xea, 0xed, 0xdc, 0x25],
        },
        counter: 0x20dc_fd44_0000,
        words: [0x5a5d, 0x73a8, 0xa859, 0x2ec1, 0xdc8b],
        seed: b"\x00\x20\x00\x49\x8c\xa4\x71\xfc\xfb\xfa\xa1\x6e\x36\x10\xf0\x05",
    },
    Case {
        name: "TKIP key mixing 5",
        key: b"\x98\x3a\x16\xef\x4f\xac\xb3\x51\xaa\x9e\xcc\x27\x1d\x73\x09\xe2",
        transmitter: Address {
            octets: [0x50, 0x9c, 0x4b, 0x17, 0x27, 0xd9],
        },
        counter: 0xf0a4_10fc_058c,
        words: [0xf2df, 0xebb1, 0x88d3, 0x5923, 0xa07c],
        seed: b"\x05\x25\x8c\xf4\xd8\x51\x52\xf4\xd9\xaf\x1a\x64\xf1\xd0\x70\x21",
    },
    Case {
        name: "TKIP key mixing 6",
        key: b"\x98\x3a\x16\xef\x4f\xac\xb3\x51\xaa\x9e\xcc\x27\x1d\x73\x09\xe2",
        transmitter: Address {
            octets: [0x50, 0x9c, 0x4b, 0x17, 0x27, 0xd9],
        },
        counter: 0xf0a4_10fc_058d,
        words: [0xf2df, 0xebb1, 0x88d3, 0x5923, 0xa07c],
        seed: b"\x05\x25\x8d\x09\xf8\x15\x43\xb7\x6a\x59\x6f\xc2\xc6\x73\x8b\x30",
    },
    Case {
        name: "TKIP key mixing 7",
        key: b"\xc8\xad\xc1\x6a\x8b\x4d\xda\x3b\x4d\xd5\xb6\x54\x38\x35\x9b\x05",
        transmitter: Address {
            octets: [0x94, 0x5e, 0x24, 0x4e, 0x4d, 0x6e],
        },
        counter: 0x8b15_73b7_30f8,
        words: [0xeff1, 0x3f38, 0xa364, 0x60a9, 0x76f3],
        seed: b"\x30\x30\xf8\x65\x0d\xa0\x73\xea\x61\x4e\xa8\xf4\x74\xee\x03\x19",
    },
    Case {
        name: "TKIP key mixing 8",
        key: b"\xc8\xad\xc1\x6a\x8b\x4d\xda\x3b\x4d\xd5\xb6\x54\x38\x35\x9b\x05",
        transmitter: Address {
            octets: [0x94, 0x5e, 0x24, 0x4e, 0x4d, 0x6e],
        },
        counter: 0x8b15_73b7_30f9,
        words: [0xeff1, 0x3f38, 0xa364, 0x60a9, 0x76f3],
        seed: b"\x30\x30\xf9\x31\x55\xce\x29\x34\x37\xcc\x76\x71\x27\x16\xab\x8f",
    },
];

// Right only where the definitions give both the words and the key of RC4.
fn right(case: &Case) -> bool
    ensures words { T result → phase1 case.now.key.now case.now.transmitter (case.now.counter / 2 ^ 16) ≡ case.now.words }
    ensures seed { T result → rc4_key case.now.key.now case.now.transmitter case.now.counter ≡ case.now.seed.now }
{
    let Ok(upper) = u32::try_from(case.counter / 65536) else {
        return false;
    };
    let key = case.key;
    let phase1 = Phase1::mix(key, &case.transmitter, upper);
    let seed = mixing::rc4_key(key, &case.transmitter, case.counter);
    phase1.words == case.words && seed == *case.seed
}

pub fn run(rt: &HostRuntime) -> io::Result<()> {
    for case in &CASES {
        tell(rt, case.name, right(case))?;
    }
    Ok(())
}
