// The published vectors of Michael: a line for each, with its name and whether this Michael gives it.
ghost use Rattle.std.specs.Prelude.{◌≡◌};
ghost use Rattle.vectors.specs.Repeating.{repeated};

use crate::tell;
use michael::{State, bare_code};
use std::{fmt, io};

// The block function applied some times over.
struct BlockVector {
    name: &'static str,
    from: State,
    times: u32,
    to: State,
}

// The code of octets with no addresses before them. Key and code are eight octets, the first highest.
struct CodeVector {
    key: u64,
    text: &'static str,
    code: u64,
}

impl fmt::Display for BlockVector {
    fn fmt<W: fmt::Write>(&self, f: &mut fmt::Formatter<W>) -> fmt::Result {
        write!(f, "Michael block function, {}", self.name)
    }
}

impl fmt::Display for CodeVector {
    fn fmt<W: fmt::Write>(&self, f: &mut fmt::Formatter<W>) -> fmt::Result {
        write!(f, "Michael code of \"{}\"", self.text)
    }
}

const BLOCKS: [BlockVector; 5] = [
    BlockVector {
        name: "zeros",
        from: State { left: 0, right: 0 },
        times: 1,
        to: State { left: 0, right: 0 },
    },
    BlockVector {
        name: "right one",
        from: State { left: 0, right: 1 },
        times: 1,
        to: State {
            left: 0xc00015a8,
            right: 0xc0000b95,
        },
    },
    BlockVector {
        name: "left one",
        from: State { left: 1, right: 0 },
        times: 1,
        to: State {
            left: 0x6b519593,
            right: 0x572b8b8a,
        },
    },
    BlockVector {
        name: "mixed",
        from: State {
            left: 0x01234567,
            right: 0x83659326,
        },
        times: 1,
        to: State {
            left: 0x441492c2,
            right: 0x1d8427ed,
        },
    },
    BlockVector {
        name: "left one, 1,000-fold",
        from: State { left: 1, right: 0 },
        times: 1000,
        to: State {
            left: 0x9f04c4ad,
            right: 0x2ec6c2bf,
        },
    },
];

const CODES: [CodeVector; 6] = [
    CodeVector {
        key: 0,
        text: "",
        code: 0x82925c1ca1d130b8,
    },
    CodeVector {
        key: 0x82925c1ca1d130b8,
        text: "M",
        code: 0x434721ca40639b3f,
    },
    CodeVector {
        key: 0x434721ca40639b3f,
        text: "Mi",
        code: 0xe8f9becae97e5d29,
    },
    CodeVector {
        key: 0xe8f9becae97e5d29,
        text: "Mic",
        code: 0x90038fc6cf13c1db,
    },
    CodeVector {
        key: 0x90038fc6cf13c1db,
        text: "Mich",
        code: 0xd55e100510128986,
    },
    CodeVector {
        key: 0xd55e100510128986,
        text: "Michael",
        code: 0x0a942b124ecaa546,
    },
];

fn repeated(from: State, times: u32) -> State
    ensures { result ≡ repeated times from }
{
    let mut state = from;
    for _ in 0..times {
        state = state.block();
    }
    state
}

pub fn run(rt: &HostRuntime) -> io::Result<()> {
    for v in &BLOCKS {
        tell(rt, v, repeated(v.from, v.times) == v.to)?;
    }
    for v in &CODES {
        let code = bare_code(&v.key.to_be_bytes(), v.text.as_bytes());
        tell(rt, v, code == v.code.to_be_bytes())?;
    }
    Ok(())
}
