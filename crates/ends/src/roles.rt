// What an end holds, whatever its suites are.
ghost use Rattle.std.specs.Prelude.{◌≡◌};
ghost use Rattle.ends.specs.Places.{is_base};

use crate::places::Installation;
use frame::Address;

// A base collects from many loggers; a logger has one base.
#[derive(Clone, Copy, PartialEq, Eq, Debug)]
pub enum Role {
    Base,
    Logger,
}

impl Role {
    pub fn is_base(self) -> bool
        ensures { result ≡ is_base self }
    {
        self == Role::Base
    }
}

// Which of an end's two suites put a code behind a message: only these are blocked, and emptied by a block.
#[derive(Clone, Copy, Debug)]
pub struct CodedSuites {
    pub pairwise: bool,
    pub group: bool,
}

#[derive(Drop)]
pub struct State {
    pub role: Role,
    pub own: Address,
    // what fills each place: pairwise 0 to 15, and then key IDs 1 to 3
    pub slots: [Option<Installation>; 19],
    // the number of the next message, modulo 4,096
    pub sequence: u16,
    // when the last code failed
    pub last_failure: Option<u64>,
    // when the last block ends
    pub block_end: Option<u64>,
}
