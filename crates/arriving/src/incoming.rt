// A frame on its way to its place.
ghost use Rattle.std.specs.Prelude.{length};
ghost use Rattle.arriving.specs.Gathering.{Admissible, Ready};

use ends::{CodedSuites, Place, Role};
use frame::Header;
use suite::Suite;

// A frame that was admitted, when it came, and which of the end's suites have a code.
#[derive(Clone, Copy, Debug)]
pub struct Admitted<'a> {
    pub coded: CodedSuites,
    pub header: &'a Header,
    pub frame: &'a [u8],
    pub time: u64,
    pub ghost in_range: { Admissible time (length frame.now) },
}

// A frame whose header and head were read, and the place that it is for.
#[derive(Clone, Copy)]
pub struct Incoming<'a> {
    pub place: Place,
    pub header: &'a Header,
    // of its piece
    pub counter: u64,
    pub frame: &'a [u8],
}

// A frame that an end of this role hears, and the suite that it is over, which read its head.
#[derive(Drop)]
pub struct Hearing<'a, S: Suite> {
    pub suite: &'a S,
    pub role: Role,
    pub incoming: Incoming<'a>,
    pub ghost ready: { Ready S.Suite.means incoming.frame.now },
}
