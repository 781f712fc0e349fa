// A send as it is asked for, over a suite of some sizes.
ghost use Rattle.suite.specs.Laws.{Bounded};

use ends::{Request, State};
use suite::Sizes;

// How long the message is, and the three memories that are lent for it.
#[derive(Clone, Copy)]
pub struct Lengths {
    pub message: usize,
    pub frames: usize,
    pub index: usize,
    pub working: usize,
}

// All that decides whether a send is granted, and how it goes out.
#[derive(Clone, Copy)]
pub struct Asked<'a> {
    pub sizes: Sizes,
    pub state: &'a State,
    pub request: &'a Request,
    pub lengths: Lengths,
    ghost bounded: { Bounded sizes },
}
