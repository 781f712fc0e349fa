// What stands before and behind the opening of a frame: whether it is for this end, which place it is for, and what a
// failed code does. None of this depends on a suite's functions.
#![tactic(auto)]

pub mod admitting;
pub mod failing;
pub mod matching;

pub use admitting::{Lengths, admit};
pub use failing::fail;
pub use matching::find_place;
