// What becomes of a frame that was admitted, over its suite.
#![tactic(auto)]

pub mod arrivals;
pub mod completing;
pub mod incoming;
mod joining;
mod pieces;
mod turns;

pub use arrivals::arrive_over;
pub use incoming::Admitted;
