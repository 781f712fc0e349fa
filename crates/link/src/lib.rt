// The link end over any two suites: make, install, remove, send and arrive.
#![tactic(auto)]

pub mod arrivals;
pub mod calls;
pub mod link_ends;
pub mod sends;

pub use link_ends::LinkEnd;
