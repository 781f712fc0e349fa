// A message sent over a suite: checked, cut, sealed, and laid into memory that is lent.
#![tactic(auto)]

mod asked;
mod checks;
mod plans;
mod sealing;
mod sends;

pub use sends::send_over;
