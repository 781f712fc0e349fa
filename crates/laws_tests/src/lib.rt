// The laws over runs at a suite, and a run that meets what they ask.
#![tactic(auto)]

pub mod run;
