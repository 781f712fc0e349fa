// The suite CCMP: AES-128 in CCM over a piece of a data frame. The definition stands in specs/Ccmp.antt.
#![tactic(auto)]

mod fields;
mod suites;

pub use suites::Ccmp;
