// Tests of the octets, the frames and the trait of suites.
#![tactic(auto)]

pub mod opening;
pub mod plain;
#[cfg(test)]
mod tests;
