// Tests of the link end at its edges: lengths, counters, clocks and memories that just fit, or are one too many.
#![tactic(auto)]

#[cfg(test)]
mod ends_at_hand;
#[cfg(test)]
mod install_cases;
#[cfg(test)]
mod send_cases;
