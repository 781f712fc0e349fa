// Published vectors, run: a line for each, with its name and `ok` or `WRONG`.
#![tactic(auto)]

mod aes_cases;
mod ccmp_cases;
mod michael_cases;
mod mixing_cases;
mod sealings;
mod stream_cases;
mod tkip_cases;

use std::{fmt, io};

// A line for a case: its name, and whether it came out as published.
fn tell<N: fmt::Display + Drop>(rt: &HostRuntime, name: N, right: bool) -> io::Result<()> {
    let verdict = if right { "ok" } else { "WRONG" };
    println!(rt; "{name}: {verdict}")
}

fn main(rt: HostRuntime) -> io::Result<()> {
    stream_cases::run(&rt)?;
    aes_cases::run(&rt)?;
    michael_cases::run(&rt)?;
    mixing_cases::run(&rt)?;
    tkip_cases::run(&rt)?;
    ccmp_cases::run(&rt)
}
