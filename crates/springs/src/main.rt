// The story: what takes place on the link, told in plain words.
#![tactic(auto)]

mod air;
mod forging;
mod new_spring;
mod old_spring;
mod parties;
mod telling;

use new_spring::new_spring;
use old_spring::old_spring;

fn story(rt: &HostRuntime) -> anyhow::Result<()> {
    old_spring(rt)?;
    println!(rt; "")?;
    new_spring(rt)
}

fn main(rt: HostRuntime) -> anyhow::Result<()> {
    figures::worked_figures();
    story(&rt)
}
