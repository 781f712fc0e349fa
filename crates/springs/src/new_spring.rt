// A new spring: its logger and its base speak CCMP.
use crate::air::{Air, send_and_tell};
use crate::parties::{EVERYONE, FAR_END, NEW_BASE, NEW_LOGGER, request};
use crate::telling::tell_granted;
use ccmp::Ccmp;
use ends::Role;
use link::LinkEnd;
use stations::{CCMP_KEY, TKIP_KEY};
use tkip::Tkip;

const READING: &[u8; 28] = b"spring 19: 11.2 l/s, 7.4 C..";

// The same call over another suite: one frame, and no code behind the message.
fn newer_reading_goes_out(rt: &HostRuntime, air: &mut Air) -> anyhow::Result<()> {
    let mut logger = LinkEnd::blank(Ccmp, Tkip);
    tell_granted(
        rt,
        "A newer logger is made at another spring.",
        logger.make(Role::Logger, &NEW_LOGGER),
    )?;
    tell_granted(
        rt,
        "Its base's key is installed, under CCMP.",
        logger.install(FAR_END, &CCMP_KEY, &NEW_BASE, 0, 0),
    )?;
    tell_granted(
        rt,
        "Its group's key is installed, under TKIP.",
        logger.install(EVERYONE, &TKIP_KEY, &NEW_BASE, 0, 0),
    )?;
    let to_base = request(FAR_END, NEW_LOGGER, NEW_BASE, 3_000);
    send_and_tell(rt, &mut logger, &Ccmp, &to_base, READING, air)?;
    println!(rt; "It is no logger's place to speak to the group.")?;
    let to_all = request(EVERYONE, NEW_LOGGER, NEW_BASE, 3_000);
    send_and_tell(rt, &mut logger, &Tkip, &to_all, READING, air)
}

// A relay beside it, over CCMP alone: its place is emptied, and then it has nowhere to send.
fn relay_is_taken_down(rt: &HostRuntime, air: &mut Air) -> anyhow::Result<()> {
    let mut relay = LinkEnd::blank(Ccmp, Ccmp);
    tell_granted(
        rt,
        "A base over CCMP alone is made, and hears the same logger.",
        relay.make(Role::Base, &NEW_BASE),
    )?;
    tell_granted(
        rt,
        "The logger's key is installed.",
        relay.install(FAR_END, &CCMP_KEY, &NEW_LOGGER, 0, 0),
    )?;
    tell_granted(rt, "It is taken down again.", relay.remove(FAR_END))?;
    let to_logger = request(FAR_END, NEW_BASE, NEW_LOGGER, 4_000);
    send_and_tell(rt, &mut relay, &Ccmp, &to_logger, b"anyone there?", air)
}

// Kept: no plainer as one function with `old_spring` over two closures: two of the four lines are the calls.
pub fn new_spring(rt: &HostRuntime) -> anyhow::Result<()> {
    let mut air = Air::still();
    newer_reading_goes_out(rt, &mut air)?;
    println!(rt; "")?;
    relay_is_taken_down(rt, &mut air)
}
