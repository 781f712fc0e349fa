// An old spring: its logger and its base speak TKIP.
use crate::air::{Air, send_and_tell};
use crate::parties::{EVERYONE, FAR_END, request};
use crate::telling::tell_granted;
use ccmp::Ccmp;
use ends::Role;
use link::LinkEnd;
use stations::{BASE, CCMP_KEY, GROUP, LOGGER, TKIP_KEY};
use tkip::Tkip;

const READING: &[u8; 70] =
    b"spring 12, 18 November: 4.7 l/s, 6.1 C; 17 November: 4.8 l/s, 6.1 C...";

// A reading goes out in two frames, since with its code it is longer than a piece.
fn reading_goes_out(rt: &HostRuntime, air: &mut Air) -> anyhow::Result<()> {
    let mut logger = LinkEnd::blank(Tkip, Tkip);
    tell_granted(
        rt,
        "An old logger is made at a spring.",
        logger.make(Role::Logger, &LOGGER),
    )?;
    tell_granted(
        rt,
        "Its base's key is installed, under TKIP.",
        logger.install(FAR_END, &TKIP_KEY, &BASE, 0, 0),
    )?;
    let to_base = request(FAR_END, LOGGER, BASE, 1_000);
    send_and_tell(rt, &mut logger, &Tkip, &to_base, READING, air)
}

// The base speaks to all of its loggers at once; its group suite is another than its pairwise one.
fn word_to_all(rt: &HostRuntime, air: &mut Air) -> anyhow::Result<()> {
    let mut base = LinkEnd::blank(Tkip, Ccmp);
    tell_granted(
        rt,
        "A base is made, over TKIP for each logger and CCMP for all at once.",
        base.make(Role::Base, &BASE),
    )?;
    tell_granted(
        rt,
        "The group's key is installed.",
        base.install(EVERYONE, &CCMP_KEY, &BASE, 0, 0),
    )?;
    let to_all = request(EVERYONE, BASE, GROUP, 2_000);
    send_and_tell(
        rt,
        &mut base,
        &Ccmp,
        &to_all,
        b"report at noon from now on",
        air,
    )
}

// Kept: no plainer as one function with `new_spring` over two closures: two of the four lines are the calls.
pub fn old_spring(rt: &HostRuntime) -> anyhow::Result<()> {
    let mut air = Air::still();
    reading_goes_out(rt, &mut air)?;
    println!(rt; "")?;
    word_to_all(rt, &mut air)
}
