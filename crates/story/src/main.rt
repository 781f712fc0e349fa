// The story: what takes place on the link, told in plain words.
#![tactic(auto)]

mod newer;
mod opening;
mod sealing;
mod telling;

use frame::Header;
use newer::newer_story;
use sealing::sealing_story;
use shown::Hex;
use stations::{BASE, LOGGER};
use telling::{tell_header, tell_read};

// The header of a whole message from the logger to the base.
const WHOLE_MESSAGE: Header = Header {
    to_ds: true,
    from_ds: false,
    more_fragments: false,
    protected: true,
    order: false,
    address1: BASE,
    address2: LOGGER,
    address3: BASE,
    sequence: 0,
    fragment: 0,
};

// A frame begins with its header; what is too short or of another kind is none.
fn header_story(rt: &HostRuntime) -> anyhow::Result<()> {
    println!(rt;
        "A logger at a spring has a reading for its base. It writes the header of a frame:"
    )?;
    tell_header(rt, &WHOLE_MESSAGE)?;
    let octets = WHOLE_MESSAGE.octets();
    println!(rt; "In the air that is 24 octets:\n {}", Hex(&octets))?;
    println!(rt; "The base reads them:")?;
    tell_read(rt, &octets)?;
    println!(rt; "Cut short by one octet, it reads:")?;
    tell_read(rt, &octets[0..23])?;
    let mut beacon = octets;
    beacon[0] = 0x80;
    println!(rt; "Of a frame whose first octet is 80, it reads:")?;
    tell_read(rt, &beacon)
}

fn story(rt: &HostRuntime) -> anyhow::Result<()> {
    header_story(rt)?;
    println!(rt; "")?;
    let header = WHOLE_MESSAGE.octets();
    sealing_story(rt, &header)?;
    println!(rt; "")?;
    newer_story(rt, &header)
}

fn main(rt: HostRuntime) -> anyhow::Result<()> {
    story(&rt)
}
