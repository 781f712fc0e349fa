// How the story tells what it sees.
use ends::{Arrived, Refusal, Span};
use frame::{Address, Header};
use shown::Text;
use std::fmt;
use suite::Suite;

// An address, and whether it is a group's.
#[derive(Clone, Copy)]
struct Station(Address);

impl fmt::Display for Station {
    fn fmt<W: fmt::Write>(&self, f: &mut fmt::Formatter<W>) -> fmt::Result {
        let kind = if self.0.is_group() { ", a group" } else { "" };
        write!(f, "{}{kind}", self.0)
    }
}

fn tell_header(rt: &HostRuntime, header: &Header) -> anyhow::Result<()> {
    let way = if header.from_ds { "from" } else { "to" };
    let last = if header.more_fragments {
        "more to come"
    } else {
        "the last"
    };
    println!(rt;
        "    {way} a base, message {}, fragment {}, {last}; to {}, from {}, third address {}",
        header.sequence,
        header.fragment,
        Station(header.address1),
        Station(header.address2),
        Station(header.address3)
    )?;
    Ok(())
}

// What stands in a frame: its header, and the counter and key ID that its suite reads.
fn tell_frame<S: Suite>(rt: &HostRuntime, suite: &S, frame: &[u8]) -> anyhow::Result<()> {
    let Ok(header) = Header::read(frame) else {
        return Ok(println!(rt; "    no data frame")?);
    };
    tell_header(rt, &header)?;
    match suite.head(&frame[Header::LENGTH..]) {
        Ok((counter, key_id)) => Ok(println!(rt;
            "    sealed under counter {counter}, key ID {key_id}"
        )?),
        Err(_) => Ok(println!(rt; "    not sealed")?),
    }
}

// The frames that a send has laid into memory.
pub fn tell_frames<S: Suite>(
    rt: &HostRuntime,
    suite: &S,
    frames: &[u8],
    index: &[Span],
) -> anyhow::Result<()> {
    for span in index {
        println!(rt; "  {} octets at {}:", span.length, span.offset)?;
        if let Some(frame) = span.cut(frames) {
            tell_frame(rt, suite, frame)?;
        }
    }
    Ok(())
}

// The ground of a refusal, for the grounds that the story comes upon.
// Kept: no plainer as a Display of the refusal, since these are the words of this story alone.
fn ground(refusal: &Refusal) -> &'static str {
    match refusal {
        Refusal::NoSuchPlace => "a logger does not speak to a group",
        Refusal::PlaceEmpty => "nothing is installed there",
        Refusal::SuiteBlocked | Refusal::ArrivalBlocked => "the suite is blocked",
        Refusal::NotForThisEnd => "it is not for this end",
        Refusal::NoMatch => "no place holds that station",
        Refusal::Replayed(_, _) => "its counter was used before",
        Refusal::OutOfTurn(_, _) => "it does not go on from what is held",
        Refusal::OpenRefused(_, _, _) => "no piece sealed under this key gives these octets",
        Refusal::CodeFailed(_, _) => "the message's code does not agree",
        Refusal::BlockBegun(_, _) => "a code failed again within a minute, and a block begins",
        _ => "another ground",
    }
}

pub fn tell_refusal(rt: &HostRuntime, refusal: &Refusal) -> anyhow::Result<()> {
    println!(rt; "  refused, {}: {}", refusal.number(), ground(refusal))?;
    Ok(())
}

// Whether a call was granted.
pub fn tell_granted(
    rt: &HostRuntime,
    what: &str,
    answer: Result<(), Refusal>,
) -> anyhow::Result<()> {
    println!(rt; "{what}")?;
    match answer {
        Ok(()) => Ok(()),
        Err(refusal) => tell_refusal(rt, &refusal),
    }
}

// What became of a frame, and the message where there is one.
pub fn tell_arrived(rt: &HostRuntime, arrived: Arrived, memory: &[u8]) -> anyhow::Result<()> {
    match arrived {
        Arrived::Held(place, fragment) => {
            println!(rt; "  held at {place}: fragment {fragment}")?;
        }
        Arrived::Delivered(delivery) => {
            println!(rt;
                "  delivered at {}, counter {}, from {:012x} to {:012x}: {}",
                delivery.place,
                delivery.counter,
                delivery.source,
                delivery.destination,
                Text(&memory[..delivery.length.min(memory.len())])
            )?;
        }
    }
    Ok(())
}
