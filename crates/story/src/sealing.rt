// A reading sealed by a logger and opened by its base, under TKIP.
use crate::opening::{Receiver, tell_opened};
use frame::Heading;
use octets::{put, same};
use shown::{Hex, Text};
use stations::{BASE, LOGGER, TKIP_KEY};
use suite::{Direction, HeadFault, OpenFault, PieceFault, Suite};
use tkip::Tkip;

pub const READING: &[u8; 18] = b"spring 12: 4.7 l/s";

const HEADING: Heading = Heading {
    destination: BASE,
    source: LOGGER,
    priority: 0,
};

// The body of the reading's frame, with counter 1: head, the reading and its code under RC4, tail.
fn sealed_reading(header: &[u8; 24]) -> [u8; 38] {
    let mut piece = [0u8; 26];
    put(&mut piece, 0, READING);
    Tkip.code(
        &TKIP_KEY,
        Direction::FromLogger,
        &HEADING,
        READING,
        &mut piece[18..],
    );
    let mut body = [0u8; 38];
    Tkip.seal(&TKIP_KEY, header, 0, 1, &piece, &mut body);
    body
}

// A message that has come whole: its last eight octets are its code.
fn tell_message(rt: &HostRuntime, whole: &[u8]) -> anyhow::Result<()> {
    if whole.len() <= 8 {
        println!(rt; "  no message: there is no octet before the code")?;
        return Ok(());
    }
    let (message, given) = whole.split_at(whole.len() - 8);
    let mut code = [0u8; 8];
    Tkip.code(
        &TKIP_KEY,
        Direction::FromLogger,
        &HEADING,
        message,
        &mut code,
    );
    if same(&code, given) {
        println!(rt; "  the code agrees, and the reading is: {}", Text(message))?;
    } else {
        println!(rt; "  the code does not agree")?;
    }
    Ok(())
}

// Kept: no plainer as one with newer.rt's: what is told of a fault differs between the suites.
fn words(fault: PieceFault) -> &'static str {
    match fault {
        PieceFault::Head(HeadFault::Short) => "too short for a body",
        PieceFault::Head(HeadFault::Unmarked) => "not marked as a sealed body",
        PieceFault::Open(OpenFault::Long) => "too long for a body",
        PieceFault::Open(OpenFault::Unequal) => {
            "refused: no piece sealed under this key gives these octets"
        }
    }
}

// Kept: no plainer as one with newer.rt's: what is told of a piece differs, and the rest is the call of `tell_opened`.
fn tell_reading(rt: &HostRuntime, header: &[u8; 24], body: &[u8; 38]) -> anyhow::Result<()> {
    let mut piece = [0u8; 26];
    let receiver = Receiver {
        suite: &Tkip,
        key: &TKIP_KEY,
        header,
    };
    match tell_opened(rt, receiver, body, &mut piece)? {
        Ok(size) => tell_message(rt, &piece[0..size.min(26)]),
        Err(fault) => Ok(println!(rt; "  {}", words(fault))?),
    }
}

pub fn sealing_story(rt: &HostRuntime, header: &[u8; 24]) -> anyhow::Result<()> {
    println!(rt;
        "The logger puts the code of its reading behind it and seals both with TKIP:\n  head, reading and code under RC4, tail:"
    )?;
    let body = sealed_reading(header);
    println!(rt; " {}", Hex(&body))?;
    println!(rt; "The base opens it:")?;
    tell_reading(rt, header, &body)?;
    let mut forged = body;
    forged[20] ^= 1;
    println!(rt; "With one bit changed on the way:")?;
    tell_reading(rt, header, &forged)
}
