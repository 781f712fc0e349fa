// The same reading from a newer logger, under CCMP: the tail vouches for each piece, so no code is put behind the message.
use crate::opening::{Receiver, tell_opened};
use crate::sealing::READING;
use ccmp::Ccmp;
use shown::{Hex, Text};
use stations::CCMP_KEY;
use suite::{PieceFault, Suite};

// Kept: no plainer as one with sealing.rt's: what is told of a fault differs between the suites.
fn words(fault: PieceFault) -> &'static str {
    match fault {
        PieceFault::Head(_) => "it is no sealed body",
        PieceFault::Open(_) => {
            "refused: no piece sealed under this key and header gives these octets"
        }
    }
}

// Kept: no plainer as one with sealing.rt's: what is told of a piece differs, and the rest is the call of `tell_opened`.
fn tell_reading(rt: &HostRuntime, header: &[u8; 24], body: &[u8; 34]) -> anyhow::Result<()> {
    let mut piece = [0u8; 18];
    let receiver = Receiver {
        suite: &Ccmp,
        key: &CCMP_KEY,
        header,
    };
    match tell_opened(rt, receiver, body, &mut piece)? {
        Ok(size) => println!(rt;
            "  the tail agrees, and the reading is: {}",
            Text(&piece[0..size.min(18)])
        )?,
        Err(fault) => println!(rt; "  {}", words(fault))?,
    }
    Ok(())
}

pub fn newer_story(rt: &HostRuntime, header: &[u8; 24]) -> anyhow::Result<()> {
    println!(rt;
        "A newer logger seals the same reading with CCMP:\n  head, reading under AES-128 in counter mode, tail:"
    )?;
    let mut body = [0u8; 34];
    Ccmp.seal(&CCMP_KEY, header, 0, 1, READING, &mut body);
    println!(rt; " {}", Hex(&body))?;
    println!(rt; "The base opens it:")?;
    tell_reading(rt, header, &body)?;
    println!(rt; "With another address in its header:")?;
    let mut moved = *header;
    moved[9] ^= 1;
    tell_reading(rt, &moved, &body)
}
