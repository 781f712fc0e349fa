// A body as an end reads it, whichever the suite.
ghost use Rattle.std.specs.Prelude.{◌≡◌, ◌+◌, ◌≤◌, length};

use suite::{PieceFault, Suite};

// The end's suite and key, and the header of the frame that it has received.
#[derive(Clone, Copy)]
pub struct Receiver<'a, S: Suite> {
    pub suite: &'a S,
    pub key: &'a [u8],
    pub header: &'a [u8; 24],
}

// Tells what the head of a body says, and opens its piece: how long that is, or why there is none. The outer error is that
// of printing.
pub fn tell_opened<S: Suite>(
    rt: &HostRuntime,
    receiver: Receiver<S>,
    body: &[u8],
    piece: &mut [u8],
) -> anyhow::Result<Result<usize, PieceFault>>
    requires key { length receiver.key.now ≡ S.Suite.means.sizes.key }
    requires room { length body.now ≤ S.Suite.means.sizes.head + length piece.old + S.Suite.means.sizes.tail }
{
    let Receiver { suite, key, header } = receiver;
    match suite.head(body) {
        Ok((counter, key_id)) => {
            println!(rt; "  its head says counter {counter}, key ID {key_id}")?;
            Ok(
                suite
                    .open(key, header, body, piece)
                    .map_err(PieceFault::Open),
            )
        }
        Err(fault) => Ok(Err(PieceFault::Head(fault))),
    }
}
