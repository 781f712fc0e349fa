// What is in the air: frames that one end sends and another takes in.
use crate::telling::{tell_arrived, tell_frames, tell_refusal};
use ends::{Request, Span};
use link::LinkEnd;
use shown::Text;
use suite::Suite;

// Memory for the frames of one message.
// Kept: no plainer as one list of frames, since a send is lent these two, and lays into the second where each frame
// stands in the first.
#[derive(Drop)]
pub struct Air {
    frames: [u8; 512],
    index: [Span; 4],
}

impl Air {
    pub fn still() -> Air {
        Air {
            frames: [0; 512],
            index: [Span::NOWHERE; 4],
        }
    }

    // Frame n of the message in the air.
    pub fn frame(&self, n: usize) -> Option<&[u8]> {
        self.index.get(n)?.cut(&self.frames)
    }
}

// Sends a message, and tells the frames.
pub fn send_and_tell<P: Suite, G: Suite, S: Suite>(
    rt: &HostRuntime,
    end: &mut LinkEnd<P, G>,
    suite: &S,
    request: &Request,
    message: &[u8],
    air: &mut Air,
) -> anyhow::Result<()> {
    println!(rt; "It sends: {}", Text(message))?;
    let mut working = [0u8; 2560];
    match end.send(
        request,
        message,
        &mut air.frames,
        &mut air.index,
        &mut working,
    ) {
        Ok(count) => tell_frames(
            rt,
            suite,
            &air.frames,
            &air.index[..count.min(air.index.len())],
        ),
        Err(refusal) => tell_refusal(rt, &refusal),
    }
}

// A frame comes to an end at a time: what is answered.
pub fn arrive_and_tell<P: Suite, G: Suite>(
    rt: &HostRuntime,
    end: &mut LinkEnd<P, G>,
    what: &str,
    frame: &[u8],
    time: u64,
) -> anyhow::Result<()> {
    println!(rt; "{what}")?;
    let mut working = [0u8; 2560];
    let mut message = [0u8; 2304];
    match end.arrive(frame, time, &mut working, &mut message) {
        Ok(arrived) => tell_arrived(rt, arrived, &message),
        Err(refusal) => tell_refusal(rt, &refusal),
    }
}
