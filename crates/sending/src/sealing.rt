// The frames of a plan, sealed into memory that is lent.
ghost use Rattle.std.specs.Prelude.{◌≡◌, ◌+◌, ◌*◌, ◌<◌, ◌≤◌, length};
ghost use Rattle.octets.specs.Octets.{begins};
ghost use Rattle.frame.specs.Headers.{header_length};
ghost use Rattle.suite.specs.Meaning.{longest_piece};
ghost use Rattle.ends.specs.Sends.{header_of, piece_of, frame_of, frames_of, coded, room, joined, spans};
ghost use Rattle.sending.specs.Outgoings.{Fits, Ready, frames_from};
ghost use Rattle.ends.specs.Steps.{rows_begin};

use crate::plans::{Outgoing, direction};
use ends::{Plan, Span};
use frame::{Header, Heading};
use octets::put;
use suite::Suite;

// Octets on their way into frames: what their plan, their suite and its part of the key make of them.
#[derive(Drop)]
struct Sealing<'a, S: Suite> {
    suite: &'a S,
    plan: &'a Plan,
    key: &'a [u8],
    octets: &'a [u8],
    ghost key_long: { length key.now ≡ S.Suite.means.sizes.key },
    ghost fits: { Fits S.Suite.means.sizes plan.now (length octets.now) },
}

impl<S: Suite> Sealing<'_, S> {
    // The header of frame i.
    fn header(&self, i: usize) -> Header
        requires { i < 16 }
        ensures { result ≡ header_of self.now.plan.now i }
    {
        let plan = self.plan;
        let base = plan.role.is_base();
        Header {
            to_ds: !base,
            from_ds: base,
            more_fragments: i + 1 < plan.count,
            protected: true,
            order: false,
            address1: plan.address1,
            address2: plan.address2,
            address3: plan.address3,
            sequence: plan.sequence,
            fragment: i as u8,
        }
    }

    // Piece i of the octets.
    fn piece(&self, i: usize) -> &[u8]
        requires { i < self.now.plan.now.count }
        ensures value { result.now ≡ piece_of self.now.plan.now self.now.octets.now i }
        ensures some { 1 ≤ length result.now }
        ensures most { length result.now ≤ longest_piece }
    {
        let rest = &self.octets[i * self.plan.piece_length..];
        &rest[..rest.len().min(self.plan.piece_length)]
    }

    // Writes frame i to the start of a memory, and answers its length.
    fn write_frame(&self, i: usize, out: &mut [u8]) -> usize
        requires count { i < self.now.plan.now.count }
        requires room { header_length + S.Suite.means.sizes.head + length (piece_of self.now.plan.now self.now.octets.now i) + S.Suite.means.sizes.tail ≤ length out.old }
        ensures length { result ≡ length (frame_of S.Suite.means self.now.plan.now self.now.key.now self.now.octets.now i) }
        ensures sizes { result ≡ header_length + S.Suite.means.sizes.head + length (piece_of self.now.plan.now self.now.octets.now i) + S.Suite.means.sizes.tail }
        ensures memory { out.new ≡ begins (frame_of S.Suite.means self.now.plan.now self.now.key.now self.now.octets.now i) out.old }
    {
        let plan = self.plan;
        let sizes = S::sizes();
        let header = self.header(i).octets();
        let piece = self.piece(i);
        put(out, 0, &header);
        self.suite.seal(
            self.key,
            &header,
            plan.key_id,
            plan.counter + i as u64,
            piece,
            &mut out[Header::LENGTH..],
        );
        Header::LENGTH + sizes.head + piece.len() + sizes.tail
    }

    // Writes all frames of the plan end to end, and where each stands.
    fn write_frames(&self, frames: &mut [u8], index: &mut [Span])
        requires frames_room { room S.Suite.means.sizes self.now.plan.now.count (length self.now.octets.now) ≤ length frames.old }
        requires index_room { self.now.plan.now.count ≤ length index.old }
        ensures frames { frames.new ≡ begins (joined (frames_of S.Suite.means self.now.plan.now self.now.key.now self.now.octets.now)) frames.old }
        ensures index { index.new ≡ rows_begin (spans 0 (frames_of S.Suite.means self.now.plan.now self.now.key.now self.now.octets.now)) index.old }
    {
        let mut offset = 0;
        for (i, row) in index[..self.plan.count].iter_mut().enumerate() {
            let length = self.write_frame(i, &mut frames[offset..]);
            *row = Span { offset, length };
            offset += length;
        }
    }
}

// Writes a message, and its code behind it, to the start of a memory.
fn write_coded<S: Suite>(suite: &S, plan: &Plan, key: &[u8], message: &[u8], working: &mut [u8])
    requires key { length key.now ≡ S.Suite.means.sizes.key }
    requires room { length message.now + S.Suite.means.sizes.code ≤ length working.old }
    ensures length { length (coded S.Suite.means plan.now key.now message.now) ≡ length message.now + S.Suite.means.sizes.code }
    ensures memory { working.new ≡ begins (coded S.Suite.means plan.now key.now message.now) working.old }
{
    let heading = Heading {
        destination: plan.destination,
        source: plan.source,
        priority: 0,
    };
    put(working, 0, message);
    let behind = &mut working[message.len()..];
    suite.code(key, direction(plan.role), &heading, message, behind);
}

// Writes the frames of a granted send, and where each stands. Working memory then holds the message and its code.
pub fn carry_out<S: Suite>(
    suite: &S,
    outgoing: &Outgoing,
    message: &[u8],
    frames: &mut [u8],
    index: &mut [Span],
    working: &mut [u8],
)
    requires ready { Ready S.Suite.means.sizes outgoing.now.plan (length message.now) (length frames.old) (length index.old) (length working.old) }
    ensures frames { frames.new ≡ begins (joined (frames_from S.Suite.means outgoing.now message.now)) frames.old }
    ensures index { index.new ≡ rows_begin (spans 0 (frames_from S.Suite.means outgoing.now message.now)) index.old }
{
    let sizes = S::sizes();
    let key = &outgoing.key[..sizes.key];
    write_coded(suite, &outgoing.plan, key, message, working);
    let sealing = Sealing {
        suite,
        plan: &outgoing.plan,
        key,
        octets: &working[..message.len() + sizes.code],
    };
    sealing.write_frames(frames, index);
}
