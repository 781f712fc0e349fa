// Pieces joined in working memory, and held in their place.
ghost use Rattle.std.specs.Prelude.{◌≡◌, ◌+◌, ◌<◌, ◌≤◌, false, ◌++◌, length, take, IfOk, Some};
ghost use Rattle.ends.specs.Holding.{filling, with_partial};
ghost use Rattle.ends.specs.Checks.{first};
ghost use Rattle.ends.specs.Arrivals.{prior, too_short, assembly_checks, part_of};
ghost use Rattle.arriving.specs.Gathering.{Gives, gathered};

use crate::incoming::{Hearing, Incoming};
use crate::pieces::refusal_at;
use ends::{Installation, Joined, LONGEST_MESSAGE, Partial, Refusal};
use frame::{Address, Header};
use suite::Suite;

// What was joined before a piece: nothing before fragment 0.
fn prior<'a>(installation: &'a Installation, header: &Header) -> &'a [u8]
    ensures value { result.now ≡ prior (filling installation.now) header.now }
    ensures most { length result.now ≤ 2312 }
{
    match &installation.partial {
        Some(partial) if header.fragment > 0 => partial.joined.as_slice(),
        _ => &[],
    }
}

// Moves the first octets of working memory up, and puts others before them.
fn join(prior: &[u8], size: usize, working: &mut [u8])
    requires { length prior.now + size ≤ length working.old }
    ensures { take (length prior.now + size) working.new ≡ prior.now ++ take size working.old }
{
    let before = prior.len();
    working.copy_within(..size, before);
    working[..before].copy_from_slice(prior);
}

// A whole message is longer than its code.
fn is_too_short(header: &Header, code: usize, size: usize) -> bool
    ensures { result ≡ too_short header.now code size }
{
    !header.more_fragments && size <= code
}

// A partial message of no octets.
fn no_partial() -> Partial {
    let nobody = Address { octets: [0; 6] };
    Partial {
        joined: Joined::from_slice(&[]),
        fragment: 0,
        counter: 0,
        sequence: 0,
        address1: nobody,
        address2: nobody,
        address3: nobody,
    }
}

impl Incoming<'_> {
    // Joins the piece in working memory to what came before it, where their lengths allow it.
    fn assemble(
        &self,
        code: usize,
        prior: &[u8],
        size: usize,
        working: &mut [u8],
    ) -> Result<usize, Refusal>
        requires code { code ≤ 8 }
        requires piece { size ≤ length working.old }
        requires room { 2560 ≤ length working.old }
        requires prior { length prior.now ≤ 2312 }
        ensures most { IfOk result (λ n. n ≤ 2304 + code) }
        ensures least { IfOk result (λ n. self.now.header.now.more_fragments ≡ false → code < n) }
        ensures value { Gives (first (assembly_checks self.now.place self.now.header.now code (length prior.now + size)) (prior.now ++ take size working.old)) result working.new }
    {
        let total = prior.len() + size;
        if total > LONGEST_MESSAGE + code || is_too_short(self.header, code, total) {
            return Err(Refusal::AssembledLength(self.place, self.header.fragment));
        }
        join(prior, size, working);
        Ok(total)
    }

    // Holds the pieces so far, in the place's own memory.
    // Kept: a partial message that is there is written over, and not made anew: as many octets are copied as there are.
    pub(crate) fn hold(&self, installation: &mut Installation, whole: &[u8])
        requires { length whole.now ≤ 2312 }
        ensures { filling installation.new ≡ with_partial (filling installation.old) (Some (part_of self.now.header.now self.now.counter whole.now)) }
    {
        let header = self.header;
        let partial = installation.partial.get_or_insert_with(no_partial);
        partial.joined.replace(whole);
        partial.fragment = header.fragment;
        partial.counter = self.counter;
        partial.sequence = header.sequence;
        partial.address1 = header.address1;
        partial.address2 = header.address2;
        partial.address3 = header.address3;
    }
}

impl<S: Suite> Hearing<'_, S> {
    // Opens a piece that is in turn and joins it to what came before it: how many octets stand in working memory then.
    // Kept: fixed memory: the octets begin the lent memory, and what is behind them is lent on, to reckon the code in.
    pub(crate) fn gather(
        &self,
        installation: &Installation,
        working: &mut [u8],
    ) -> Result<usize, Refusal>
        requires { 2560 ≤ length working.old }
        ensures most { IfOk result (λ n. n ≤ 2304 + S.Suite.means.sizes.code) }
        ensures least { IfOk result (λ n. self.now.incoming.header.now.more_fragments ≡ false → S.Suite.means.sizes.code < n) }
        ensures value { Gives (gathered S.Suite.means self.now.incoming.place (filling installation.now) self.now.incoming.header.now self.now.incoming.frame.now self.now.incoming.counter) result working.new }
    {
        let incoming = self.incoming;
        incoming.check_turn(installation)?;
        let place = incoming.place;
        let fragment = incoming.header.fragment;
        let opened = self.open_piece(installation, working);
        let size = opened.map_err(|fault| refusal_at(place, fragment, fault))?;
        let code = S::sizes().code;
        incoming.assemble(code, prior(installation, incoming.header), size, working)
    }
}
