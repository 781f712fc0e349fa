// The piece of a frame, opened in working memory.
ghost use Rattle.std.specs.Prelude.{◌≡◌, ◌≤◌, length, take, drop, IfOk};
ghost use Rattle.frame.specs.Headers.{header_length};
ghost use Rattle.suite.specs.Meaning.{left_by_open};
ghost use Rattle.ends.specs.Holding.{filling, key_for};
ghost use Rattle.arriving.specs.Gathering.{piece_length, refused_at};

use crate::incoming::Hearing;
use ends::{Installation, Place, Refusal};
use frame::Header;
use suite::{PieceFault, Suite};

// The octets of a key that the suite uses.
pub fn key_for<'a, S: Suite>(installation: &'a Installation) -> &'a [u8]
    ensures value { result.now ≡ key_for S.Suite.means (filling installation.now) }
    ensures long { length result.now ≡ S.Suite.means.sizes.key }
{
    let length = S::sizes().key;
    &installation.key[..length]
}

pub fn body_of(frame: &[u8]) -> &[u8]
    requires { header_length ≤ length frame.now }
    ensures { result.now ≡ drop header_length frame.now }
{
    &frame[Header::LENGTH..]
}

// The refusal that a piece's fault is.
// Kept: no `From`: a fault knows neither place nor fragment.
pub fn refusal_at(place: Place, fragment: u8, fault: PieceFault) -> Refusal
    ensures { result ≡ refused_at place fragment fault }
{
    match fault {
        PieceFault::Head(fault) => Refusal::HeadRefused(fault),
        PieceFault::Open(fault) => Refusal::OpenRefused(place, fragment, fault),
    }
}

impl<S: Suite> Hearing<'_, S> {
    // Opens the piece of a frame whose head was read.
    pub(crate) fn open_piece(
        &self,
        installation: &Installation,
        working: &mut [u8],
    ) -> Result<usize, PieceFault>
        requires { length self.now.incoming.frame.now ≤ length working.old }
        ensures answer { result ≡ piece_length (S.Suite.means.opens (key_for S.Suite.means (filling installation.now)) (take header_length self.now.incoming.frame.now) (drop header_length self.now.incoming.frame.now)) }
        ensures fits { IfOk result (λ size. size ≤ length working.old) }
        ensures memory { working.new ≡ left_by_open S.Suite.means.sizes (drop header_length self.now.incoming.frame.now) (S.Suite.means.opens (key_for S.Suite.means (filling installation.now)) (take header_length self.now.incoming.frame.now) (drop header_length self.now.incoming.frame.now)) working.old }
    {
        let frame = self.incoming.frame;
        let key = key_for::<S>(installation);
        let header = &frame[..Header::LENGTH];
        Ok(self.suite.open(key, header, body_of(frame), working)?)
    }
}
