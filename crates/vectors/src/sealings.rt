// Published frames, whichever the suite.
ghost use Rattle.std.specs.Prelude.{◌≡◌, ◌+◌, ◌<◌, ◌≤◌, T, length};
ghost use Rattle.suite.specs.Meaning.{longest_piece};

use suite::{HeadFault, OpenFault, Suite};

// The longest body.
// Kept: fixed memory, in which bodies and pieces have room, so that no case can run out of it.
const ROOM: usize = 112;

// A piece, and the body that a suite seals it in under a key, a header and a counter, with the key ID 0.
pub(crate) struct Sealing<S: Suite> {
    pub suite: S,
    pub key: &'static [u8],
    pub header: &'static [u8; 24],
    pub counter: u64,
    pub piece: &'static [u8],
    pub body: &'static [u8],
    ghost key_fits: { length key.now ≡ S.Suite.means.sizes.key },
    ghost counter_fits: { counter ≤ S.Suite.means.sizes.top },
    ghost some: { 1 ≤ length piece.now },
    ghost most: { length piece.now ≤ longest_piece },
    ghost room: { length body.now ≤ 112 },
    ghost body_fits: { length body.now ≡ S.Suite.means.sizes.head + length piece.now + S.Suite.means.sizes.tail },
}

impl<S: Suite> Sealing<S> {
    // Right only where the suite's definition gives the body.
    pub(crate) fn seals(&self) -> bool
        ensures { T result → S.Suite.means.seal self.now.key.now self.now.header.now 0 self.now.counter self.now.piece.now ≡ self.now.body.now }
    {
        let header = self.header;
        let mut room = [0u8; ROOM];
        let body = &mut room[..self.body.len()];
        self.suite
            .seal(self.key, header, 0, self.counter, self.piece, body);
        &*body == self.body
    }

    // What the head of a body says, and what becomes of its piece.
    fn open(
        &self,
        body: &[u8],
        piece: &mut [u8],
    ) -> Result<((u64, u8), Result<usize, OpenFault>), HeadFault>
        requires { length body.now ≤ S.Suite.means.sizes.head + length piece.old + S.Suite.means.sizes.tail }
    {
        let header = self.header;
        let head = self.suite.head(body)?;
        Ok((head, self.suite.open(self.key, header, body, piece)))
    }

    // Whether the body opens to the piece.
    pub(crate) fn opens(&self) -> bool {
        let size = self.piece.len();
        let mut room = [0u8; ROOM];
        let piece = &mut room[..size];
        let opened = self.open(self.body, piece);
        opened == Ok(((self.counter, 0), Ok(size))) && &*piece == self.piece
    }

    // Whether the body is refused with these bits of one octet changed, and nothing let out.
    pub(crate) fn refuses(&self, place: usize, bits: u8) -> bool
        requires { place < length self.now.body.now }
    {
        let mut changed = [0u8; ROOM];
        let body = &mut changed[..self.body.len()];
        body.copy_from_slice(self.body);
        body[place] ^= bits;
        let mut room = [0xeeu8; ROOM];
        let piece = &mut room[..self.piece.len()];
        let opened = self.open(body, piece);
        let refused = opened == Ok(((self.counter, 0), Err(OpenFault::Unequal)));
        refused && piece.iter().all(|octet| *octet == 0)
    }
}
