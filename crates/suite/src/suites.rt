// The trait of suites.
ghost use Rattle.std.specs.Prelude.{◌≡◌, ℕ, ◌+◌, ◌≤◌, true, length, is_ok, Result};
ghost use Rattle.octets.specs.Octets.{Octets, begins};
ghost use Rattle.frame.specs.Headers.{header_length};
ghost use Rattle.frame.specs.declared.addresses.Address.{Address};
ghost use Rattle.suite.specs.declared.faults.HeadFault.{HeadFault};
ghost use Rattle.suite.specs.declared.faults.OpenFault.{OpenFault};
ghost use Rattle.suite.specs.declared.sizes.Direction.{Direction};
ghost use Rattle.suite.specs.declared.sizes.Sizes.{Sizes};
ghost use Rattle.suite.specs.Meaning.{Meaning, meaning, longest_piece, length_or_fault, left_by_open};
ghost use Rattle.suite.specs.Laws.{Heads, Opens, Keeps};

use crate::faults::{HeadFault, OpenFault};
use crate::sizes::{Direction, Sizes};
use frame::Heading;

// Kept: each function asks for the key's length. A type of keys would be no plainer: an end holds 32 octets whatever its
// suites are, and lends a part. The header's too: an array of 24 would ask more of callers, who lend the start of a frame.
pub trait Suite {
    const HEAD_LENGTH: usize;

    const TAIL_LENGTH: usize;

    const CODE_LENGTH: usize;

    const KEY_LENGTH: usize;

    const TOP_COUNTER: u64;

    // what the constants and the functions are
    ghost sizes: { Sizes };

    ghost code: { Octets → Direction → Address → Address → ℕ → Octets → Octets };

    ghost seal: { Octets → Octets → ℕ → ℕ → Octets → Octets };

    ghost head: { Octets → Result (ℕ × ℕ) HeadFault };

    ghost open: { Octets → Octets → Octets → Result Octets OpenFault };

    // all of these as one value, which the contracts cite, and the laws that bind it
    ghost means: { Meaning };

    // The five constants as one value.
    // Kept: each suite writes it. Written once, here, it would ask of every suite that its constants are these sizes, which
    // a caller's own suite need not show: code over any suite reads its sizes here alone.
    fn sizes() -> Sizes
        ensures { result ≡ means.sizes };

    // Writes the code of a message to the start of a memory.
    fn code(
        &self,
        key: &[u8],
        direction: Direction,
        heading: &Heading,
        message: &[u8],
        out: &mut [u8],
    )
        requires key { length key.now ≡ means.sizes.key }
        requires room { means.sizes.code ≤ length out.old }
        ensures length { length (means.code key.now direction heading.now.destination heading.now.source heading.now.priority message.now) ≡ means.sizes.code }
        ensures memory { out.new ≡ begins (means.code key.now direction heading.now.destination heading.now.source heading.now.priority message.now) out.old };

    // Writes a sealed piece, from its head to its tail, to the start of a memory.
    fn seal(
        &self,
        key: &[u8],
        header: &[u8],
        key_id: u8,
        counter: u64,
        piece: &[u8],
        out: &mut [u8],
    )
        requires key { length key.now ≡ means.sizes.key }
        requires header { length header.now ≡ header_length }
        requires key_id { key_id ≤ 3 }
        requires counter { counter ≤ means.sizes.top }
        requires some { 1 ≤ length piece.now }
        requires most { length piece.now ≤ longest_piece }
        requires room { means.sizes.head + length piece.now + means.sizes.tail ≤ length out.old }
        ensures length { length (means.seal key.now header.now key_id counter piece.now) ≡ means.sizes.head + length piece.now + means.sizes.tail }
        ensures memory { out.new ≡ begins (means.seal key.now header.now key_id counter piece.now) out.old };

    // The counter and the key ID of a body.
    fn head(&self, body: &[u8]) -> Result<(u64, u8), HeadFault>
        ensures value { result ≡ means.head body.now }
        ensures says { Heads means.sizes body.now result };

    // Writes the piece of a body to the start of a memory, and answers its length.
    fn open(
        &self,
        key: &[u8],
        header: &[u8],
        body: &[u8],
        out: &mut [u8],
    ) -> Result<usize, OpenFault>
        requires key { length key.now ≡ means.sizes.key }
        requires header { length header.now ≡ header_length }
        requires accepted { is_ok (means.head body.now) ≡ true }
        requires room { length body.now ≤ means.sizes.head + length out.old + means.sizes.tail }
        ensures answer { result ≡ length_or_fault (means.opens key.now header.now body.now) }
        ensures says { Opens means.sizes body.now result }
        ensures memory { out.new ≡ left_by_open means.sizes body.now (means.opens key.now header.now body.now) out.old };

    ghost built: { means ≡ meaning sizes code seal head «open» };

    ghost keeps: { Keeps means };
}
