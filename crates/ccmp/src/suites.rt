// CCMP as a suite.
ghost use Rattle.ccmp.specs.Ccmp.{ccmp_sizes, ccmp_code, ccmp_seal, ccmp_head, ccmp_open, ccmp};
ghost use Rattle.ccmp.specs.Laws;
ghost use Rattle.std.proofs.Common.{rules};

use crate::fields;
use frame::Heading;
use octets::{array_at, put};
use suite::{Direction, HeadFault, LONGEST_PIECE, OpenFault, Sizes, Suite, key_id_in};

#[derive(Clone, Copy)]
pub struct Ccmp;

// A body has its head, a piece of 1 to 2,312 octets and its tail.
// Kept: two constants for each suite: in the trait they would be functions, whose values the head of a suite would have to
// look up.
const SHORTEST_BODY: usize = Ccmp::HEAD_LENGTH + 1 + Ccmp::TAIL_LENGTH;

const LONGEST_BODY: usize = Ccmp::HEAD_LENGTH + LONGEST_PIECE + Ccmp::TAIL_LENGTH;

impl Suite for Ccmp {
    const HEAD_LENGTH: usize = 8;

    const TAIL_LENGTH: usize = 8;

    const CODE_LENGTH: usize = 0;

    const KEY_LENGTH: usize = 16;

    const TOP_COUNTER: u64 = 0xffff_ffff_ffff;

    ghost sizes = { ccmp_sizes };

    ghost code = { ccmp_code };

    ghost seal = { ccmp_seal };

    ghost head = { ccmp_head };

    ghost open = { ccmp_open };

    ghost means = { ccmp };

    ghost built = { Prim.search rules };

    ghost keeps = { Laws.keeps };

    fn sizes() -> Sizes {
        Sizes {
            head: Self::HEAD_LENGTH,
            tail: Self::TAIL_LENGTH,
            code: Self::CODE_LENGTH,
            key: Self::KEY_LENGTH,
            top: Self::TOP_COUNTER,
        }
    }

    // A message has no code: nothing is written.
    fn code(
        &self,
        key: &[u8],
        direction: Direction,
        heading: &Heading,
        message: &[u8],
        out: &mut [u8],
    ) {}

    fn seal(
        &self,
        key: &[u8],
        header: &[u8],
        key_id: u8,
        counter: u64,
        piece: &[u8],
        out: &mut [u8],
    ) {
        put(out, 0, &fields::head(key_id, counter));
        ccm::seal(
            &array_at(key, 0),
            &fields::nonce(header, counter),
            &fields::additional(header),
            piece,
            &mut out[Self::HEAD_LENGTH..],
        );
    }

    fn head(&self, body: &[u8]) -> Result<(u64, u8), HeadFault> {
        let key_id = key_id_in(body, SHORTEST_BODY)?;
        Ok((fields::counter(body), key_id))
    }

    fn open(
        &self,
        key: &[u8],
        header: &[u8],
        body: &[u8],
        out: &mut [u8],
    ) -> Result<usize, OpenFault> {
        if body.len() > LONGEST_BODY {
            return Err(OpenFault::Long);
        }
        ccm::open(
            &array_at(key, 0),
            &fields::nonce(header, fields::counter(body)),
            &fields::additional(header),
            &body[Self::HEAD_LENGTH..],
            out,
        )
        .map_err(|_wrong_tail| OpenFault::Unequal)?;
        Ok(body.len() - Self::HEAD_LENGTH - Self::TAIL_LENGTH)
    }
}
