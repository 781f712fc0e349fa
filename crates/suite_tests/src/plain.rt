// A suite for tests, which hides nothing: it shows that the trait can be met.
ghost use Rattle.suite_tests.specs.Plain.{plain_sizes, plain_code, plain_seal, plain_head, plain_open, plain};
ghost use Rattle.suite_tests.specs.Lawful;
ghost use Rattle.std.proofs.Common.{rules};

use frame::Heading;
use octets::{fill, put};
use suite::{Direction, HeadFault, LONGEST_PIECE, OpenFault, Sizes, Suite};

#[derive(Clone, Copy)]
pub struct Plain;

impl Suite for Plain {
    const HEAD_LENGTH: usize = 2;

    const TAIL_LENGTH: usize = 1;

    const CODE_LENGTH: usize = 1;

    const KEY_LENGTH: usize = 4;

    const TOP_COUNTER: u64 = 255;

    ghost sizes = { plain_sizes };

    ghost code = { plain_code };

    ghost seal = { plain_seal };

    ghost head = { plain_head };

    ghost open = { plain_open };

    ghost means = { plain };

    ghost built = { Prim.search rules };

    ghost keeps = { Lawful.keeps };

    fn sizes() -> Sizes {
        Sizes {
            head: Self::HEAD_LENGTH,
            tail: Self::TAIL_LENGTH,
            code: Self::CODE_LENGTH,
            key: Self::KEY_LENGTH,
            top: Self::TOP_COUNTER,
        }
    }

    fn code(
        &self,
        key: &[u8],
        direction: Direction,
        heading: &Heading,
        message: &[u8],
        out: &mut [u8],
    ) {
        put(out, 0, &[(message.len() % 256) as u8]);
    }

    fn seal(
        &self,
        key: &[u8],
        header: &[u8],
        key_id: u8,
        counter: u64,
        piece: &[u8],
        out: &mut [u8],
    ) {
        put(out, 0, &[counter as u8, key_id]);
        put(out, Self::HEAD_LENGTH, piece);
        put(out, Self::HEAD_LENGTH + piece.len(), &[key[0]]);
    }

    fn head(&self, body: &[u8]) -> Result<(u64, u8), HeadFault> {
        if body.len() < Self::HEAD_LENGTH + 1 + Self::TAIL_LENGTH {
            return Err(HeadFault::Short);
        }
        if body[1] >= 4 {
            return Err(HeadFault::Unmarked);
        }
        Ok((u64::from(body[0]), body[1]))
    }

    fn open(
        &self,
        key: &[u8],
        header: &[u8],
        body: &[u8],
        out: &mut [u8],
    ) -> Result<usize, OpenFault> {
        let size = body.len();
        if size > Self::HEAD_LENGTH + LONGEST_PIECE + Self::TAIL_LENGTH {
            return Err(OpenFault::Long);
        }
        let inner = size - Self::HEAD_LENGTH - Self::TAIL_LENGTH;
        if body[size - 1] != key[0] {
            fill(&mut out[..inner], 0);
            return Err(OpenFault::Unequal);
        }
        put(out, 0, &body[Self::HEAD_LENGTH..size - Self::TAIL_LENGTH]);
        Ok(inner)
    }
}
