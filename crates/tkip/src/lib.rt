// TKIP as a suite: RC4 under a key mixed for each frame, CRC-32 behind the piece, Michael over the message.
#![tactic(auto)]

ghost use Rattle.std.specs.Prelude.{◌≡◌, ◌+◌, ◌^◌, ◌<◌, ◌≤◌, length, take, drop};
ghost use Rattle.frame.specs.Addresses.{address_at};
ghost use Rattle.frame.specs.Headers.{header_length};
ghost use Rattle.rc4.specs.Rc4.{covered};
ghost use Rattle.mixing.specs.Mixing.{rc4_key};
ghost use Rattle.tkip.specs.Tkip.{head_octets, counter_in, code_key, tkip_sizes, tkip_code, tkip_seal, tkip_head, tkip_open, tkip};
ghost use Rattle.tkip.specs.Lawful;
ghost use Rattle.std.proofs.Common.{rules};

use crc32::check_octets;
use frame::{Address, Heading};
use octets::{array_at, fill, put, same};
use rc4::Rc4;
use suite::{
    Direction, HeadFault, LONGEST_PIECE, OpenFault, Sizes, Suite, key_id_in, key_id_octet,
};

#[derive(Clone, Copy)]
pub struct Tkip;

// A body has its head, a piece of 1 to 2,312 octets and its tail.
// Kept: two constants for each suite: in the trait they would be functions, whose values the head of a suite would have to
// look up.
const SHORTEST_BODY: usize = Tkip::HEAD_LENGTH + 1 + Tkip::TAIL_LENGTH;

const LONGEST_BODY: usize = Tkip::HEAD_LENGTH + LONGEST_PIECE + Tkip::TAIL_LENGTH;

fn head_octets(key_id: u8, counter: u64) -> [u8; 8]
    requires { key_id ≤ 3 }
    ensures { result ≡ head_octets key_id counter }
{
    let [tsc0, tsc1, tsc2, tsc3, tsc4, tsc5, _, _] = counter.to_le_bytes();
    // the second octet keeps RC4 from weak keys
    [
        tsc1,
        (tsc1 | 0x20) & 0x7f,
        tsc0,
        key_id_octet(key_id),
        tsc2,
        tsc3,
        tsc4,
        tsc5,
    ]
}

fn counter_in(body: &[u8]) -> u64
    requires { 8 ≤ length body.now }
    ensures value { result ≡ counter_in body.now }
    ensures bound { result < 2 ^ 48 }
{
    u64::from_le_bytes([body[2], body[0], body[4], body[5], body[6], body[7], 0, 0])
}

fn code_key(direction: Direction, key: &[u8]) -> &[u8]
    requires { length key.now ≡ 32 }
    ensures value { result.now ≡ code_key direction key.now }
    ensures long { length result.now ≡ 8 }
{
    match direction {
        Direction::FromBase => &key[16..24],
        Direction::FromLogger => &key[24..32],
    }
}

// The RC4 key of a frame, mixed for the transmitter, Address 2, and the counter.
fn frame_key(key: &[u8], header: &[u8], counter: u64) -> [u8; 16]
    requires key { length key.now ≡ 32 }
    requires header { length header.now ≡ header_length }
    requires counter { counter < 2 ^ 48 }
    ensures { result ≡ rc4_key key.now (address_at 10 header.now) counter }
{
    mixing::rc4_key(key, &Address::at(header, 10), counter)
}

// RC4 taken away from what stands beyond the head: writes the piece, and answers the CRC-32 behind it.
fn bare(frame_key: &[u8; 16], sealed: &[u8], piece: &mut [u8]) -> [u8; 4]
    requires { length sealed.now ≡ length piece.old + 4 }
    ensures check { result ≡ drop (length piece.old) (covered frame_key.now sealed.now) }
    ensures piece { piece.new ≡ take (length piece.old) (covered frame_key.now sealed.now) }
{
    let (front, check) = sealed.split_at(piece.len());
    let mut rc4 = Rc4::keyed(frame_key);
    piece.copy_from_slice(front);
    rc4.apply(piece);
    let mut check = array_at(check, 0);
    rc4.apply(&mut check);
    check
}

impl Suite for Tkip {
    const HEAD_LENGTH: usize = 8;

    const TAIL_LENGTH: usize = 4;

    const CODE_LENGTH: usize = 8;

    const KEY_LENGTH: usize = 32;

    const TOP_COUNTER: u64 = 0xffff_ffff_ffff;

    ghost sizes = { tkip_sizes };

    ghost code = { tkip_code };

    ghost seal = { tkip_seal };

    ghost head = { tkip_head };

    ghost open = { tkip_open };

    ghost means = { tkip };

    ghost built = { Prim.search rules };

    ghost keeps = { Lawful.keeps };

    fn sizes() -> Sizes {
        Sizes {
            head: Self::HEAD_LENGTH,
            tail: Self::TAIL_LENGTH,
            code: Self::CODE_LENGTH,
            key: Self::KEY_LENGTH,
            top: Self::TOP_COUNTER,
        }
    }

    fn code(
        &self,
        key: &[u8],
        direction: Direction,
        heading: &Heading,
        message: &[u8],
        out: &mut [u8],
    ) {
        let code = michael::code(code_key(direction, key), heading, message);
        put(out, 0, &code);
    }

    fn seal(
        &self,
        key: &[u8],
        header: &[u8],
        key_id: u8,
        counter: u64,
        piece: &[u8],
        out: &mut [u8],
    ) {
        let end = Self::HEAD_LENGTH + piece.len();
        put(out, 0, &head_octets(key_id, counter));
        put(out, Self::HEAD_LENGTH, piece);
        put(out, end, &check_octets(piece));
        rc4::cover(
            &frame_key(key, header, counter),
            &mut out[Self::HEAD_LENGTH..end + Self::TAIL_LENGTH],
        );
    }

    fn head(&self, body: &[u8]) -> Result<(u64, u8), HeadFault> {
        let key_id = key_id_in(body, SHORTEST_BODY)?;
        Ok((counter_in(body), key_id))
    }

    fn open(
        &self,
        key: &[u8],
        header: &[u8],
        body: &[u8],
        out: &mut [u8],
    ) -> Result<usize, OpenFault> {
        let size = body.len();
        if size > LONGEST_BODY {
            return Err(OpenFault::Long);
        }
        let count = size - Self::HEAD_LENGTH - Self::TAIL_LENGTH;
        let piece = &mut out[..count];
        let frame_key = frame_key(key, header, counter_in(body));
        let check = bare(&frame_key, &body[Self::HEAD_LENGTH..], piece);
        if !same(&check_octets(piece), &check) {
            fill(piece, 0);
            return Err(OpenFault::Unequal);
        }
        Ok(count)
    }
}
