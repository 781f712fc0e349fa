// What CCMP takes from a header and a head: the nonce, the additional data, the counter.
ghost use Rattle.std.specs.Prelude.{◌≡◌, ◌^◌, ◌<◌, ◌≤◌, length};
ghost use Rattle.frame.specs.Headers.{header_length};
ghost use Rattle.ccmp.specs.Ccmp.{ccmp_nonce, ccmp_additional, head_octets, counter_in};

use octets::{big, little, put};
use suite::key_id_octet;

pub(crate) fn nonce(header: &[u8], counter: u64) -> [u8; 13]
    requires { length header.now ≡ header_length }
    ensures { result ≡ ccmp_nonce header.now counter }
{
    let mut octets = [0u8; 13];
    put(&mut octets, 1, &header[10..16]);
    big::put_number::<6>(&mut octets, 7, counter);
    octets
}

pub(crate) fn additional(header: &[u8]) -> [u8; 22]
    requires { length header.now ≡ header_length }
    ensures { result ≡ ccmp_additional header.now }
{
    let mut octets = [0u8; 22];
    octets[0] = header[0] & 0x8f;
    octets[1] = header[1] & 0xc7 | 0x40;
    put(&mut octets, 2, &header[4..22]);
    octets[20] = header[22] & 0x0f;
    octets
}

pub(crate) fn head(key_id: u8, counter: u64) -> [u8; 8]
    requires { key_id ≤ 3 }
    ensures { result ≡ head_octets key_id counter }
{
    let [a, b, c, d, e, f, _, _] = counter.to_le_bytes();
    [a, b, 0, key_id_octet(key_id), c, d, e, f]
}

pub(crate) fn counter(body: &[u8]) -> u64
    requires { 8 ≤ length body.now }
    ensures value { result ≡ counter_in body.now }
    ensures bound { result < 2 ^ 48 }
{
    little::number_at::<2>(body, 0) + 65536 * little::number_at::<4>(body, 4)
}
