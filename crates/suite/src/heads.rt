// What the heads of TKIP and CCMP have in common: the octet of the key ID.
ghost use Rattle.std.specs.Prelude.{◌≡◌, ◌≤◌, length, OnOk};
ghost use Rattle.suite.specs.Heads.{key_id_in, key_id_octet};

use crate::faults::HeadFault;

// The fourth octet of a head: the mark, and the key ID above it.
pub fn key_id_octet(key_id: u8) -> u8
    requires { key_id ≤ 3 }
    ensures { result ≡ key_id_octet key_id }
{
    key_id * 64 + 32
}

// The key ID in a body, which has `least` octets if it is one at all.
pub fn key_id_in(body: &[u8], least: usize) -> Result<u8, HeadFault>
    requires { 4 ≤ least }
    ensures value { result ≡ key_id_in least body.now }
    ensures long { OnOk result (least ≤ length body.now) }
{
    if body.len() < least {
        return Err(HeadFault::Short);
    }
    let octet = body[3];
    if octet / 32 % 2 != 1 {
        return Err(HeadFault::Unmarked);
    }
    Ok(octet / 64)
}
