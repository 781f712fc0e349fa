// Make, install and remove, over what an end holds.
#![tactic(auto)]

ghost use Rattle.std.specs.Prelude.{◌≡◌, ◌≤◌, true, length, Some, None, OnOk};
ghost use Rattle.ends.specs.Places.{exists};
ghost use Rattle.ends.specs.Holding.{held, with_place};
ghost use Rattle.ends.specs.Calls.{asked};
ghost use Rattle.ends.specs.Checks.{first};
ghost use Rattle.ends.specs.Installs.{new, make_checks, if_granted, misplaced, peer_held, install_checks, installed, remove_checks};

use ends::{InstallRequest, Installation, LAST_TIME, Place, Refusal, Role, State};
use frame::Address;
use octets::padded;
use suite::Sizes;

// Makes a new end of any that is lent.
pub fn make(state: &mut State, role: Role, own: &Address) -> Result<(), Refusal>
    ensures answered { result ≡ first (make_checks own.now) tt }
    ensures holds { held state.new ≡ if_granted result (new role own.now) (held state.old) }
{
    if own.is_group() {
        return Err(Refusal::WrongAddress);
    }
    *state = State::new(role, *own);
    Ok(())
}

// An address that cannot stand in this place.
fn misplaced(state: &State, place: Place, address: &Address) -> bool
    ensures { result ≡ misplaced (held state.now) place address.now }
{
    let is_own = *address == state.own;
    match place {
        Place::Pairwise(_) => is_own,
        Place::Group(_) => state.role.is_base() && !is_own,
    }
}

// Whether a pairwise place holds this peer already.
fn peer_held(state: &State, place: Place, address: &Address) -> bool
    ensures { result ≡ peer_held (held state.now) place address.now }
{
    !place.is_group() && state.place_of_peer(address).is_some()
}

// The checks of install, in order.
fn check_install(state: &State, sizes: &Sizes, request: &InstallRequest) -> Result<(), Refusal>
    ensures value { result ≡ first (install_checks sizes.now (held state.now) (asked request.now)) tt }
    ensures place { OnOk result (exists request.now.place ≡ true) }
    ensures key { OnOk result (length request.now.key.now ≡ sizes.now.key) }
{
    if request.time > LAST_TIME {
        return Err(Refusal::ClockRange);
    }
    if !request.place.exists() {
        return Err(Refusal::NoSuchPlace);
    }
    if request.address.is_group() {
        return Err(Refusal::WrongAddress);
    }
    if misplaced(state, request.place, &request.address) {
        return Err(Refusal::WrongAddress);
    }
    if request.key.len() != sizes.key {
        return Err(Refusal::KeyLength);
    }
    if request.start > sizes.top {
        return Err(Refusal::StartAboveTop);
    }
    if state.is_blocked(sizes.code > 0, request.time) {
        return Err(Refusal::SuiteBlocked);
    }
    if state.is_filled(request.place) {
        return Err(Refusal::PlaceTaken);
    }
    if peer_held(state, request.place, &request.address) {
        return Err(Refusal::PlaceTaken);
    }
    Ok(())
}

// Fills a place: the first counter sent is 1, and what is delivered must come above the start.
// In line, since the link end calls it once for each pair of suites: out of line a refused install took half as long again.
#[inline]
pub fn install(state: &mut State, sizes: &Sizes, request: &InstallRequest) -> Result<(), Refusal>
    requires { sizes.now.key ≤ 32 }
    ensures answered { result ≡ first (install_checks sizes.now (held state.old) (asked request.now)) tt }
    ensures holds { held state.new ≡ if_granted result (with_place (held state.old) request.now.place (Some (installed (asked request.now)))) (held state.old) }
{
    check_install(state, sizes, request)?;
    let installation = Installation {
        key: padded(request.key),
        address: request.address,
        send: 1,
        replay: request.start,
        partial: None,
    };
    state.put(request.place, Some(installation));
    Ok(())
}

// Empties a place.
pub fn remove(state: &mut State, place: Place) -> Result<(), Refusal>
    ensures answered { result ≡ first (remove_checks (held state.old) place) tt }
    ensures holds { held state.new ≡ if_granted result (with_place (held state.old) place None) (held state.old) }
{
    if !place.exists() {
        return Err(Refusal::NoSuchPlace);
    }
    if !state.is_filled(place) {
        return Err(Refusal::PlaceEmpty);
    }
    state.put(place, None);
    Ok(())
}
