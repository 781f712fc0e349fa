// Which place a frame is for.
ghost use Rattle.std.specs.Prelude.{◌≡◌, true, IfOk, if◌then◌else◌, Ok, Err};
ghost use Rattle.ends.specs.declared.places.Place.TheVariants.{Group};
ghost use Rattle.ends.specs.declared.refusals.Refusal.TheVariants.{NoMatch};
ghost use Rattle.ends.specs.Places.{exists};
ghost use Rattle.ends.specs.Holding.{held, place_of_peer};
ghost use Rattle.ends.specs.Arrivals.{group_match, pairwise_or_refuse, matched};

use ends::{Place, Refusal, State};
use frame::{Address, Header};

// The group's place with this key ID, where it is held under this address.
fn find_group(state: &State, address: &Address, key_id: u8) -> Result<Place, Refusal>
    ensures value { result ≡ (if group_match (held state.now) address.now key_id then Ok (Group key_id) else Err NoMatch) }
    ensures exists { IfOk result (λ q. exists q ≡ true) }
{
    let place = Place::Group(key_id);
    if place.exists()
        && state
            .slot(place)
            .is_some_and(|installation| installation.is_of(address))
    {
        Ok(place)
    } else {
        Err(Refusal::NoMatch)
    }
}

// The far end's place.
fn find_pairwise(state: &State, address: &Address) -> Result<Place, Refusal>
    ensures value { result ≡ pairwise_or_refuse (place_of_peer (held state.now) address.now) }
    ensures exists { IfOk result (λ q. exists q ≡ true) }
{
    state
        .place_of_peer(address)
        .map(Place::Pairwise)
        .ok_or(Refusal::NoMatch)
}

// The place that Address 2 and the key ID choose: a pairwise one has key ID 0.
pub fn find_place(state: &State, header: &Header, key_id: u8) -> Result<Place, Refusal>
    ensures value { result ≡ matched (held state.now) header.now key_id }
    ensures exists { IfOk result (λ q. exists q ≡ true) }
{
    if header.address1.is_group() {
        return find_group(state, &header.address2, key_id);
    }
    if key_id != 0 {
        return Err(Refusal::NoMatch);
    }
    find_pairwise(state, &header.address2)
}
