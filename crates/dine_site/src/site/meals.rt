// The forks of all places: into a meal, back, and out.
ghost use Rattle.std.specs.Prelude.{◌≡◌, ◌+◌, ◌≤◌, [], All, map, length, vec_capacity};
ghost use Rattle.dine_site.specs.Places.{place_in_meal, places_with_forks, forks_of, tokens_of};
ghost use Rattle.dine_site.specs.private.PlaceSteps.{IsLiftable};

use super::Parts;
use super::places::Place;
use dine_token::Held;

/// Takes the forks of all places, which are in hand, in order. Each place keeps how many meals of the other end its
/// fork has.
pub(crate) fn lift(site: u32, places: &mut [Place], hands: &mut Vec<Held>)
    requires here { All (IsLiftable site) places.old }
    requires none { hands.old.items ≡ [] }
    requires room { length places.old ≤ vec_capacity hands.old }
    ensures places { places.new ≡ map (place_in_meal site) places.old }
    ensures hands { hands.new.items ≡ forks_of places.old }
{
    for place in places.iter_mut() {
        hands.push_reserved(place.lift(site));
    }
}

/// Puts the forks back at their places, in order.
pub(crate) fn put_back(places: &mut [Place], hands: &mut Vec<Held>)
    requires { length hands.old.items ≡ length places.old }
    ensures places { places.new ≡ places_with_forks places.old hands.old.items }
    ensures none { hands.new.items ≡ [] }
    ensures room { vec_capacity hands.new ≡ vec_capacity hands.old }
{
    while !hands.is_empty() {
        let held = hands.take_last();
        places[hands.len()].put_back(held);
    }
}

/// Takes the forks in hand and the tokens of the places, in order.
pub(crate) fn collect(places: &mut [Place], parts: &mut Parts)
    requires no_forks { parts.old.forks.items ≡ [] }
    requires no_tokens { parts.old.tokens.items ≡ [] }
    requires room_for_forks { length places.old ≤ vec_capacity parts.old.forks }
    requires room_for_tokens { length places.old ≤ vec_capacity parts.old.tokens }
    ensures forks { parts.new.forks.items ≡ forks_of places.old }
    ensures tokens { parts.new.tokens.items ≡ tokens_of places.old }
{
    for place in places.iter_mut() {
        place.empty(parts);
    }
}
