// The places of all connections, and room for their ends.
ghost use Rattle.std.specs.Prelude.{◌≡◌, ◌-◌, ◌<◌, ◌≤◌, [], ◌∷◌, ◌++◌, OnOk, OnErr, option_copied, length, slice_get, slice_set};
ghost use Rattle.connection_table.specs.Places.{ends_in};

use crate::place::Place;
use std::alloc::Global;
use std::marker::Model;
use xp_base::NoMemory;

/// The places of connections by their numbers. Room for an end of each is ready, so that handing the ends out takes no
/// memory.
#[derive(Drop)]
pub(crate) struct PlaceList<E: Drop> {
    places: Vec<Place<E>>,
    /// Empty, with room for an end of each place.
    ends: Vec<E>,
}

impl<E: Drop> Model for PlaceList<E> {
    ghost use Rattle.std.specs.Prelude.{◌-◌, ◌≡◌, ◌≤◌, [], min, vec_capacity, vec_len};
    ghost use Rattle.connection_table.specs.Places.{Listed};

    ghost Value = { Listed E };

    ghost view = { λ l. record {
      places = l.places.items;
      room = min (vec_capacity l.places - vec_len l.places) (vec_capacity l.ends - vec_len l.places);
    } };

    ghost invariant = { λ l. (l.ends.items ≡ []) × (vec_len l.places ≤ vec_capacity l.ends) };
}

impl<E: Drop> PlaceList<E> {
    /// No place yet.
    pub(crate) fn new(alloc: Global) -> PlaceList<E>
        ensures { result ≡ record { places = []; room = 0 } }
    {
        PlaceList {
            places: Vec::new(alloc),
            ends: Vec::new(alloc),
        }
    }

    /// How many places there are.
    pub(crate) fn len(&self) -> usize
        ensures { result ≡ length self.now.places }
    {
        self.places.len()
    }

    /// The place with this number.
    pub(crate) fn get(&self, number: usize) -> Option<&Place<E>>
        ensures { option_copied result ≡ slice_get self.now.places number }
    {
        self.places.get(number)
    }

    /// After it one place more can be put in without memory, and its end can be handed out so.
    pub(crate) fn reserve(&mut self) -> Result<(), NoMemory>
        ensures same { self.new.places ≡ self.old.places }
        ensures room { self.old.room ≤ self.new.room }
        ensures ok { OnOk result (1 ≤ self.new.room) }
        ensures err { OnErr result (self.old.room ≡ 0) }
    {
        let ends = self.places.len().checked_add(1).ok_or(NoMemory)?;
        self.ends.reserve(ends)?;
        self.places.reserve(1)?;
        Ok(())
    }

    /// A place behind all. It takes no memory.
    pub(crate) fn push(&mut self, place: Place<E>)
        requires { 1 ≤ self.old.room }
        ensures { self.new ≡ record { places = self.old.places ++ place ∷ []; room = self.old.room - 1 } }
    {
        self.places.push_reserved(place);
    }

    /// Another place with this number.
    pub(crate) fn set(&mut self, number: usize, place: Place<E>)
        requires { number < length self.old.places }
        ensures { self.new ≡ record self.old { places = slice_set self.old.places number place } }
    {
        self.places[number] = place;
    }

    /// How the connections ended that have, in the order of their numbers. It takes no memory.
    pub(crate) fn into_ends(self) -> Vec<E>
        ensures { result.items ≡ ends_in self.places }
    {
        let PlaceList { places, mut ends } = self;
        for place in places {
            if let Place::Ended(ended) = place {
                ends.push_reserved(ended);
            }
        }
        ends
    }
}
