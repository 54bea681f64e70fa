// The table.
ghost use Rattle.std.specs.Prelude.{◌≡◌, ◌+◌, ◌<◌, ◌≤◌, [], ◌∷◌, ◌++◌, Some, None, OnOk, OnSome, IfSome, option_copied, length, slice_get, slice_set};
ghost use Rattle.connection_table.specs.Tables.{Open, Away, Ended, open_at, ending, open_count, ends_of, IsNextOpen, NoneFrom, NoOpenBetween};
ghost use Rattle.connection_table.specs.Places.{key_held};

use crate::place::Place;
use crate::places::PlaceList;
use slab::Slab;
use std::alloc::Global;
use std::marker::Model;
use xp_base::NoMemory;

/// Connections by their numbers, 0, 1, 2 and so on in the order in which they came. An end takes no memory.
#[derive(Drop)]
pub struct Table<T: Drop, E: Drop> {
    open: Slab<T>,
    places: PlaceList<E>,
    /// How many were taken out.
    away: usize,
}

impl<T: Drop, E: Drop> Model for Table<T, E> {
    ghost use Rattle.std.specs.Prelude.{◌-◌, ◌+◌, min};
    ghost use Rattle.slab.specs.Slab.{slab_len};
    ghost use Rattle.connection_table.specs.Tables.{Table};
    ghost use Rattle.connection_table.specs.Places.{slots_of, IsTable};

    ghost Value = { Table T E };

    ghost view = { λ t. record {
      slots = slots_of t.open t.places.places;
      room = min t.places.room (t.open.capacity - (slab_len t.open + t.away));
    } };

    ghost invariant = { λ t. IsTable t.open t.places.places t.away };
}

/// The key of a place, where it has one.
fn key_at<E: Drop>(places: &PlaceList<E>, number: usize) -> Option<usize>
    ensures { result ≡ key_held (slice_get places.now.places number) }
{
    match places.get(number) {
        Some(Place::Open(key)) => Some(*key),
        _ => None,
    }
}

/// One more of the places was taken out.
fn one_more<E: Drop>(places: &PlaceList<E>, away: usize) -> usize
    requires { away + 1 ≤ length places.now.places }
    ensures { result ≡ away + 1 }
{
    // for the proof: the number of places is a `usize`
    let _count = places.len();
    away + 1
}

impl<T: Drop, E: Drop> Table<T, E> {
    /// No connection yet.
    pub fn new(alloc: Global) -> Table<T, E>
        ensures { result.slots ≡ [] }
    {
        Table {
            open: Slab::new(alloc),
            places: PlaceList::new(alloc),
            away: 0,
        }
    }

    /// How many connections there ever were.
    pub fn len(&self) -> usize
        ensures { result ≡ length self.now.slots }
    {
        self.places.len()
    }

    /// After it one connection more can be put in without memory.
    pub fn reserve(&mut self) -> Result<(), NoMemory>
        ensures same { self.new.slots ≡ self.old.slots }
        ensures ok { OnOk result (1 ≤ self.new.room) }
    {
        let more = self.away.checked_add(1).ok_or(NoMemory)?;
        self.open.reserve(more)?;
        self.places.reserve()?;
        Ok(())
    }

    /// A connection that came. It takes no memory.
    pub fn push(&mut self, value: T)
        requires { 1 ≤ self.old.room }
        ensures { self.new.slots ≡ self.old.slots ++ Open value ∷ [] }
    {
        let key = self.open.insert_reserved(value);
        self.places.push(Place::Open(key));
    }

    /// What is kept of the connection with this number, where it is open.
    pub fn get(&self, number: usize) -> Option<&T>
        ensures { option_copied result ≡ open_at self.now.slots number }
    {
        match self.places.get(number) {
            Some(Place::Open(key)) => self.open.get(*key),
            _ => None,
        }
    }

    /// How the connection with this number ended, where it has.
    pub fn ended(&self, number: usize) -> Option<&E>
        ensures { option_copied result ≡ ending (slice_get self.now.slots number) }
    {
        match self.places.get(number) {
            Some(Place::Ended(ended)) => Some(ended),
            _ => None,
        }
    }

    /// How many are open, and not taken out.
    pub fn open_count(&self) -> usize
        ensures { result ≡ open_count self.now.slots }
    {
        self.open.len()
    }

    /// The open connection of least number that is at least `from`.
    pub fn next_open(&self, from: usize) -> Option<usize>
        ensures some { IfSome result (IsNextOpen self.now.slots from) }
        ensures none { result ≡ None → NoneFrom self.now.slots from }
    {
        let mut number = from;
        while number < self.places.len() {
            if self.get(number).is_some() {
                return Some(number);
            }
            number += 1;
        }
        None
    }

    /// Takes what is kept of an open connection out, to be changed and put back, or to end it.
    pub fn take(&mut self, number: usize) -> Option<T>
        ensures value { result ≡ open_at self.old.slots number }
        ensures out { OnSome result (self.new.slots ≡ slice_set self.old.slots number Away) }
        ensures none { result ≡ None → self.new.slots ≡ self.old.slots }
    {
        let key = key_at(&self.places, number)?;
        let value = self.open.remove(key);
        self.places.set(number, Place::Away);
        self.away = one_more(&self.places, self.away);
        Some(value)
    }

    /// Puts back what was taken out. It takes no memory.
    pub fn put_back(&mut self, number: usize, value: T)
        requires { slice_get self.old.slots number ≡ Some Away }
        ensures { self.new.slots ≡ slice_set self.old.slots number (Open value) }
    {
        let key = self.open.insert_reserved(value);
        self.places.set(number, Place::Open(key));
        self.away -= 1;
    }

    /// The connection that was taken out has ended so. It takes no memory.
    pub fn end(&mut self, number: usize, ended: E)
        requires { slice_get self.old.slots number ≡ Some Away }
        ensures { self.new.slots ≡ slice_set self.old.slots number (Ended ended) }
    {
        self.places.set(number, Place::Ended(ended));
        self.away -= 1;
    }

    /// How the connections ended that have, in the order of their numbers. It takes no memory.
    pub fn into_ends(self) -> Vec<E>
        ensures { result.items ≡ ends_of self.slots }
    {
        self.places.into_ends()
    }
}
