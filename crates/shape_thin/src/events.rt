//! A list of events while it grows: the places of their points, and which of these were marked.
//! A smaller form of the list changes this file and `specs/EventLists` alone.
ghost use Rattle.std.specs.Prelude.{◌≡◌, ◌<◌, ◌≤◌, [], ◌∷◌, ◌++◌, length, Some, slice_get, IfOk, OnOk};
ghost use Rattle.shape_terms.specs.Limits.{most_points};

use shape_grid::Bits;
use shape_space::NoMemory;
use std::alloc::Global;
use std::marker::Model;

/// What happened to the point with a raster number.
#[derive(Clone, Copy, Debug, PartialEq, Eq)]
pub(crate) struct Done {
    /// The raster number.
    pub(crate) place: u32,
    /// Whether the point was marked, and not deleted.
    pub(crate) tips: bool,
}

/// Events in order, with room for so many: four bytes and a bit for each.
#[derive(Drop)]
pub(crate) struct Events {
    places: Vec<u32>,
    tips: Bits,
}

impl Model for Events {
    ghost use Rattle.std.specs.Prelude.{length};
    ghost use Rattle.shape_thin.specs.EventLists.{EventList, all_done, AreKept};

    ghost Value = { EventList };

    ghost view = { λ e. record { done = all_done e.places.items e.tips; room = length e.tips } };

    ghost invariant = { λ e. AreKept e.places.items e.tips };
}

impl Events {
    /// No events, with room for so many.
    pub(crate) fn new(alloc: Global, room: u32) -> Result<Events, NoMemory>
        requires { room ≤ most_points }
        ensures none { IfOk result (λ e. e.done ≡ []) }
        ensures room { IfOk result (λ e. e.room ≡ room) }
    {
        let places = Vec::with_capacity(alloc, room as usize)?;
        let tips = Bits::new(alloc, room as usize)?;
        Ok(Events { places, tips })
    }

    /// Puts an event last.
    pub(crate) fn push(&mut self, done: Done) -> Result<(), NoMemory>
        requires { length self.old.done < self.old.room }
        ensures done { OnOk result (self.new.done ≡ self.old.done ++ done ∷ []) }
        ensures room { self.new.room ≡ self.old.room }
    {
        let i = self.places.len();
        self.places.push(done.place)?;
        if done.tips {
            self.tips.set(i);
        }
        Ok(())
    }

    /// The number of events.
    pub(crate) fn len(&self) -> u32
        ensures { result ≡ length self.now.done }
    {
        self.places.len() as u32
    }

    /// The event with a number, from 0 on.
    pub(crate) fn get(&self, i: u32) -> Done
        requires { i < length self.now.done }
        ensures { slice_get self.now.done i ≡ Some result }
    {
        let i = i as usize;
        Done {
            place: self.places[i],
            tips: self.tips.get(i),
        }
    }
}
