//! The result of a thinning: its events in order, and the points left.
//! An event is kept as the place of its point, so that a long list of them stays small.
ghost use Rattle.std.specs.Prelude.{◌≡◌, ◌<◌, length, Some, slice_get, pos, negsuc};
ghost use Rattle.shape_terms.specs.Limits.{most_coordinate};
ghost use Rattle.shape_terms.specs.FramedBox.{IsWithin};
ghost use Rattle.shape_thin.specs.Runs.{event_of, event_point};
ghost use Rattle.shape_thin.specs.EventLists.{events_at, AreEvents};

use crate::event::Event;
use crate::events::Events;
use shape_grid::Grid;
use shape_space::Point;
use std::marker::Model;

/// The events of a thinning in order, and the points that it leaves.
#[derive(Drop)]
pub struct Thinning<P: Point> {
    left: Grid<P>,
    events: Events,
}

impl<P: Point> Model for Thinning<P> {
    ghost use Rattle.shape_thin.specs.Runs.{Run};
    ghost use Rattle.shape_thin.specs.EventLists.{events_at, AreEvents};

    ghost Value = { Run };

    ghost view = { λ t. record { events = events_at t.left.sides t.events.done; left = t.left } };

    ghost invariant = { λ t. AreEvents t.left.sides t.events.done };
}

impl<P: Point> Thinning<P> {
    // The points left after these events.
    pub(crate) fn of(left: Grid<P>, events: Events) -> Thinning<P>
        requires { AreEvents left.sides events.done }
        ensures events { result.events ≡ events_at left.sides events.done }
        ensures left { result.left ≡ left }
    {
        Thinning { left, events }
    }

    /// The number of events.
    pub fn len(&self) -> u32
        ensures { result ≡ length self.now.events }
    {
        self.events.len()
    }

    /// The event with a number, from 0 on.
    pub fn event(&self, i: u32) -> Event<P>
        requires { i < length self.now.events }
        ensures there { slice_get self.now.events i ≡ Some (event_of P.coords result) }
        ensures within { IsWithin (negsuc 0) (pos most_coordinate)
            (event_point (event_of P.coords result)) }
    {
        let done = self.events.get(i);
        let p = self.left.sides().unraster(done.place);
        if done.tips {
            Event::Tip(p)
        } else {
            Event::Del(p)
        }
    }

    /// The points left.
    pub fn left(&self) -> &Grid<P>
        ensures { result.now ≡ self.now.left }
    {
        &self.left
    }
}
