//! The list of a picture's contours, as a value of its own.
//! Another way of keeping the contours changes nothing outside this file.
ghost use Rattle.std.specs.Prelude.{◌≡◌, ◌<◌, ◌^◌, Some, slice_get, length};

use crate::contour::Contour;
use std::marker::Model;

/// The contours of a picture, each once and from its least crack, in the order of these.
#[derive(Drop)]
pub struct Contours {
    list: Vec<Contour>,
}

impl Model for Contours {
    ghost use Rattle.std.specs.Prelude.{◌<◌, ◌^◌, List, length};
    ghost use Rattle.shape_terms.specs.Traces.{Contour as Trace};

    ghost Value = { List Trace };

    ghost view = { λ k. k.list.items };

    ghost invariant = { λ k. length k.list.items < 2 ^ 32 };
}

impl Contours {
    // The list of these contours.
    pub(crate) fn from_list(list: Vec<Contour>) -> Contours
        requires { length list.items < 2 ^ 32 }
        ensures { result ≡ list.items }
    {
        Contours { list }
    }

    /// The number of contours.
    pub fn len(&self) -> u32
        ensures { result ≡ length self.now }
    {
        self.list.len() as u32
    }

    /// The contour at a place, from 0 on.
    pub fn contour(&self, i: u32) -> &Contour
        requires { i < length self.now }
        ensures { slice_get self.now i ≡ Some result.now }
    {
        &self.list[i as usize]
    }
}
