//! Whether a mask is that of a simple point, with a counter that ends with the call, so that tests and cases may ask.
//! It is no test itself: a wrong body here is refused without one.
ghost use Rattle.std.specs.Prelude.{◌≡◌, ◌<◌, ◌^◌, ◌↔◌, IsTrue};
ghost use Rattle.shape_topo.specs.Masks.{IsSimpleMask};

use shape_space::Steps;
use shape_topo::SimpleMask;
use std::marker::Brand;
use std::sync::ledger::{Blank, Ledger};

// The same as `is_simple_mask`, with a ledger for the step.
fn counted<P: SimpleMask, L: Ledger>(blank: Blank, mask: u32) -> bool
    requires name { blank.name ≡ L.name }
    requires parts { blank.parts ≡ L.parts }
    requires whole { blank.parts ≡ 1 }
    requires few { mask < 2 ^ P.NEAR_COUNT }
    ensures { IsTrue result ↔ IsSimpleMask P.DIM mask }
{
    let mut steps = Steps::<L>::new(blank);
    P::simple_mask(mask, &mut steps)
}

/// Whether both topological numbers of a mask are 1.
pub fn is_simple_mask<P: SimpleMask>(mask: u32) -> bool
    requires { mask < 2 ^ P.NEAR_COUNT }
    ensures { IsTrue result ↔ IsSimpleMask P.DIM mask }
{
    counted::<P, Brand>(Blank::new(1), mask)
}
