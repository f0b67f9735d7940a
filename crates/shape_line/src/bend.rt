//! Why a run is straight for neither axis, as two segments found it that grew backward from one of its places.
//! It takes a tenth of the memory of the evidence, which is made when it is asked for.
ghost use Rattle.std.specs.Prelude.{◌≡◌};
ghost use Rattle.shape_refute.specs.Evidences.{evidence_of};
ghost use Rattle.shape_line.specs.Evidence.{Reaches, reaches_prop, evidence_behind};

use crate::clash::Clash;
use crate::evidence::behind;
use crate::gap::Gap;

/// Why a run is straight for neither axis, with places that count backward.
#[derive(Clone, Copy)]
pub struct Bend {
    /// For the axis x.
    pub x: Clash,
    /// For the axis y.
    pub y: Clash,
    /// The place of the run from which places count backward.
    pub last: u32,
    pub ghost x_reaches: { Reaches x last } by { reaches_prop x last },
    pub ghost y_reaches: { Reaches y last } by { reaches_prop y last },
}

impl Bend {
    /// The evidence, with places that count from the first point of the run.
    pub fn gap(&self) -> Gap
        ensures x { evidence_of result.x ≡ evidence_behind self.now.x self.now.last }
        ensures y { evidence_of result.y ≡ evidence_behind self.now.y self.now.last }
    {
        Gap {
            x: behind(self.x, self.last),
            y: behind(self.y, self.last),
        }
    }
}
