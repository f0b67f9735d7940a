//! Why a run of flat points is not straight for an axis: a turn of it, or weights that refute it.
//! How evidence is found belongs elsewhere.
ghost use Rattle.std.specs.Prelude.{◌<◌, ◌↔◌, IsTrue, map};
ghost use Rattle.shape_terms.specs.Covers.{IsEvidence};
ghost use Rattle.shape_refute.specs.Terms.{flat_point};
ghost use Rattle.shape_refute.specs.Evidences.{evidence_of};

use crate::refutation::{Refutation, refutes};
use crate::turn::{Turn, turns};
use shape_space::P2;

/// Why a run is said not to be straight for an axis.
#[derive(Clone, Copy)]
pub enum Refusal {
    /// The other coordinate does not go one way: the changes at two places of the run.
    Turned(Turn),
    /// These weights refute every naive line of the axis.
    Cut(Refutation),
}

/// Whether the evidence is good: it shows that the run, which must not be empty, is not straight for the axis.
pub fn refuses(run: &[P2], axis: usize, refusal: &Refusal) -> bool
    requires { axis < 2 }
    ensures { IsTrue result ↔ IsEvidence axis (map flat_point run.now) (evidence_of refusal.now) }
{
    match refusal {
        Refusal::Turned(turn) => turns(run, axis, turn),
        Refusal::Cut(why) => !run.is_empty() && refutes(run, axis, why),
    }
}
