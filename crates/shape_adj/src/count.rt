//! The number of components of a net, with no memory for labels.
//! Only where the labels are put stands here; the search is that of the flood.
ghost use Rattle.std.specs.Prelude.{⊤, IfOk};
ghost use Rattle.shape_terms.specs.Parts.{HasParts};

use crate::flood::{Components, flood};
use crate::rows::RowNet;
use crate::run::Run;
use crate::store::LabelStore;
use shape_space::NoMemory;
use std::alloc::Global;

// Labels that are not kept.
#[derive(Drop)]
struct NoLabels;

impl LabelStore for NoLabels {
    ghost Tells = { λ s list. ⊤ };

    fn blank(alloc: Global, places: u32) -> Result<NoLabels, NoMemory> {
        Ok(NoLabels)
    }

    fn put(&mut self, run: Run, label: u32) {}
}

/// How many components a net has.
pub fn component_count<N: RowNet>(alloc: Global, net: &N) -> Result<u32, NoMemory>
    ensures { IfOk result (λ n. HasParts (N.Adjacent net.now) (N.Holds net.now) n) }
{
    let components: Components<NoLabels> = flood(alloc, net)?;
    Ok(components.count)
}
