//! Where a flood puts the labels of places.
//! What a label means stands in the flood; one more way to keep labels is one more `impl`.
ghost use Rattle.std.specs.Prelude.{◌≡◌, ◌<◌, ◌≤◌, ℕ, List, length, replicate, IfOk};
ghost use Rattle.shape_adj.specs.Labels.{relabelled};

use crate::run::Run;
use shape_space::NoMemory;
use std::alloc::Global;

/// The labels of numbered places, kept or not.
pub trait LabelStore: Drop {
    /// These may be the labels that were put, one for each place.
    ghost Tells: { Self → List ℕ → Type 0 };

    /// The label 0 for each place.
    fn blank(alloc: Global, places: u32) -> Result<Self, NoMemory>
        ensures { IfOk result (λ s. Tells s (replicate places 0)) };

    /// Gives the places of a run their label.
    fn put(&mut self, run: Run, label: u32)
        requires ordered { run.from ≤ run.until }
        requires told { (list : List ℕ) × Tells self.old list × (run.until ≤ length list) }
        ensures { (list : List ℕ) → Tells self.old list
            → Tells self.new (relabelled list run.from run.until label) };
}

impl LabelStore for Vec<u32> {
    ghost Tells = { λ s list. s.items ≡ list };

    fn blank(alloc: Global, places: u32) -> Result<Vec<u32>, NoMemory> {
        let labels = vec![in alloc; 0u32; places as usize]?;
        Ok(labels)
    }

    fn put(&mut self, run: Run, label: u32) {
        for i in run.from..run.until {
            self[i as usize] = label;
        }
    }
}
