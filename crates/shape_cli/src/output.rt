//! A desk in memory that keeps what is written to it; each of its files is empty.
//! Its output grows as it is written: a write fails where memory is wanting.
ghost use Rattle.std.specs.Prelude.{◌≡◌, ◌<◌, ◌^◌, [], None, Some, true, length, refl};
ghost use Rattle.std.proofs.Common.{arith};
ghost use Rattle.shape_desk.specs.Desk.{DeskState, Begins, Reads, Writes};

use shape_desk::{Desk, Failed, Place};
use std::alloc::Global;

/// A desk that keeps what is written to it.
#[derive(Drop)]
pub struct OutputDesk {
    text: Vec<u8>,
    faults: u64,
    ghost counted: { faults < 2 ^ 64 },
}

impl OutputDesk {
    /// A desk to which nothing was written.
    pub(crate) fn new(alloc: Global) -> OutputDesk
        ensures { (⟦<OutputDesk as Desk>⟧.state result).written ≡ Some [] }
    {
        OutputDesk {
            text: Vec::new(alloc),
            faults: 0,
        }
    }

    /// What was written.
    pub(crate) fn into_text(self) -> Vec<u8>
        ensures { (⟦<OutputDesk as Desk>⟧.state self).written ≡ Some result.items }
    {
        self.text
    }
}

impl Desk for OutputDesk {
    ghost state = { λ d. record {
      files = None;
      left = λ p. Some [];
      begun = λ p. true;
      written = Some d.text.items;
      read_faults = 0;
      write_faults = d.faults;
    } };

    ghost tells_left = { λ d p _ _. refl };

    ghost counts = { λ d. record { reads = Prim.omega arith; writes = d.counted } };

    fn begin(&mut self, _place: Place, _name: &[u8]) -> Result<(), Failed> {
        Ok(())
    }

    fn read(&mut self, _place: Place, _buf: &mut [u8]) -> Result<usize, Failed> {
        Ok(0)
    }

    fn write(&mut self, bytes: &[u8]) -> Result<usize, Failed> {
        if self.text.extend_from_slice(bytes).is_ok() {
            return Ok(bytes.len());
        }
        self.faults = self.faults.saturating_add(1);
        Err(Failed)
    }
}
