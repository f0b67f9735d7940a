//! Sets of places that stand in rows of one length, and which places are adjacent: those side by side in a row, and those of two rows that lie close enough.
//! The flood needs no more of a picture than this; a further kind of set is one more `impl`.
ghost use Rattle.std.specs.Prelude.{◌≡◌, ◌<◌, ◌≤◌, ◌%◌, ◌↔◌, ℕ, Option, IfOk, length};
ghost use Rattle.shape_adj.specs.RowNets.{IsRowNet};
ghost use Rattle.shape_adj.specs.Todo.{Marked};

use shape_grid::Bits;
use shape_space::NoMemory;
use std::alloc::Global;

/// Numbered places in rows of one length, some of which are in the set.
pub trait RowNet {
    /// How many places there are, in the set or not.
    ghost size: { Self → ℕ };

    /// How many places a row has.
    ghost width: { Self → ℕ };

    /// How far apart in their rows adjacent places of two rows may lie.
    ghost reach: { Self → ℕ };

    /// The places of the set.
    ghost Holds: { Self → ℕ → Type 0 };

    /// Which places are adjacent.
    ghost Adjacent: { Self → ℕ → ℕ → Type 0 };

    /// The number of steps from a row to other rows.
    ghost degree: { Self → ℕ };

    /// The first place of the row that a step leads to, from the first place of a row.
    ghost beside: { Self → ℕ → ℕ → Option ℕ };

    /// How many places there are, in the set or not.
    fn places(&self) -> u32
        ensures { result ≡ size self.now };

    /// How many places a row has.
    fn row_length(&self) -> u32
        ensures { result ≡ width self.now };

    /// How far apart in their rows adjacent places of two rows may lie.
    fn row_reach(&self) -> u32
        ensures value { result ≡ reach self.now }
        ensures short { result ≤ 1 };

    /// A value for each place, true for those of the set.
    fn todo(&self, alloc: Global) -> Result<Bits, NoMemory>
        ensures filled { IfOk result (λ b. length b ≡ size self.now) }
        ensures exactly { IfOk result (λ b. (i : ℕ) → Marked b i ↔ Holds self.now i) };

    /// The number of steps from a row to other rows.
    fn steps(&self) -> usize
        ensures { result ≡ degree self.now };

    /// The first place of the row that a step leads to, from the first place of a row.
    fn step(&self, start: u32, k: usize) -> Option<u32>
        requires place { start < size self.now }
        requires below { k < degree self.now }
        ensures { result ≡ beside self.now start k };

    /// The places stand in rows.
    fn in_rows(&self)
        ensures { IsRowNet (size self.now) (width self.now) (reach self.now) (Holds self.now)
            (Adjacent self.now) (degree self.now) (beside self.now) };
}
