//! Counts of the true values of a row: in all of it, before each word of 64 of them, and below a bit of a word.
//! What the counts are for belongs elsewhere.
ghost use Rattle.std.specs.Prelude.{◌≡◌, ◌%◌, ◌^◌, ◌<◌, ◌≤◌, IfOk, length, count_ones};
ghost use Rattle.shape_terms.specs.Limits.{most_framed};
ghost use Rattle.shape_cells.specs.Counting.{trues, AreCounts};

use shape_grid::Bits;
use shape_space::NoMemory;
use std::alloc::Global;

/// How many of the values are true.
pub(crate) fn count(values: &Bits) -> u32
    requires { length values.now ≤ most_framed }
    ensures { result ≡ trues values.now }
{
    let mut n: u32 = 0;
    for w in 0..values.len() / 64 + 1 {
        n += values.word(w).count_ones();
    }
    n
}

/// For each word, how many of the values before it are true.
pub(crate) fn counts_of(alloc: Global, values: &Bits) -> Result<Vec<u32>, NoMemory>
    requires { length values.now ≤ most_framed }
    ensures { IfOk result (λ v. AreCounts values.now v.items) }
{
    let mut counts = Vec::with_capacity(alloc, values.len() / 64 + 1)?;
    let mut n: u32 = 0;
    for w in 0..values.len() / 64 + 1 {
        counts.push(n)?;
        n += values.word(w).count_ones();
    }
    Ok(counts)
}

/// How many bits of a word are set below bit k.
#[inline]
pub(crate) fn ones_below(word: u64, k: u32) -> u32
    requires { k < 64 }
    ensures { result ≡ count_ones (word % 2 ^ k) }
{
    (word & ((1u64 << k) - 1)).count_ones()
}
