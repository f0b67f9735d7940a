//! A set of numbers as words of 64 bits, where a number is looked up, put in, taken out and found.
//! Levels of such words belong elsewhere.
ghost use Rattle.std.specs.Prelude.{◌≡◌, ℕ, ◌+◌, ◌*◌, ◌/◌, ◌^◌, ◌<◌, ◌≤◌, ◌↔◌, IsTrue, length, slice_index, IfOk, MatchOption, bit_and};
ghost use Rattle.shape_grid.specs.Sets.{In, IsPut, IsLeastFrom, AreThreeIn};
ghost use Rattle.shape_grid.specs.Levels.{IsLeastOfWord};
ghost use Rattle.shape_grid.specs.Truths.{is_in};

use shape_space::NoMemory;
use std::alloc::Global;

/// So many words with no bit.
pub fn no_bits(alloc: Global, count: usize) -> Result<Vec<u64>, NoMemory>
    requires { count < 2 ^ 32 }
    ensures length { IfOk result (λ v. length v.items ≡ count) }
    ensures empty { IfOk result (λ v. (w : ℕ) → slice_index v.items w ≡ 0) }
{
    match vec![in alloc; 0u64; count] {
        Ok(words) => Ok(words),
        Err(_) => Err(NoMemory),
    }
}

/// Whether the number is in the set.
pub fn has(words: &[u64], i: usize) -> bool
    requires { i < 64 * length words.now }
    ensures { result ≡ is_in words.now i }
{
    (words[i / 64] >> (i % 64)) & 1 == 1
}

/// A word.
pub fn word_at(words: &[u64], w: usize) -> u64
    requires { w < length words.now }
    ensures { result ≡ slice_index words.now w }
{
    words[w]
}

// The three lowest bits of a word.
fn low_three(word: u64) -> u32
    ensures { result ≡ bit_and word 7 }
{
    (word & 7) as u32
}

/// Which of three numbers in a row are in the set: bit b is set where the number b places on is.
pub fn three_at(words: &[u64], i: usize) -> u32
    requires { i + 2 < 64 * length words.now }
    ensures { AreThreeIn words.now i result }
{
    let low = words[i / 64] >> (i % 64);
    if i % 64 < 62 {
        return low_three(low);
    }
    low_three(low | (words[i / 64 + 1] << (64 - i % 64)))
}

/// Puts the number into the set, and tells whether its word was empty.
pub fn put_in(words: &mut Vec<u64>, i: usize) -> bool
    requires { i < 64 * length words.old.items }
    ensures put { IsPut words.old.items words.new.items i 1 }
    ensures was { IsTrue result ↔ (slice_index words.old.items (i / 64) ≡ 0) }
{
    let word = words[i / 64];
    words[i / 64] = word | (1u64 << (i % 64));
    word == 0
}

/// Takes the number out of the set, and tells whether its word is empty then.
pub fn take_out(words: &mut Vec<u64>, i: usize) -> bool
    requires { i < 64 * length words.old.items }
    ensures put { IsPut words.old.items words.new.items i 0 }
    ensures is { IsTrue result ↔ (slice_index words.new.items (i / 64) ≡ 0) }
    ensures less { slice_index words.new.items (i / 64) ≤ slice_index words.old.items (i / 64) }
{
    let word = words[i / 64] & !(1u64 << (i % 64));
    words[i / 64] = word;
    word == 0
}

/// The least number of the set whose bit is in the word, which is not empty.
pub fn least_of_word(words: &[u64], w: usize) -> usize
    requires filled { 0 < slice_index words.now w }
    requires few { length words.now < 2 ^ 32 }
    ensures { IsLeastOfWord words.now w result }
{
    w * 64 + words[w].trailing_zeros() as usize
}

/// The least number of the set from a number on.
pub fn least_from(words: &[u64], from: usize) -> Option<usize>
    requires within { from < 64 * length words.now }
    requires few { length words.now < 2 ^ 32 }
    ensures { MatchOption result ((i : ℕ) → In words.now i → from ≤ i → ⊥)
        (λ i. IsLeastFrom words.now from i) }
{
    let rest = words[from / 64] >> (from % 64);
    if rest != 0 {
        return Some(from + rest.trailing_zeros() as usize);
    }
    for w in from / 64 + 1..words.len() {
        if words[w] != 0 {
            return Some(least_of_word(words, w));
        }
    }
    None
}
