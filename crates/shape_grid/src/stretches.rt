//! Spans of numbers in a set of words of 64 bits: where a span of one kind ends or starts, and a span that is put in or taken out at once.
//! A single number is looked up and changed elsewhere.
ghost use Rattle.std.specs.Prelude.{◌≡◌, ◌==◌, ℕ, ◌+◌, ◌*◌, ◌/◌, ◌%◌, ◌^◌, ◌<◌, ◌≤◌, true, length};
ghost use Rattle.std.specs.Int.{bit_at};
ghost use Rattle.shape_grid.specs.Spans.{AreOther, IsSpanEnd, IsSpanStart, IsMask, IsSpanPut};

// The numbers of a word that are not of the kind, as bits: those that are in the set are of the kind true.
fn other(words: &[u64], w: usize, kind: bool) -> u64
    requires { w < length words.now }
    ensures { AreOther words.now w kind result }
{
    if kind { !words[w] } else { words[w] }
}

// The lesser of two numbers.
fn lesser(a: usize, b: usize) -> usize
    ensures first { a < b → result ≡ a }
    ensures second { b ≤ a → result ≡ b }
{
    if a < b { a } else { b }
}

/// The end of the span of a kind that starts at a number: the first number from there on that is not of the kind, and `until` at the latest.
pub fn span_end(words: &[u64], kind: bool, from: usize, until: usize) -> usize
    requires ordered { from ≤ until }
    requires within { until < 64 * length words.now }
    requires few { length words.now < 2 ^ 32 }
    ensures { IsSpanEnd words.now kind from until result }
{
    let rest = other(words, from / 64, kind) >> (from % 64);
    if rest != 0 {
        return lesser(from + rest.trailing_zeros() as usize, until);
    }
    for w in from / 64 + 1..until / 64 + 1 {
        let found = other(words, w, kind);
        if found != 0 {
            return lesser(w * 64 + found.trailing_zeros() as usize, until);
        }
    }
    until
}

// A number less another, and a third at the least.
fn less_at_least(a: usize, n: usize, from: usize) -> usize
    requires { from ≤ a }
    ensures less { from + n < a → result + n ≡ a }
    ensures least { a ≤ from + n → result ≡ from }
{
    if a - from > n { a - n } else { from }
}

/// The start of the span of numbers in the set that ends before a number: the least number, not before `from`, from which on all are in the set.
pub fn span_start(words: &[u64], from: usize, until: usize) -> usize
    requires ordered { from ≤ until }
    requires within { until < 64 * length words.now }
    ensures { IsSpanStart words.now from until result }
{
    let mut start = until;
    while start > from {
        let last = start - 1;
        let rest = other(words, last / 64, true) << (63 - last % 64);
        if rest != 0 {
            return less_at_least(start, rest.leading_zeros() as usize, from);
        }
        start = last / 64 * 64;
    }
    from
}

// The bits of a word from a bit on.
fn bits_from(k: usize) -> u64
    requires { k ≤ 64 }
    ensures before { (b : ℕ) → b < k → bit_at result b ≡ 0 }
    ensures on { (b : ℕ) → k ≤ b → b < 64 → bit_at result b ≡ 1 }
{
    if k < 64 { u64::MAX << k } else { 0 }
}

// The first bit of a word whose number is not before a number.
fn first_bit(w: usize, from: usize) -> usize
    requires { from / 64 ≤ w }
    ensures here { from / 64 ≡ w → result ≡ from % 64 }
    ensures behind { from / 64 < w → result ≡ 0 }
{
    if w == from / 64 { from % 64 } else { 0 }
}

// The bits of a word whose numbers are before a number end before this bit.
fn end_bit(w: usize, until: usize) -> usize
    requires { w ≤ until / 64 }
    ensures here { until / 64 ≡ w → result ≡ until % 64 }
    ensures before { w < until / 64 → result ≡ 64 }
{
    if w == until / 64 { until % 64 } else { 64 }
}

// The numbers of a word that are of a span, as bits.
fn mask(w: usize, from: usize, until: usize) -> u64
    requires first { from / 64 ≤ w }
    requires last { w ≤ until / 64 }
    ensures { IsMask w from until result }
{
    bits_from(first_bit(w, from)) & !bits_from(end_bit(w, until))
}

// A word whose bits in a mask are set, or else cleared.
fn masked(word: u64, span: u64, kind: bool) -> u64
    ensures set { (b : ℕ) → b < 64 → bit_at span b ≡ 1 → (bit_at result b == 1) ≡ kind }
    ensures left { (b : ℕ) → b < 64 → bit_at span b ≡ 0 → bit_at result b ≡ bit_at word b }
{
    if kind { word | span } else { word & !span }
}

/// Puts the numbers of a span into the set, or takes them out of it.
pub fn put_span(words: &mut Vec<u64>, from: usize, until: usize, kind: bool)
    requires { until < 64 * length words.old.items }
    ensures { IsSpanPut words.old.items words.new.items from until
        (64 * length words.old.items) kind }
{
    for w in from / 64..until / 64 + 1 {
        let span = mask(w, from, until);
        words[w] = masked(words[w], span, kind);
    }
}
