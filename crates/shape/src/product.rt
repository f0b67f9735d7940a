//! What is made of a report: the word that asks for each product, and the call that makes it.
//! A further product is a variant, and an arm or a line of each table.
ghost use Rattle.std.specs.Prelude.{◌≡◌, ◌≢◌, ◌↔◌, ◌∷◌, ℕ, List, MatchOption};
ghost use Rattle.shape_desk.specs.Files.{KeepsFiles, texts};
ghost use Rattle.shape.specs.Products.{product_word, usage_of, AreNoWords, Ran};

use report_lines::Outcome;
use shape_desk::Desk;
use std::alloc::Global;

/// What is made of a report.
#[derive(Clone, Copy, Debug, PartialEq, Eq)]
pub enum Product {
    /// A drawing of it.
    Drawing,
    /// The table of its objects.
    Table,
    /// A mask.
    Mask,
}

// The product that this word asks for.
fn product_called(word: &[u8]) -> Option<Product>
    ensures { MatchOption result ((p : Product) → word.now ≢ product_word p)
        (λ p. word.now ≡ product_word p) }
{
    if word == b"draw".as_slice() {
        return Some(Product::Drawing);
    }
    if word == b"measure".as_slice() {
        return Some(Product::Table);
    }
    if word == b"mask".as_slice() {
        return Some(Product::Mask);
    }
    None
}

/// The product that the first word asks for, and the words behind it.
pub(crate) fn product_of<'a>(words: &'a [Vec<u8>]) -> Option<(Product, &'a [Vec<u8>])>
    ensures { MatchOption result
        ((p : Product) (rest : List (List ℕ)) → texts words.now ≢ product_word p ∷ rest)
        (λ r. texts words.now ≡ product_word r.0 ∷ texts r.1.now) }
{
    let (first, rest) = words.split_first()?;
    let product = product_called(first.as_slice())?;
    Some((product, rest))
}

impl Product {
    /// What the program says of words that the product does not take.
    pub(crate) fn usage(self) -> &'static str
        ensures { result.now ≡ usage_of self }
    {
        match self {
            Product::Drawing => draw_report::USAGE,
            Product::Table => measure_report::USAGE,
            Product::Mask => masking::USAGE,
        }
    }

    /// Does what the words behind that of the product say.
    pub(crate) fn run<D: Desk>(self, alloc: Global, words: &[Vec<u8>], desk: &mut D) -> Outcome
        ensures usage { (result ≡ Outcome.Usage) ↔ AreNoWords self (texts words.now) }
        ensures untouched { result ≡ Outcome.Usage → desk.new ≡ desk.old }
        ensures ran { Ran self (texts words.now) (D.state desk.old) (D.state desk.new) result }
        ensures kept { KeepsFiles (D.state desk.old) (D.state desk.new) }
    {
        match self {
            Product::Drawing => draw_report::run(alloc, words, desk),
            Product::Table => measure_report::run(alloc, words, desk),
            Product::Mask => masking::run(alloc, words, desk),
        }
    }
}
