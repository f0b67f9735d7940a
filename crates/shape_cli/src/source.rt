//! The sources of pictures: where a picture is read, and the words that say so.
//! A further source is a variant, and an arm of each `match`.
ghost use Rattle.std.specs.Prelude.{◌≡◌, ◌≢◌, ◌↔◌, ◌∷◌, [], MatchOption, IsTrue, nat_abs};
ghost use Rattle.shape_cli.specs.Sources.{Kind as AskedKind, IsFlat, IsNoSides, IsNoSource, most_trial_side, kind_word, kind_at, file_of, side_words, source_words, read_kind, read_source};
ghost use Rattle.shape_desk.specs.Files.{texts};

use crate::numbers::coordinate;
use shape_space::{MOST_FLAT_TRIAL, MOST_SOLID_TRIAL, P3, Sides};

/// A kind of picture.
#[derive(Clone, Copy, Debug, PartialEq, Eq)]
pub enum Kind {
    /// A flat picture.
    Flat,
    /// A volume.
    Solid,
}

impl Kind {
    /// Whether its pictures are flat.
    pub(crate) fn is_flat(self) -> bool
        ensures { IsTrue result ↔ IsFlat (read_kind self) }
    {
        match self {
            Kind::Flat => true,
            Kind::Solid => false,
        }
    }

    /// The greatest side of those of its pictures that a seed gives.
    pub(crate) fn most_trial_side(self) -> u32
        ensures { result ≡ most_trial_side (read_kind self) }
    {
        match self {
            Kind::Flat => MOST_FLAT_TRIAL as u32,
            Kind::Solid => MOST_SOLID_TRIAL as u32,
        }
    }
}

/// Where a picture is read.
#[derive(Clone, Copy)]
pub enum Source<'a> {
    /// The PBM in a file.
    Pbm { file: &'a [u8] },
    /// The raw volume with these sides in a file.
    Raw { sides: Sides<P3>, file: &'a [u8] },
}

impl<'a> Source<'a> {
    /// The kind of its picture.
    pub(crate) fn kind(self) -> Kind
        ensures { read_kind result ≡ kind_at (read_source self.entry) }
    {
        match self {
            Source::Pbm { .. } => Kind::Flat,
            Source::Raw { .. } => Kind::Solid,
        }
    }

    /// The name of its file.
    pub(crate) fn file(self) -> &'a [u8]
        ensures { result.now ≡ file_of (read_source self.entry) }
    {
        match self {
            Source::Pbm { file } => file,
            Source::Raw { file, .. } => file,
        }
    }
}

// Whether a word is this text.
fn is_text(word: &Vec<u8>, text: &[u8]) -> bool
    ensures { IsTrue result ↔ (word.now.items ≡ text.now) }
{
    word.as_slice() == text
}

// The kind of picture that a word names.
pub(crate) fn kind_called(word: &Vec<u8>) -> Option<Kind>
    ensures { MatchOption result ((k : AskedKind) → word.now.items ≢ kind_word k)
        (λ k. word.now.items ≡ kind_word (read_kind k)) }
{
    if is_text(word, b"pbm") {
        Some(Kind::Flat)
    } else if is_text(word, b"raw") {
        Some(Kind::Solid)
    } else {
        None
    }
}

// The sides of a volume that three words spell.
fn read_sides(x: &Vec<u8>, y: &Vec<u8>, z: &Vec<u8>) -> Option<Sides<P3>>
    ensures { MatchOption result (IsNoSides (x.now.items ∷ y.now.items ∷ z.now.items ∷ []))
        (λ s. x.now.items ∷ y.now.items ∷ z.now.items ∷ []
        ≡ side_words (nat_abs s.lengths.x) (nat_abs s.lengths.y) (nat_abs s.lengths.z)) }
{
    let x = coordinate(x)?;
    let y = coordinate(y)?;
    let z = coordinate(z)?;
    Sides::try_new(P3 { x, y, z })
}

// The source of a kind, with the words behind that of the kind.
fn source_at<'a>(kind: &Vec<u8>, words: &'a [Vec<u8>]) -> Option<Source<'a>>
    ensures { MatchOption result (IsNoSource (kind.now.items ∷ texts words.now))
        (λ s. kind.now.items ∷ texts words.now ≡ source_words (read_source s)) }
{
    match words {
        [file] if is_text(kind, b"pbm") => Some(Source::Pbm {
            file: file.as_slice(),
        }),
        [x, y, z, file] if is_text(kind, b"raw") => Some(Source::Raw {
            sides: read_sides(x, y, z)?,
            file: file.as_slice(),
        }),
        _ => None,
    }
}

// The source that words spell.
pub(crate) fn source_of<'a>(words: &'a [Vec<u8>]) -> Option<Source<'a>>
    ensures { MatchOption result (IsNoSource (texts words.now))
        (λ s. texts words.now ≡ source_words (read_source s)) }
{
    let (kind, at) = words.split_first()?;
    source_at(kind, at)
}
