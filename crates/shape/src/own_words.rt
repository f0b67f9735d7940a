//! The words that forms have of their own, by the place in a command line: what a mistyped word is compared with.
//! A further word is one more of a list here; a further place, a variant.
ghost use Rattle.std.specs.Prelude.{◌≡◌, ◌==◌, length, map};
ghost use Rattle.shape_desk.specs.Files.{texts};
ghost use Rattle.shape.specs.Slips.{source_firsts, flat_firsts, is_among, own_second, ends_source, own_later, own_behind, own_texts};

/// Words that forms have of their own at a place.
#[derive(Clone, Copy, Debug, PartialEq, Eq)]
pub enum OwnWords {
    /// Those with which forms begin.
    First,
    /// The kinds of pictures.
    Source,
    /// The kind of a flat picture.
    Flat,
    /// The names of rules.
    Rule,
    /// What a drawing may show.
    Drawing,
    /// What a table may have.
    Table,
    /// The masks.
    Mask,
    /// What help says more of.
    Topic,
    /// None: files, numbers and nothing stand there.
    Free,
}

const SOURCE_FIRSTS: [&str; 5] = ["analyse", "check", "balls", "checkballs", "trial"];

const FLAT_FIRSTS: [&str; 4] = ["edges", "checkedges", "pieces", "checkpieces"];

// Whether the word is one of these.
pub(crate) fn is_one_of(word: &[u8], forms: &[&'static str]) -> bool
    ensures { result ≡ is_among word.now (map (λ form. form.now) forms.now) }
{
    for form in forms {
        if word == form.as_bytes() {
            return true;
        }
    }
    false
}

// Those that forms have behind such a first word.
fn behind_first(word: &[u8]) -> OwnWords
    ensures { result ≡ own_second word.now }
{
    if is_one_of(word, &SOURCE_FIRSTS) {
        return OwnWords::Source;
    }
    if is_one_of(word, &FLAT_FIRSTS) {
        return OwnWords::Flat;
    }
    if word == b"draw".as_slice() {
        return OwnWords::Drawing;
    }
    if word == b"measure".as_slice() {
        return OwnWords::Table;
    }
    if word == b"mask".as_slice() {
        return OwnWords::Mask;
    }
    if word == b"help".as_slice() {
        return OwnWords::Topic;
    }
    OwnWords::Free
}

// Whether a source ends with so many words behind that of its kind.
fn is_whole_source(kind: &[u8], more: usize) -> bool
    ensures { result ≡ ends_source kind.now more }
{
    let is_flat = kind == b"pbm".as_slice() && more == 1;
    is_flat || kind == b"raw".as_slice() && more == 4
}

// Those that forms have behind two words and so many more.
fn behind_more(first: &[u8], second: &[u8], more: usize) -> OwnWords
    ensures { result ≡ own_later first.now second.now more }
{
    if first == b"measure".as_slice() {
        return OwnWords::Table;
    }
    if first == b"analyse".as_slice() && is_whole_source(second, more) {
        return OwnWords::Rule;
    }
    OwnWords::Free
}

/// Those that forms have behind such words.
pub(crate) fn behind(before: &[Vec<u8>]) -> OwnWords
    ensures { result ≡ own_behind (texts before.now) }
{
    match before {
        [] => OwnWords::First,
        [first] => behind_first(first.as_slice()),
        [first, second, rest @ ..] => behind_more(first.as_slice(), second.as_slice(), rest.len()),
    }
}

impl OwnWords {
    /// Which these are.
    pub(crate) fn texts(self) -> &'static [&'static str]
        ensures { map (λ form. form.now) result.now ≡ own_texts self }
    {
        match self {
            OwnWords::First => &[
                "analyse",
                "check",
                "trial",
                "edges",
                "checkedges",
                "pieces",
                "checkpieces",
                "balls",
                "checkballs",
                "draw",
                "measure",
                "mask",
                "help",
                "--help",
                "--version",
            ],
            OwnWords::Source => &["pbm", "raw"],
            OwnWords::Flat => &["pbm"],
            OwnWords::Rule => &["none", "curve", "few"],
            OwnWords::Drawing => &["labels", "contours", "measures"],
            OwnWords::Table => &["moments", "thickness", "spacing", "whole"],
            OwnWords::Mask => &["skeleton", "object", "distances", "squares", "thickness"],
            OwnWords::Topic => &[
                "analyse",
                "check",
                "edges",
                "checkedges",
                "pieces",
                "checkpieces",
                "balls",
                "checkballs",
                "draw",
                "measure",
                "mask",
                "trial",
            ],
            OwnWords::Free => &[],
        }
    }
}
