//! The kinds of reports, the pictures that they are about, and what is wanted of a picture.
//! The further kinds stand in `further`; nothing here names one.
ghost use Rattle.std.specs.Prelude.{◌≡◌, ◌↔◌, IsTrue};
ghost use Rattle.shape_cli.specs.Sources.{read_kind};
ghost use Rattle.shape_cli.specs.Kinds.{Takes, about_of, read_about, read_report_kind};

use crate::further::FurtherKind;
use crate::source::Kind;

/// The pictures that a report may be about.
#[derive(Clone, Copy, Debug, PartialEq, Eq)]
pub enum About {
    /// All pictures and volumes.
    Every,
    /// Flat pictures.
    Flat,
}

/// A kind of report.
#[derive(Clone, Copy, Debug, PartialEq, Eq)]
pub enum ReportKind {
    /// The analysis: counts, distances, outline and thinning.
    Analysis,
    /// A further kind.
    Further(FurtherKind),
}

impl ReportKind {
    /// The pictures that a report of the kind may be about.
    pub(crate) fn about(self) -> About
        ensures { read_about result ≡ about_of (read_report_kind self) }
    {
        match self {
            ReportKind::Analysis => About::Every,
            ReportKind::Further(kind) => kind.about(),
        }
    }

    /// Whether there are reports of the kind about pictures of a kind.
    pub(crate) fn takes(self, kind: Kind) -> bool
        ensures { IsTrue result ↔ Takes (read_report_kind self) (read_kind kind) }
    {
        match self.about() {
            About::Every => true,
            About::Flat => kind.is_flat(),
        }
    }
}

/// A report that is wanted of a picture.
#[derive(Clone, Copy)]
pub enum Wanted<'a> {
    /// The analysis by a rule: its name, and its number on the shelf.
    Analysis { rule: &'a [u8], which: usize },
    /// One of a further kind.
    Further(FurtherKind),
}
