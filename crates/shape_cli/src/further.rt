//! The further kinds of reports: the word that asks for each, the pictures that it is about, and the calls that make, check and explain it.
//! A further kind is a variant, and an arm or a line of each table; nothing else of this crate's code names one.
ghost use Rattle.std.specs.Prelude.{◌≡◌, IfOk, MatchOption, None, true};
ghost use Rattle.shape_desk.specs.Desk.{OnlyReadsAt};
ghost use Rattle.shape_desk.specs.declared.desk.Place.TheVariants.{Report as ReportPlace};
ghost use Rattle.shape_cli.specs.Further.{read_further, row_of};
ghost use Rattle.shape_cli.specs.Kinds.{read_about};
ghost use Rattle.shape_cli.specs.Commands.{begin_further, first_word, read_first};
ghost use Rattle.shape_cli.specs.Outcomes.{usage_text};
ghost use Rattle.shape_cli.specs.Parts.{IsFit, picture_of};

use crate::balls::{ball_report_of, check_ball_report};
use crate::command::First;
use crate::kind::{About, ReportKind};
use crate::picture::Image;
use judge_balls::law::balls_holding_shows;
use judge_edges::{check_edges, edges_holding_shows};
use judge_pieces::{check_pieces, pieces_holding_shows};
use report_text::{CheckFault, Judgement, Report};
use shape_desk::Desk;
use shape_edges::edges;
use shape_pieces::pieces;
use shape_space::NoMemory;
use std::alloc::Global;

/// A further kind of report.
#[derive(Clone, Copy, Debug, PartialEq, Eq)]
pub enum FurtherKind {
    /// The standard segments of the corner paths of a flat picture.
    Edges,
    /// The fewest straight pieces of the contours of a flat picture.
    Pieces,
    /// The object as a union of balls.
    Balls,
}

/// The forms of words of all commands, and last of those that make something of a report.
pub(crate) fn usage() -> &'static str
    ensures { result.now ≡ usage_text }
{
    concat!(
        "usage: analyse pbm FILE RULE, analyse raw X Y Z FILE RULE, check pbm FILE REPORT, check raw X Y Z FILE REPORT, trial pbm SEED SIDE, trial raw SEED SIDE",
        ", edges pbm FILE, checkedges pbm FILE REPORT",
        ", pieces pbm FILE, checkpieces pbm FILE REPORT",
        ", balls pbm FILE, balls raw X Y Z FILE, checkballs pbm FILE REPORT, checkballs raw X Y Z FILE REPORT",
        ", draw [labels|contours|measures] REPORT, draw REPORT FURTHER, measure [moments] [thickness] [spacing X Y Z] REPORT, measure whole REPORT, mask skeleton|object|distances|squares|thickness REPORT",
    )
}

/// How words with this first word begin, where it is that of a further kind.
pub(crate) fn beginning_further(word: &[u8]) -> Option<First>
    ensures { MatchOption result (begin_further word.now ≡ None)
        (λ f. word.now ≡ first_word (read_first f)) }
{
    if word == b"edges".as_slice() {
        return Some(First::Make(ReportKind::Further(FurtherKind::Edges)));
    }
    if word == b"checkedges".as_slice() {
        return Some(First::Check(ReportKind::Further(FurtherKind::Edges)));
    }
    if word == b"pieces".as_slice() {
        return Some(First::Make(ReportKind::Further(FurtherKind::Pieces)));
    }
    if word == b"checkpieces".as_slice() {
        return Some(First::Check(ReportKind::Further(FurtherKind::Pieces)));
    }
    if word == b"balls".as_slice() {
        return Some(First::Make(ReportKind::Further(FurtherKind::Balls)));
    }
    if word == b"checkballs".as_slice() {
        return Some(First::Check(ReportKind::Further(FurtherKind::Balls)));
    }
    None
}

impl FurtherKind {
    /// The pictures that a report of the kind may be about.
    pub(crate) fn about(self) -> About
        ensures { read_about result ≡ (row_of (read_further self)).about }
    {
        match self {
            FurtherKind::Edges => About::Flat,
            FurtherKind::Pieces => About::Flat,
            FurtherKind::Balls => About::Every,
        }
    }

    /// The report of the kind about a picture.
    pub(crate) fn make(self, alloc: Global, image: &Image) -> Result<Report, NoMemory>
        requires { IsFit (row_of (read_further self)).about image.now }
        ensures { IfOk result ((row_of (read_further self)).Makes (picture_of image.now)) }
    {
        match self {
            FurtherKind::Edges => Ok(edges(alloc, image.flat())?),
            FurtherKind::Pieces => Ok(pieces(alloc, image.flat())?),
            FurtherKind::Balls => ball_report_of(alloc, image),
        }
    }

    /// Checks the report of the kind that is begun against a picture.
    pub(crate) fn check<D: Desk>(
        self,
        alloc: Global,
        image: &Image,
        desk: &mut D,
    ) -> Result<Judgement, CheckFault>
        requires begun { (D.state desk.old).begun ReportPlace ≡ true }
        requires fit { IsFit (row_of (read_further self)).about image.now }
        ensures checked { (row_of (read_further self)).Checked (picture_of image.now)
            ((D.state desk.old).left ReportPlace) (D.state desk.old) (D.state desk.new) result }
        ensures reads { OnlyReadsAt ReportPlace (D.state desk.old) (D.state desk.new) }
    {
        match self {
            FurtherKind::Edges => check_edges(alloc, image.flat(), desk),
            FurtherKind::Pieces => check_pieces(alloc, image.flat(), desk),
            FurtherKind::Balls => check_ball_report(alloc, image, desk),
        }
    }

    /// What a report of the kind that holds shows: what counts is the clause.
    pub(crate) fn shows(self)
        ensures { (row_of (read_further self)).Tells }
    {
        match self {
            FurtherKind::Edges => edges_holding_shows(),
            FurtherKind::Pieces => pieces_holding_shows(),
            FurtherKind::Balls => balls_holding_shows(),
        }
    }
}
