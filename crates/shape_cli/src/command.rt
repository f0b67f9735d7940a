//! The words of a command line.
//! A command has one spelling: a first word, the words of a source, and a last word; or those of a trial.
ghost use Rattle.std.specs.Prelude.{◌≡◌, ℕ, List, MatchOption, None, ◌∷◌, []};
ghost use Rattle.shape_cli.specs.Sources.{source_words, kind_at, read_kind, read_source};
ghost use Rattle.shape_cli.specs.Further.{read_further};
ghost use Rattle.shape_cli.specs.Kinds.{ReportKind as AskedKind, Takes, read_report_kind};
ghost use Rattle.shape_desk.specs.Files.{texts};
ghost use Rattle.shape_cli.specs.Commands.{First as AskedFirst, AreTrial, IsNoForm, IsNoRest, IsNoSourceFor, IsRead, IsAtHand, begin_with, first_word, trial_words, words_of, read_command, read_first};

use crate::further::{FurtherKind, beginning_further};
use crate::kind::{ReportKind, Wanted};
use crate::names::Names;
use crate::numbers::number_in;
use crate::source::{Kind, Source, kind_called, source_of};

/// How the words of a command begin.
#[derive(Clone, Copy)]
pub enum First {
    /// A report of a kind is to be made.
    Make(ReportKind),
    /// A report of a kind is to be checked.
    Check(ReportKind),
    /// The trial of a picture.
    Trial,
}

/// What the words ask for.
#[derive(Clone, Copy)]
pub enum Command<'a> {
    /// The making of a report of a picture.
    Make {
        source: Source<'a>,
        wanted: Wanted<'a>,
    },
    /// The check of the report in a file against a picture.
    Check {
        source: Source<'a>,
        kind: ReportKind,
        report: &'a [u8],
    },
    /// The trial of the picture that a seed gives.
    Trial {
        kind: Kind,
        seed: u32,
        side: u32,
    },
}

// How words with this first word begin.
fn beginning(word: &[u8]) -> Option<First>
    ensures { MatchOption result (begin_with word.now ≡ None)
        (λ f. word.now ≡ first_word (read_first f)) }
{
    if word == b"analyse".as_slice() {
        return Some(First::Make(ReportKind::Analysis));
    }
    if word == b"check".as_slice() {
        return Some(First::Check(ReportKind::Analysis));
    }
    if word == b"trial".as_slice() {
        return Some(First::Trial);
    }
    beginning_further(word)
}

// The source that words spell, of a picture that reports of the kind may be about.
fn source_for<'a>(kind: ReportKind, words: &'a [Vec<u8>]) -> Option<Source<'a>>
    ensures { MatchOption result (IsNoSourceFor (read_report_kind kind) (texts words.now))
        (λ s. (texts words.now ≡ source_words (read_source s))
        × Takes (read_report_kind kind) (kind_at (read_source s))) }
{
    let source = source_of(words)?;
    if kind.takes(source.kind()) {
        Some(source)
    } else {
        None
    }
}

// The analysis that the words behind the first spell: those of a source, and the name of a rule.
fn read_analysis<'a, N: Names>(rest: &'a [Vec<u8>], names: &N) -> Option<Command<'a>>
    ensures { MatchOption result
        (IsNoRest (N.names names.now) (AskedFirst.Make AskedKind.Analysis) (texts rest.now))
        (IsRead (N.names names.now) (AskedFirst.Make AskedKind.Analysis) (texts rest.now)) }
{
    let (rule, at) = rest.split_last()?;
    let rule = rule.as_slice();
    let source = source_for(ReportKind::Analysis, at)?;
    let which = names.number_of(rule)?;
    let wanted = Wanted::Analysis { rule, which };
    Some(Command::Make { source, wanted })
}

// The report of a further kind that the words behind the first spell: those of a source.
fn read_further_kind<'a>(kind: FurtherKind, rest: &'a [Vec<u8>]) -> Option<Command<'a>>
    ensures { (names : List (List ℕ)) → MatchOption result
        (IsNoRest names (AskedFirst.Make (AskedKind.Further (read_further kind))) (texts rest.now))
        (IsRead names (AskedFirst.Make (AskedKind.Further (read_further kind))) (texts rest.now)) }
{
    let source = source_for(ReportKind::Further(kind), rest)?;
    let wanted = Wanted::Further(kind);
    Some(Command::Make { source, wanted })
}

// The making of a report of a kind that the words behind the first spell.
fn read_making<'a, N: Names>(
    kind: ReportKind,
    rest: &'a [Vec<u8>],
    names: &N,
) -> Option<Command<'a>>
    ensures { MatchOption result
        (IsNoRest (N.names names.now) (AskedFirst.Make (read_report_kind kind)) (texts rest.now))
        (IsRead (N.names names.now) (AskedFirst.Make (read_report_kind kind)) (texts rest.now)) }
{
    match kind {
        ReportKind::Analysis => read_analysis(rest, names),
        ReportKind::Further(kind) => read_further_kind(kind, rest),
    }
}

// The check that the words behind the first spell: those of a source, and the name of a report's file.
fn read_check<'a>(kind: ReportKind, rest: &'a [Vec<u8>]) -> Option<Command<'a>>
    ensures { (names : List (List ℕ)) → MatchOption result
        (IsNoRest names (AskedFirst.Check (read_report_kind kind)) (texts rest.now))
        (IsRead names (AskedFirst.Check (read_report_kind kind)) (texts rest.now)) }
{
    let (report, at) = rest.split_last()?;
    let report = report.as_slice();
    let source = source_for(kind, at)?;
    Some(Command::Check {
        source,
        kind,
        report,
    })
}

// The trial that three words spell.
fn trial_of<'a>(kind: &Vec<u8>, seed: &Vec<u8>, side: &Vec<u8>) -> Option<Command<'a>>
    ensures { (names : List (List ℕ)) → MatchOption result
        (IsNoRest names AskedFirst.Trial (kind.now.items ∷ seed.now.items ∷ side.now.items ∷ []))
        (IsRead names AskedFirst.Trial (kind.now.items ∷ seed.now.items ∷ side.now.items ∷ [])) }
{
    let kind = kind_called(kind)?;
    let seed = number_in(seed, 0, u32::MAX)?;
    let side = number_in(side, 1, kind.most_trial_side())?;
    Some(Command::Trial { kind, seed, side })
}

// The trial that the words behind the first spell.
fn read_trial<'a>(rest: &[Vec<u8>]) -> Option<Command<'a>>
    ensures { (names : List (List ℕ)) → MatchOption result
        (IsNoRest names AskedFirst.Trial (texts rest.now))
        (IsRead names AskedFirst.Trial (texts rest.now)) }
{
    match rest {
        [kind, seed, side] => trial_of(kind, seed, side),
        _ => None,
    }
}

/// The command that the words spell, if they are of a form, with numbers in range and a rule of one of the names.
pub(crate) fn read_words<'a, N: Names>(words: &'a [Vec<u8>], names: &N) -> Option<Command<'a>>
    ensures { MatchOption result (IsNoForm (N.names names.now) (texts words.now))
        (λ c. (texts words.now ≡ words_of (read_command c)) × IsAtHand (N.names names.now) c) }
{
    let (first, rest) = words.split_first()?;
    match beginning(first.as_slice())? {
        First::Make(kind) => read_making(kind, rest, names),
        First::Check(kind) => read_check(kind, rest),
        First::Trial => read_trial(rest),
    }
}
