//! What the user sees of how a run ended, whichever call it was of, or of why there was none.
//! A further sort of outcome is one more function.
ghost use Rattle.std.specs.Prelude.{◌≡◌, ◌≢◌, codes, None};
ghost use Rattle.std.specs.IoError.{error_kind};
ghost use Rattle.std.specs.declared.io.ErrorKind.TheVariants.{OutOfMemory};
ghost use Rattle.shape.specs.Runs.{Shows, ShowsCommand, ShowsProduct};
ghost use Rattle.report_lines.specs.Outcomes as Products;

use report_lines::Outcome as ProductOutcome;
use shape_cli::Outcome;
use std::io;

/// What the user sees of how a run ended.
#[derive(Clone, Copy, Debug, PartialEq, Eq)]
pub struct Ending {
    /// The exit status.
    pub status: u8,
    /// What is said of a refusal.
    pub text: &'static str,
    /// The number that goes with the text.
    pub number: Option<u64>,
}

impl Ending {
    /// How a command ended.
    pub(crate) fn of_command(outcome: Outcome) -> Ending
        ensures { ShowsCommand outcome result }
    {
        Ending {
            status: outcome.status(),
            text: outcome.text(),
            number: outcome.number(),
        }
    }

    /// How the making of a product with this usage ended.
    pub(crate) fn of_product(outcome: ProductOutcome, usage: &'static str) -> Ending
        ensures { Shows (Products.status_of outcome) (Products.message_of usage.now outcome)
            (Products.number_of outcome) result }
    {
        Ending {
            status: outcome.status(),
            text: outcome.text(usage),
            number: outcome.number(),
        }
    }

    /// How it ended where the system hands over no words: one of them is no text, or there was no memory for them.
    pub(crate) fn without_words(error: &io::Error) -> Ending
        ensures memory { error_kind error.now ≡ OutOfMemory
            → ShowsCommand Outcome.NoMemory result }
        ensures text { error_kind error.now ≢ OutOfMemory
            → Shows 2 (codes "an argument is not UTF-8") None result }
    {
        if error.kind() == io::ErrorKind::OutOfMemory {
            return Ending::of_command(Outcome::NoMemory);
        }
        Ending {
            status: 2,
            text: "an argument is not UTF-8",
            number: None,
        }
    }
}
