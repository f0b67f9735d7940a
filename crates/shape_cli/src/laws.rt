//! What follows from `Ran` for every run: that answers come where nothing failed, and which.
//! These are laws alone: the calls do nothing, what counts is their clauses.
ghost use Rattle.std.specs.Prelude.{◌≡◌, ◌⊎◌, ℕ, List};
ghost use Rattle.shape_terms.specs.Pictures.{Picture};
ghost use Rattle.shape_terms.specs.Thinning.{Rule};
ghost use Rattle.shape_terms.specs.Shelves.{Named, names_of};
ghost use Rattle.text_terms.specs.Reports.{Holds};
ghost use Rattle.shape_desk.specs.Desk.{DeskState, Rose};
ghost use Rattle.shape_picture.specs.declared.fault.PictureFault.{PictureFault};
ghost use Rattle.shape_cli.specs.Sources.{Source};
ghost use Rattle.shape_cli.specs.Kinds.{ReportKind, report_of};
ghost use Rattle.shape_cli.specs.Commands.{Asked, HasNumbers, IsInRange, OfSource, IfSource, words_of};
ghost use Rattle.shape_cli.specs.Runs.{Lacks, Ran};
ghost use Rattle.shape_cli.specs.Complete.{FileIs, FindsPicture, FindsSome, FindsFault, FindsRest, HasNoFault, IsAnswer, HasRun};
ghost use Rattle.shape_cli.specs.declared.outcome.Outcome.{Outcome};

/// Words spell one command at most with numbers in range, and it is the one of which `run` speaks.
pub fn words_are_of_one_command()
    ensures one { (c d : Asked) → HasNumbers c → HasNumbers d → words_of c ≡ words_of d → c ≡ d }
    ensures ran { (shelf : List (Named Rule)) (words : List (List ℕ))
        (old new : DeskState) (o : Outcome) (c : Asked)
        → HasRun shelf words old new o → IsInRange (names_of shelf) c
        → words ≡ words_of c → Ran shelf c old new o }
{}

/// What a run owes, but for want of memory.
///
/// A source that is there and accepted, and all other files there, give an answer where no count rose; a trial has none
/// and needs none. A source that is there and has a fault gives that fault where no count of reads rose. A missing file is
/// a failed read.
pub fn runs_are_complete()
    ensures answers { (shelf : List (Named Rule)) (c : Asked) (old new : DeskState) (o : Outcome)
        → Ran shelf c old new o → IfSource c (FindsSome old.files) → FindsRest c old.files
        → HasNoFault old new → IsAnswer c o ⊎ (o ≡ Outcome.NoMemory) }
    ensures refuses { (shelf : List (Named Rule)) (c : Asked) (old new : DeskState)
        (o : Outcome) (f : PictureFault)
        → Ran shelf c old new o → OfSource c (λ source. FindsFault old.files source f)
        → (Rose old.read_faults new.read_faults → ⊥)
        → (o ≡ Outcome.Picture f) ⊎ (o ≡ Outcome.NoMemory) }
    ensures lacks { (shelf : List (Named Rule)) (c : Asked) (old new : DeskState) (o : Outcome)
        → Ran shelf c old new o → Lacks c old.files
        → (o ≡ Outcome.ReadFault) ⊎ (o ≡ Outcome.NoMemory) }
{}

/// A report that holds of the picture gets `yes`, and every other text `no`, where no count rose, but for want of memory.
pub fn verdicts_are_right()
    ensures yes { (shelf : List (Named Rule)) (source : Source) (kind : ReportKind)
        (report : List ℕ) (X : Picture) (old new : DeskState) (o : Outcome)
        → Ran shelf (Asked.Check source kind report) old new o
        → FindsPicture old.files source X
        → FileIs old.files report (Holds (report_of shelf kind X)) → HasNoFault old new
        → (o ≡ Outcome.Yes) ⊎ (o ≡ Outcome.NoMemory) }
    ensures no { (shelf : List (Named Rule)) (source : Source) (kind : ReportKind)
        (report : List ℕ) (X : Picture) (old new : DeskState) (o : Outcome)
        → Ran shelf (Asked.Check source kind report) old new o
        → FindsPicture old.files source X
        → FileIs old.files report (λ bytes. Holds (report_of shelf kind X) bytes → ⊥)
        → HasNoFault old new
        → ((k : ℕ) × (o ≡ Outcome.No k)) ⊎ (o ≡ Outcome.NoMemory) }
{}
