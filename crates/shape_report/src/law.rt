//! What holds of all lines, as laws that callers can cite.
//! The bodies do nothing: what counts are the clauses.
ghost use Rattle.std.specs.Prelude.{◌≡◌, ◌≤◌, ℕ, length};
ghost use Rattle.report_terms.specs.Lines.{Line, spelling, IsLineOf};

/// No two lines have one spelling, and none has more than 1024 bytes.
///
/// So a text has one reading at most, whoever wrote the reader.
pub fn one_spelling()
    ensures same { (d : ℕ) (l m : Line) → IsLineOf d l → IsLineOf d m → spelling l ≡ spelling m
        → l ≡ m }
    ensures short { (d : ℕ) (l : Line) → d ≤ 3 → IsLineOf d l → length (spelling l) ≤ 1024 }
{}
