//! What follows for every product of a report, as laws that callers can cite: what counts are the clauses.
//! The bodies do nothing.
ghost use Rattle.std.specs.Prelude.{◌≡◌, ◌⊎◌, ℕ, List};
ghost use Rattle.shape_desk.specs.Desk.{DeskState, Rose, IsMissing};
ghost use Rattle.report_terms.specs.Lines.{Line};
ghost use Rattle.report_lines.specs.Reports.{Space, flat, IsReport};
ghost use Rattle.report_lines.specs.Made.{IsSpace, flat_alone, IsMadeOf, IsSolidReport, IsNoReport};
ghost use Rattle.report_lines.specs.Runs.{Ran, RanUpTo, RanSolid, RanFlat};
ghost use Rattle.report_lines.specs.Complete.{IsSomeReport, FileIs, HasNoFault, WritesOf};
ghost use Rattle.report_lines.specs.declared.outcome.Outcome.{Outcome};

use crate::making::Making;

/// All that is made of a text is made of one list of lines about one picture, and a text of which something is made has no
/// first bad line. Any other text has one first bad line at most.
pub fn one_making<M: Making, N: Making>()
    ensures space { (make : M) (other : N) (text bytes more : List ℕ)
        (m : IsMadeOf (M.makes make) text bytes) (n : IsMadeOf (N.makes other) text more)
        → m.space ≡ n.space }
    ensures lines { (make : M) (other : N) (text bytes more : List ℕ)
        (m : IsMadeOf (M.makes make) text bytes) (n : IsMadeOf (N.makes other) text more)
        → m.lines ≡ n.lines }
    ensures made { (text : List ℕ) (k : ℕ) → IsSomeReport text → IsNoReport text k → ⊥ }
    ensures bad { (text : List ℕ) (k m : ℕ) → IsNoReport text k → IsNoReport text m → k ≡ m }
{}

/// What a run owes that makes something of a report, but for want of memory.
///
/// Of a report that is there something is made and written, where no count rose. Of a file that is there and is no report
/// the first bad line is told, where no count of reads rose. A missing file is a failed read.
pub fn products_are_complete<M: Making>()
    ensures made { (make : M) (name : List ℕ) (old new : DeskState) (o : Outcome)
        → Ran (M.makes make) name old new o → FileIs old.files name IsSomeReport
        → HasNoFault old new
        → (o ≡ Outcome.Done) ⊎ (o ≡ Outcome.NoMemory) }
    ensures refuses { (make : M) (name : List ℕ) (old new : DeskState) (o : Outcome)
        → Ran (M.makes make) name old new o → FileIs old.files name (λ text. IsSomeReport text → ⊥)
        → (Rose old.read_faults new.read_faults → ⊥)
        → ((k : ℕ) × (o ≡ Outcome.NotReport k)
        × FileIs old.files name (λ text. IsNoReport text k)) ⊎ (o ≡ Outcome.NoMemory) }
    ensures tells { (make : M) (name : List ℕ) (old new : DeskState) (o : Outcome) (k : ℕ)
        → Ran (M.makes make) name old new o → FileIs old.files name (λ text. IsNoReport text k)
        → (Rose old.read_faults new.read_faults → ⊥)
        → (o ≡ Outcome.NotReport k) ⊎ (o ≡ Outcome.NoMemory) }
    ensures lacks { (make : M) (name : List ℕ) (old new : DeskState) (o : Outcome)
        → Ran (M.makes make) name old new o → IsMissing old.files name
        → (o ≡ Outcome.ReadFault) ⊎ (o ≡ Outcome.NoMemory) }
{}

/// What a run owes that writes what is made of a flat picture up to a bound: the same, but that more may be made than is
/// written. Any other outcome is one of a run without a bound.
pub fn bounded_products_are_complete<M: Making>()
    ensures other { (make : M) (most : ℕ) (name : List ℕ) (old new : DeskState) (o : Outcome)
        → RanUpTo most (M.makes make) name old new o → (o ≡ Outcome.TooLarge → ⊥)
        → Ran (M.makes make) name old new o }
    ensures made { (make : M) (most : ℕ) (name : List ℕ) (old new : DeskState) (o : Outcome)
        → RanUpTo most (M.makes make) name old new o → FileIs old.files name IsSomeReport
        → HasNoFault old new
        → (o ≡ Outcome.Done) ⊎ ((o ≡ Outcome.TooLarge) ⊎ (o ≡ Outcome.NoMemory)) }
    ensures refuses { (make : M) (most : ℕ) (name : List ℕ) (old new : DeskState) (o : Outcome)
        → RanUpTo most (M.makes make) name old new o
        → FileIs old.files name (λ text. IsSomeReport text → ⊥)
        → (Rose old.read_faults new.read_faults → ⊥)
        → ((k : ℕ) × (o ≡ Outcome.NotReport k)
        × FileIs old.files name (λ text. IsNoReport text k)) ⊎ (o ≡ Outcome.NoMemory) }
    ensures tells { (make : M) (most : ℕ) (name : List ℕ) (old new : DeskState) (o : Outcome)
        (k : ℕ) → RanUpTo most (M.makes make) name old new o
        → FileIs old.files name (λ text. IsNoReport text k)
        → (Rose old.read_faults new.read_faults → ⊥)
        → (o ≡ Outcome.NotReport k) ⊎ (o ≡ Outcome.NoMemory) }
    ensures lacks { (make : M) (most : ℕ) (name : List ℕ) (old new : DeskState) (o : Outcome)
        → RanUpTo most (M.makes make) name old new o → IsMissing old.files name
        → (o ≡ Outcome.ReadFault) ⊎ (o ≡ Outcome.NoMemory) }
{}

/// What a run owes that writes what is made of a volume and nothing of a flat picture: the same, but that a report may be one
/// of a flat picture. Any other outcome is one of a run for both.
pub fn solid_products_are_complete<M: Making>()
    ensures other { (make : M) (name : List ℕ) (old new : DeskState) (o : Outcome)
        → RanSolid (M.makes make) name old new o → (o ≡ Outcome.NotSolid → ⊥)
        → Ran (M.makes make) name old new o }
    ensures made { (make : M) (name : List ℕ) (old new : DeskState) (o : Outcome)
        → RanSolid (M.makes make) name old new o → FileIs old.files name IsSomeReport
        → HasNoFault old new
        → (o ≡ Outcome.Done) ⊎ ((o ≡ Outcome.NotSolid) ⊎ (o ≡ Outcome.NoMemory)) }
    ensures refuses { (make : M) (name : List ℕ) (old new : DeskState) (o : Outcome)
        → RanSolid (M.makes make) name old new o
        → FileIs old.files name (λ text. IsSomeReport text → ⊥)
        → (Rose old.read_faults new.read_faults → ⊥)
        → ((k : ℕ) × (o ≡ Outcome.NotReport k)
        × FileIs old.files name (λ text. IsNoReport text k)) ⊎ (o ≡ Outcome.NoMemory) }
    ensures tells { (make : M) (name : List ℕ) (old new : DeskState) (o : Outcome) (k : ℕ)
        → RanSolid (M.makes make) name old new o
        → FileIs old.files name (λ text. IsNoReport text k)
        → (Rose old.read_faults new.read_faults → ⊥)
        → (o ≡ Outcome.NotReport k) ⊎ (o ≡ Outcome.NoMemory) }
    ensures lacks { (make : M) (name : List ℕ) (old new : DeskState) (o : Outcome)
        → RanSolid (M.makes make) name old new o → IsMissing old.files name
        → (o ≡ Outcome.ReadFault) ⊎ (o ≡ Outcome.NoMemory) }
{}

/// What a run owes that makes something of flat pictures alone. Any other outcome than `NotFlat` is one of a run up to a bound.
/// Of a flat picture's report something is made and written, but for want of memory or where too much is made, and a volume's
/// is refused, where no count rose.
pub fn flat_products_are_complete<M: Making>()
    ensures other { (make : M) (most : ℕ) (name : List ℕ) (old new : DeskState) (o : Outcome)
        → RanFlat most (M.makes make) name old new o → (o ≡ Outcome.NotFlat → ⊥)
        → RanUpTo most (flat_alone (M.makes make)) name old new o }
    ensures made { (make : M) (most : ℕ) (name text : List ℕ) (lines : List Line)
        (old new : DeskState) (o : Outcome) → RanFlat most (M.makes make) name old new o
        → IsReport flat text lines → FileIs old.files name (λ bytes. bytes ≡ text)
        → HasNoFault old new
        → (o ≡ Outcome.Done) ⊎ ((o ≡ Outcome.TooLarge) ⊎ (o ≡ Outcome.NoMemory)) }
    ensures refuses { (make : M) (most : ℕ) (name : List ℕ) (old new : DeskState) (o : Outcome)
        → RanFlat most (M.makes make) name old new o → FileIs old.files name IsSolidReport
        → HasNoFault old new → (o ≡ Outcome.NotFlat) ⊎ (o ≡ Outcome.NoMemory) }
{}

/// A run that ends well for a file whose text is a report has written what is made of the report's lines.
pub fn reports_are_made<M: Making>()
    ensures { (make : M) (s : Space) (name text : List ℕ) (lines : List Line) (old new : DeskState)
        → IsSpace s → IsReport s text lines → FileIs old.files name (λ bytes. bytes ≡ text)
        → Ran (M.makes make) name old new Outcome.Done
        → WritesOf (M.makes make) s lines old new }
{}
