//! What holds of PBM and of raw volumes whatever reads them.
//! These are laws alone: the calls do nothing, what counts is their clauses.
ghost use Rattle.std.specs.Prelude.{◌≡◌, ◌⊎◌, ◌&&◌, get_or, ℕ, List};
ghost use Rattle.shape_terms.specs.Points.{Point, in_box, raster_number};
ghost use Rattle.shape_terms.specs.Pictures.{Picture, at};
ghost use Rattle.shape_picture.specs.declared.fault.PictureFault.{PictureFault};
ghost use Rattle.shape_picture.specs.Pbm.{Pbm, PbmFault};
ghost use Rattle.shape_picture.specs.Raw.{Raw, RawFault, is_object};
ghost use Rattle.shape_picture.specs.Answers.{pbm, raw, SpellsSome, HasFault};

/// The bytes of a file spell exactly one picture, by exactly one front, or they have exactly one fault.
///
/// So a reader that answers a picture that they spell, and else a fault that they have, gives each answer exactly
/// where it is due. This is a law alone: the call does nothing.
pub fn one_answer()
    ensures some { (limit longest : ℕ) (bytes : List ℕ)
        → SpellsSome (pbm limit longest) bytes ⊎ HasFault (pbm limit longest) bytes }
    ensures not_both { (limit longest : ℕ) (bytes : List ℕ)
        (X : Picture) (m : ℕ) (f : PictureFault)
        → Pbm limit longest bytes X m → PbmFault limit longest bytes f → ⊥ }
    ensures one_picture { (limit longest : ℕ) (bytes : List ℕ) (X Y : Picture) (m n : ℕ)
        → Pbm limit longest bytes X m → Pbm limit longest bytes Y n → (X ≡ Y) × (m ≡ n) }
    ensures one_fault { (limit longest : ℕ) (bytes : List ℕ) (f g : PictureFault)
        → PbmFault limit longest bytes f → PbmFault limit longest bytes g → f ≡ g }
{}

/// The bytes of a file spell exactly one volume of given sides, or they have exactly one fault.
///
/// The object points are those of the box whose byte is not 0.
pub fn one_volume()
    ensures some { (sides bytes : List ℕ)
        → SpellsSome (raw sides) bytes ⊎ HasFault (raw sides) bytes }
    ensures not_both { (sides bytes : List ℕ) (X : Picture) (f : PictureFault)
        → Raw sides bytes X → RawFault sides bytes f → ⊥ }
    ensures one_picture { (sides bytes : List ℕ) (X Y : Picture)
        → Raw sides bytes X → Raw sides bytes Y → X ≡ Y }
    ensures one_fault { (sides bytes : List ℕ) (f g : PictureFault)
        → RawFault sides bytes f → RawFault sides bytes g → f ≡ g }
    ensures points { (sides bytes : List ℕ) (X : Picture) (p : Point)
        → Raw sides bytes X
        → at X p ≡ (in_box sides p && is_object (get_or bytes (raster_number sides p) 0)) }
{}
