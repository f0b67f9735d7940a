//! Laws about thinnings: what deleting a simple point keeps, and that a picture has one thinning by a rule.
//! They speak of the definitions alone, and do nothing when the program runs.
ghost use Rattle.shape_thin.specs.Laws.{DeletionKeeps, OneThinning};

/// Deleting a simple point keeps the number of components of the object, and that of the background in the framed box.
pub fn deletion_keeps()
    ensures { DeletionKeeps }
{}

/// A picture has one thinning by a rule: the events and the last stage are determined.
pub fn one_thinning()
    ensures { OneThinning }
{}
