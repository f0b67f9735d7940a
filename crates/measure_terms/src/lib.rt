//! The measures of the objects of a picture, the contours and holes of its components, and the lengths of their borders, in `specs/`; and the laws about them, in `proofs/`.
//! No definition names a type of the program: facts of points, measures and tables are plain values, over the terms of `shape_terms`.
#![tactic(auto)]
