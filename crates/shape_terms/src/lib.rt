//! The terms of digital geometry that contracts cite, in `specs/`, and the laws about them, in `proofs/`, a module for each idea.
//! No definition names a type of the program: points are lists of whole numbers, pictures are sides and truth values.
#![tactic(auto)]
