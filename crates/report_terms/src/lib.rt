//! What a report is, in `specs/`: its lines and their spelling, which line is good after which, and what a report that holds shows.
//! The laws about them stand in `proofs/`; no definition names a type of the program, and geometry stands in `shape_terms`.
#![tactic(auto)]
