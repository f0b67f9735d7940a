//! Tests of what no run of a program shows, each crate by its public names alone: finders and what they stand on, texts, judges, runs, desks and the laws of checks.
//! All else is cases that `run_cases` runs. The crates under test have no tests: what is proved of them is proved once.
#![tactic(auto)]

#[cfg(test)]
mod analyses;
#[cfg(test)]
mod ball_lists;
#[cfg(test)]
mod balls;
#[cfg(test)]
mod bits;
#[cfg(test)]
mod boxes;
#[cfg(test)]
mod checks;
#[cfg(test)]
mod cover;
#[cfg(test)]
mod desk;
#[cfg(test)]
mod grid;
#[cfg(test)]
mod judges;
#[cfg(test)]
mod line_texts;
#[cfg(test)]
mod long_files;
pub mod mask;
#[cfg(test)]
mod minkowski;
#[cfg(test)]
mod pages;
#[cfg(test)]
mod patches;
#[cfg(test)]
mod pictures;
#[cfg(test)]
mod plane;
#[cfg(test)]
mod refute;
#[cfg(test)]
mod reports;
#[cfg(test)]
mod rules;
#[cfg(test)]
mod runs;
#[cfg(test)]
mod shared;
#[cfg(test)]
mod slope;
#[cfg(test)]
mod space;
#[cfg(test)]
mod thin;
#[cfg(test)]
mod topo;
#[cfg(test)]
mod trial;
#[cfg(test)]
mod trials;
