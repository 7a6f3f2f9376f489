//! The runs of a cluster, and the laws that every run is to keep, as definitions over a past.
//!
//! - `specs/Runs.antt`: `IsRun`, the histories that follow the step tables of the four kinds of node (`specs/Kinds.antt`).
//! - `specs/Safety.antt`: `IsSafe`, the five laws of safety; `specs/Cuts.antt` and `specs/Eagerness.antt`: two laws more.
//! - [`laws`]: what is shown of these definitions so far.
//!
//! The proofs of the laws stand in crates of their own above this one.
#![tactic(auto)]

pub mod laws;
