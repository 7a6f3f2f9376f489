//! Runs of the plan of two records: what their histories and looks show, on disks that fail, with messages that have faults, and at a gate.

mod disks;
mod gates;
mod meeting;
mod memory;
mod plans;
mod shelves;
mod shows;
mod two_records;
