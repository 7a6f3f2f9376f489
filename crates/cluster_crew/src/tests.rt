//! Crews of three toy nodes: what their nodes did by the lines of a plan and at the end, and what their reader kept.

mod plans;
mod runs;
mod toy;
