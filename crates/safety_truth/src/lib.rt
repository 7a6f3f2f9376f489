//! That every run is truthful: confirmed records were submitted, each once and in its client's order, and acknowledgements are true.
//!
//! - [`laws`]: the law.
#![tactic(auto)]

pub mod laws;
