//! Scripts and plans as text: the head of a cluster, and after it one input a line, or the rest of a plan.
//!
//! - [`read_script`]: the script that a text spells, or the first line that is refused, and why.
//! - [`read_before`]: the script of the lines before that one, where [`has_head_before`] finds a head there.
//! - [`Script`], [`LineNumbers`]: a cluster, its inputs, and the number of each input's line.
//! - [`read_plan`]: the plan that a text spells, or the first line that is refused, and why.
//! - [`generate`]: the text of a plan, made of a seed and a size.
//! - [`ScriptError`], [`ScriptKind`]: what a text is refused with.
#![tactic(auto)]

mod decimal;
mod errors;
mod generated;
mod head;
mod inputs;
mod kind;
pub mod laws;
mod lines;
mod plan;
mod plan_head;
mod plan_lines;
mod rows;
mod script;
mod words;

pub use errors::ScriptError;
pub use generated::generate;
pub use kind::ScriptKind;
pub use plan::read_plan;
pub use script::{LineNumbers, Script, has_head_before, read_before, read_script};

#[cfg(test)]
mod plan_tests;
#[cfg(test)]
mod tests;
