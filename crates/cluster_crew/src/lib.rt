//! The crew of a cluster that runs in threads: its nodes with their desks and views, its readers and its submitters, and what they do
//! by the lines of a plan.
//!
//! - [`Member`]: a node as it takes turns with what it has beside its links, a [`Side`]: a client's desk pass, or a consumer's view
//!   ([`Showing`]).
//! - [`Crew`]: all who take turns. It does what a plan's lines say, and begins the drain; [`Ended`] is what is then left of it.
//! - [`Room`]: the memory that the end of a crew needs.
#![tactic(auto)]

mod apart;
mod between;
mod bodies;
mod crew;
mod drain;
mod joins;
mod lines;
mod marks;
mod member;
mod notes;
mod room;
mod showing;
mod steps;
#[cfg(test)]
mod tests;
mod turns;

pub use crew::Crew;
pub use drain::Ended;
pub use member::{Member, Side};
pub use room::Room;
pub use showing::Showing;
