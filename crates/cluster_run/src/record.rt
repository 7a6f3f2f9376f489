use cluster_users::Looks;
use net_model::History;

/// What a run gives.
#[derive(Drop)]
pub struct RunRecord {
    /// All steps of all nodes, in the order of their stamps.
    pub history: History,
    /// What each reader kept, in the order of readers.
    pub looks: Vec<Looks>,
    /// Whether the drain came to its end before it took as many inputs as it may.
    pub quiet: bool,
}
