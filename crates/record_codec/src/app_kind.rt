/// The application that every consumer of a cluster runs.
#[derive(Clone, Copy, Debug, PartialEq, Eq)]
pub enum AppKind {
    /// Adds numbers up.
    Tally,
    /// Moves money between eight accounts.
    Bank,
    /// Keeps values under up to 32 keys.
    Kv,
}
