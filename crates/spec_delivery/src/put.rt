/// What became of a record that was put.
#[derive(Clone, Copy, Debug, Drop, PartialEq, Eq)]
pub enum Put {
    /// Its local is below the shard's floor.
    Old,
    /// Its local is 640 or more past the floor, or at or past the shard's end.
    Far,
    /// One is held there, which stays.
    Again,
    /// It is held from now on.
    Kept,
}
