// What holds of every file.
ghost use Rattle.std.specs.Prelude.{◌≡◌, List, ℕ};
ghost use Rattle.gate_vault.specs.declared.errors.VaultError.{VaultError as TheError};
ghost use Rattle.gate_vault.specs.File.{StandsFor, AreShort};
ghost use Rattle.gate_vault.specs.Stops.{IsStop, RefusesFile};

/// A file stands for at most one list of entries.
pub fn stands_for_one()
    ensures { (file : List ℕ) (one other : List (List ℕ)) → StandsFor file one → StandsFor file other → one ≡ other }
{}

/// A file that stands for entries within the limit is refused by no load, but for a disk fault and want of memory.
pub fn never_refused()
    ensures { (file : List ℕ) (entries : List (List ℕ)) → StandsFor file entries → AreShort entries → (error : TheError) → RefusesFile file error
        → IsStop error }
{}
