//! What is shown of the definition of the history that inputs make, on small scripts.
ghost use Rattle.world.specs.FirstScripts.{FirstScripts};

/// The first steps of a script, worked out by hand, are what its inputs make; so are those of a small drain. Inputs that
/// are refused are named.
pub fn first_scripts_are_played()
    ensures { FirstScripts }
{}
