ghost use Rattle.std.specs.Prelude.{ℕ};

/// What takes turns beside others. It owns all that it needs, and shares an environment with them by reference.
pub trait TakesTurns<E>: Sized {
    /// What holds of an actor before its turns.
    ghost ready: { E → Self → Type 0 };

    /// What is then so between an actor before so many turns and after them, whatever came of them: an actor that had to stop
    /// says so itself.
    ghost took: { E → ℕ → Self → Self → Type 0 };

    /// Takes so many turns.
    fn take_turns(self, env: &E, turns: u32) -> Self
        requires { ready env.now self }
        ensures { took env.now turns self result };
}
