//! What a consumer shows.
ghost use Rattle.std.specs.Prelude.{◌≡◌};

use record_codec::Shown;

/// What a consumer shows beside the counts of its marks.
#[derive(Debug, Drop, PartialEq)]
pub struct View {
    /// How many positions were applied.
    pub applied: u64,
    /// How many of those were confirmed.
    pub confirmed: u64,
    /// What the application shows of its state.
    pub shown: Shown,
}

/// A node of which there is a view, if it is a consumer.
pub trait Viewed {
    ghost use Rattle.std.specs.Prelude.{Option};
    ghost use Rattle.net_model.specs.declared.viewed.View.{View};

    /// What a consumer shows; None for any other node.
    ghost shows: { Self → Option View };

    /// What it shows now. It takes no memory.
    fn view(&self) -> Option<View>
        ensures { result ≡ shows self.now };
}
