//! A look with the history that it is the newest of.
ghost use Rattle.std.specs.Prelude.{◌≡◌, Some};
ghost use Rattle.view_cell.specs.Looks.{newest_of};

use crate::history::Token;
use crate::look::Look;

/// A look, and the beginning of the history that ends with it.
#[derive(Drop)]
pub(crate) struct Published {
    pub look: Look,
    pub seen: Token,
    ghost newest: { newest_of seen.log ≡ Some look },
}

impl Published {
    /// A copy, which takes no memory.
    pub fn copy(&self) -> Published
        ensures { result ≡ self.now }
    {
        Published {
            look: self.look.copy(),
            seen: self.seen.again(),
        }
    }
}
