ghost use Rattle.std.specs.Prelude.{◌≡◌, ◌<◌, ◌≤◌, ◌++◌, ◌∷◌, [], length};

use arrayvec::ArrayVec;
use std::marker::Model;

/// At most `N` values, which take no memory, seen by contracts as that list.
#[derive(Debug, Drop)]
pub struct Few<T, const N: usize> {
    items: ArrayVec<T, N>,
}

impl<T, const N: usize> Model for Few<T, N> {
    ghost use Rattle.std.specs.Prelude.{List};

    ghost Value = { List T };

    ghost view = { λ f. f.items.items };
}

impl<T: Default + Drop, const N: usize> Few<T, N> {
    /// No value yet.
    pub fn new() -> Few<T, N>
        ensures { result ≡ [] }
    {
        Few {
            items: ArrayVec::new(),
        }
    }

    /// Puts one value at the end.
    pub fn push(&mut self, item: T)
        requires { length self.old < N }
        ensures { self.new ≡ self.old ++ item ∷ [] }
    {
        self.items.push(item);
    }

    /// The values, in order.
    pub fn as_slice(&self) -> &[T]
        ensures items { result.now ≡ self.now }
        ensures within { length self.now ≤ N }
    {
        self.items.as_slice()
    }
}
