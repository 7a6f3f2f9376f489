//! How many readers a consumer has.
ghost use Rattle.std.specs.Prelude.{◌≡◌, ◌≤◌, length};
ghost use Rattle.plan_views.specs.Views.{count_of};

/// How many of these readers, each given by its consumer, look at this consumer's view.
pub(crate) fn readers_of(consumer: usize, readers: &[u8]) -> usize
    ensures count { result ≡ count_of consumer readers.now }
    ensures most { result ≤ length readers.now }
{
    let mut count = 0;
    for reader in readers {
        if usize::from(*reader) == consumer {
            count += 1;
        }
    }
    count
}
