//! The history of the looks that were published: a book whose one word is the number of the newest.
ghost use Rattle.std.specs.Prelude.{◌≡◌, ◌<◌, ◌++◌, ◌∷◌, [], IfSome};
ghost use Rattle.view_cell.specs.Looks.{IsHistory};
ghost use Rattle.view_cell.specs.inside.History.{word_of};

use crate::look::Look;
use crate::published::Published;
use logbook::{Gain, Offer, Opening, Plain, Play, Rule, Seen, Start, Word};

/// A beginning of the history that was reached. It has no bytes.
pub(crate) type Token = Seen<Look, u64, Law>;

/// The number of the newest look.
pub(crate) type Head = Word<Look, u64, Law>;

/// The rule of the book.
pub(crate) struct Law;

impl Rule<Look, u64> for Law {
    ghost use Rattle.std.specs.Prelude.{[]};
    ghost use base.Fml.{ftrue};
    ghost use Rattle.view_cell.specs.inside.History.{IsWritten};

    ghost holds = { λ cells log. IsWritten cells log };

    ghost first = { [] };

    ghost hinted = { λ n log. Unit {0} };

    ghost shows = { λ log. [] };

    ghost keeps = { λ names log. ftrue };

    ghost moves = { λ ask before after answer. Unit {0} };
}

/// Callers trade nothing.
pub(crate) struct Nothing;

impl Gain<Look, u64> for Nothing {
    ghost use base.Fml.{ftrue};

    ghost after = { λ names about answer. ftrue };
}

/// A step that adds a look.
pub(crate) struct Added;

impl Play<Look, u64> for Added {
    ghost use Rattle.view_cell.specs.inside.History.{Adds};

    ghost then = { Adds };
}

impl Plain<Look, Look, u64> for Added {
    ghost use Rattle.std.specs.Prelude.{None};

    ghost ask = { λ look. look };

    ghost state = { λ look. None };
}

/// A history begins with the opening look.
pub(crate) struct Begins;

impl Opening<Look, Look> for Begins {
    ghost use Rattle.std.specs.Prelude.{[], ◌∷◌};

    ghost log = { λ count opening. opening ∷ [] };
}

/// A new history, of the opening look alone.
pub(crate) fn begun(opening: &Look) -> (Head, Token)
    requires opening { opening.now.ops ≡ 0 }
    ensures word { result.0 ≡ word_of result.1.book }
    ensures log { result.1.log ≡ opening.now ∷ [] }
{
    let (seen, mut pens) = Seen::open_row::<Look, Begins>(opening, Start::alone(), 1);
    let mut pen = pens.take();
    (Word::tracked(0, &mut pen), seen)
}

/// Adds a look to the history that ends with `shown`. It is None only where another look stands behind that one,
/// which no run shows: one publisher alone adds.
pub(crate) fn written(head: &Head, shown: &Published, next: Look) -> Option<Published>
    requires word { head.now ≡ word_of shown.now.seen.book }
    requires history { IsHistory shown.now.seen.log }
    requires next { shown.now.look.ops < next.ops }
    ensures look { IfSome result (λ added. added.look ≡ next) }
    ensures book { IfSome result (λ added. added.seen.book ≡ shown.now.seen.book) }
    ensures log { IfSome result (λ added. added.seen.log ≡ shown.now.seen.log ++ next ∷ []) }
    ensures history { IfSome result (λ added. IsHistory added.seen.log) }
{
    let mut seen = shown.seen.again();
    let mut offer: Offer<Look, u64, Law, Nothing> = seen.plain::<Nothing, Look, Added>(&next);
    let mut pen = seen.no_pen();
    let last = shown.look.ops;
    let found = head.compare_exchange::<Added, Nothing>(
        last, next.ops, &mut seen, &mut offer, &mut pen,
    );
    if found == last {
        Some(Published { look: next, seen })
    } else {
        None
    }
}
