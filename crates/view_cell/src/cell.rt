//! The cell: the two ends of `left_right`, under a rule that ties what is shown to one history.
ghost use Rattle.std.specs.Prelude.{◌≡◌, ◌≤◌, ◌++◌, ◌∷◌, [], drop, Some, IfSome, IfNone, OnOk, OnErr};
ghost use mathlib.Core.List.{IsPrefix};
ghost use Rattle.left_right.specs.Sides.{view};
ghost use Rattle.view_cell.specs.Looks.{IsHistory, newest_of, last_number, later_of};
ghost use Rattle.view_cell.specs.inside.History.{word_of};

use crate::history::{Head, Token};
use crate::look::Look;
use crate::published::Published;
use atomic_table::{Join, Split};
use crossbeam_utils::rule::{Outcome, Protocol};
use left_right::reader::Reader;
use left_right::writer::Writer;
use quota_table::OutOfMemory;
use std::collections::LinkedList;
use std::sync::Wait;

/// What an end knows: the book, by its word, and what the cell handed to it. No value of it is made.
pub(crate) struct Knows {
    pub head: Head,
    pub handed: LinkedList<Look>,
}

/// The rule of the cell.
pub(crate) struct OneBook;

impl Protocol<Published, Knows> for OneBook {
    ghost use Rattle.view_cell.specs.inside.Cell.{Keeps, newcomer};

    ghost holds = { Keeps };

    ghost first = { newcomer };
}

/// A look, and a publish: the end knows what is then shown.
pub(crate) struct Sees;

impl Outcome<Published, Knows> for Sees {
    ghost use Rattle.view_cell.specs.inside.Cell.{Looked};

    ghost then = { Looked };
}

/// What the writer knows of the book is told to a new reader.
pub(crate) struct Notes;

impl Split<Knows> for Notes {
    ghost left = { λ v. v };

    ghost right = { λ v. v };
}

impl Join<Knows> for Notes {
    ghost use Rattle.view_cell.specs.inside.Cell.{informed, newcomer};

    ghost both = { informed };

    ghost spent = { newcomer };
}

pub(crate) type CellReader = Reader<Published, Knows, OneBook>;

pub(crate) type CellWriter = Writer<Published, Published, Knows, OneBook>;

/// A copy of what the cell hands out, if it hands something out.
pub(crate) fn glance(reader: CellReader, seen: &Token) -> (CellReader, Option<Published>)
    requires knows { (view reader.place).head ≡ word_of seen.now.book }
    ensures knows { (view result.0.place).head ≡ word_of seen.now.book }
    ensures book { IfSome result.1 (λ found. found.seen.book ≡ seen.now.book) }
    ensures handed { IfSome result.1 (λ found. (view result.0.place).handed ≡ (view reader.place).handed ++ found.look ∷ []) }
    ensures rises { IfSome result.1 (λ found. last_number 0 (view reader.place).handed ≤ found.look.ops) }
    ensures none { IfNone result.1 ((view result.0.place).handed ≡ (view reader.place).handed) }
{
    let _ = seen;
    match reader.enter_as::<Sees>() {
        Ok(reading) => {
            let found = reading.get().copy();
            (reading.leave(), Some(found))
        }
        Err(reader) => (reader, None),
    }
}

/// Shows what comes next. It waits for the readers that are inside.
pub(crate) fn put<R: Wait>(
    rt: &R,
    mut writer: CellWriter,
    next: Published,
) -> (CellWriter, Result<(), OutOfMemory>)
    requires idle { drop writer.behind writer.log.items ≡ [] }
    requires book { next.seen.book ≡ writer.desk.shown.value.seen.book }
    requires rises { writer.desk.shown.value.look.ops ≤ next.look.ops }
    ensures idle { drop result.0.behind result.0.log.items ≡ [] }
    ensures book { result.0.desk.shown.value.seen.book ≡ writer.desk.shown.value.seen.book }
    ensures history { IsHistory writer.desk.shown.value.seen.log → IsHistory next.seen.log → IsHistory result.0.desk.shown.value.seen.log }
    ensures knows { (view writer.desk.place).head ≡ word_of writer.desk.shown.value.seen.book
        → (view result.0.desk.place).head ≡ word_of result.0.desk.shown.value.seen.book }
    ensures ok { OnOk result.1 ((result.0.desk.shown.value ≡ next) × ((view result.0.desk.place).head ≡ word_of next.seen.book)) }
    ensures err { OnErr result.1 ((result.0.desk.shown.value ≡ writer.desk.shown.value) × (view result.0.desk.place ≡ view writer.desk.place)) }
{
    match writer.append(next) {
        Ok(()) => {
            let (writer, shown) = writer.publish_as::<Sees, R>(rt);
            match shown {
                Ok(()) => (writer, Ok(())),
                Err(_) => (writer, Err(OutOfMemory)),
            }
        }
        Err(_) => (writer, Err(OutOfMemory)),
    }
}

/// Takes in a look of the same history: it stays where it is, or goes on to the later one.
pub(crate) fn take_later(seen: &mut Token, last: &mut Look, found: &Published)
    requires book { found.now.seen.book ≡ seen.old.book }
    requires newest { newest_of seen.old.log ≡ Some last.old }
    requires history { IsHistory seen.old.log }
    ensures book { seen.new.book ≡ seen.old.book }
    ensures goes_on { IsPrefix seen.old.log seen.new.log }
    ensures found { IsPrefix found.now.seen.log seen.new.log }
    ensures newest { newest_of seen.new.log ≡ Some last.new }
    ensures history { IsHistory seen.new.log }
    ensures last { last.new ≡ later_of last.old found.now.look }
{
    let mut both = seen.again();
    both.learn(&found.seen);
    if last.ops < found.look.ops {
        *seen = found.seen.again();
        *last = found.look.copy();
    }
}
