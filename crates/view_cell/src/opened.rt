//! The ends of a new view.
ghost use Rattle.std.specs.Prelude.{◌≡◌, ◌≤◌, ◌<◌, IfOk, vec_len};
ghost use Rattle.std.specs.List.{All};
ghost use Rattle.view_cell.specs.Ends.{opened_at, watching_at};

use crate::cell::{CellWriter, Notes, put};
use crate::history::begun;
use crate::look::Look;
use crate::pass::ReaderPass;
use crate::published::Published;
use crate::publisher::Publisher;
use left_right::writer::Writer;
use quota_table::OutOfMemory;
use std::alloc::Global;
use std::sync::Wait;

/// The ends that look, one for each reader.
pub type ReaderPasses = Vec<ReaderPass>;

/// The ends of a new view with so many readers. For none, one place is made, which stays unused.
pub fn view<R: Wait + Drop>(
    rt: R,
    alloc: Global,
    readers: usize,
    opening: Look,
) -> Result<(Publisher<R>, ReaderPasses), OutOfMemory>
    requires readers { readers ≤ 8 }
    requires opening { opening.ops ≡ 0 }
    ensures publisher { IfOk result (λ ends. ends.0 ≡ opened_at ends.0.cell opening) }
    ensures readers { IfOk result (λ ends. vec_len ends.1 ≡ readers) }
    ensures passes { IfOk result (λ ends. All (λ pass. pass ≡ watching_at ends.0.cell opening) ends.1.items) }
{
    let mut publisher = Publisher::opened(rt, alloc, readers, opening)?;
    let passes = publisher.passes(alloc, readers)?;
    Ok((publisher, passes))
}

impl<R: Wait + Drop> Publisher<R> {
    /// The end that publishes, of a cell with places for so many readers.
    fn opened(
        rt: R,
        alloc: Global,
        readers: usize,
        opening: Look,
    ) -> Result<Publisher<R>, OutOfMemory>
        requires readers { readers ≤ 8 }
        requires opening { opening.ops ≡ 0 }
        ensures { IfOk result (λ publisher. publisher ≡ opened_at publisher.cell opening) }
    {
        let (head, seen) = begun(&opening);
        let shown = Published {
            look: opening,
            seen,
        };
        let writer: CellWriter = Writer::new(alloc, shown.copy(), shown.copy(), readers.max(1))?;
        // From here on the writer's queue has the room of one operation, so that later ones find it.
        let (writer, done) = put(&rt, writer, shown);
        match done {
            Ok(()) => Ok(Publisher { writer, head, rt }),
            Err(wanting) => {
                writer.take(&rt);
                Err(wanting)
            }
        }
    }

    /// So many readers.
    fn passes(&mut self, alloc: Global, readers: usize) -> Result<ReaderPasses, OutOfMemory>
        requires opened { self.old ≡ opened_at self.old.cell self.old.newest }
        ensures kept { self.new ≡ self.old }
        ensures readers { IfOk result (λ passes. vec_len passes ≡ readers) }
        ensures passes { IfOk result (λ passes. All (λ pass. pass ≡ watching_at self.old.cell self.old.newest) passes.items) }
    {
        let mut passes = Vec::with_capacity(alloc, readers)?;
        for _made in 0..readers {
            passes.push(self.pass()?)?;
        }
        Ok(passes)
    }

    /// One more reader, which has seen the opening look.
    fn pass(&mut self) -> Result<ReaderPass, OutOfMemory>
        requires opened { self.old ≡ opened_at self.old.cell self.old.newest }
        ensures kept { self.new ≡ self.old }
        ensures pass { IfOk result (λ pass. pass ≡ watching_at self.old.cell self.old.newest) }
    {
        let mut reader = self.writer.factory().reader()?;
        reader.learn::<Notes>(self.writer.tell::<Notes>());
        let Published { look, seen } = self.writer.published().copy();
        Ok(ReaderPass {
            reader,
            seen,
            last: look,
            met: false,
        })
    }
}
