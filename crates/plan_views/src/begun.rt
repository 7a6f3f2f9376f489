//! Views, and readers of them.
ghost use Rattle.std.specs.Prelude.{◌≡◌, ◌<◌, ◌≤◌, IfOk, length, map};
ghost use Rattle.std.specs.List.{AllByRecursion, AllZip};
ghost use Rattle.plan_views.specs.Views.{AreCounted, AreWatching, IsOpened, IsOpening, WaitAt};

use crate::counts::readers_of;
use cluster_users::Reader;
use quota_table::OutOfMemory;
use std::alloc::Global;
use std::sync::Wait;
use view_cell::{Look, Publisher, ReaderPasses, view};

/// The views of consumers and their readers, as a run begins.
#[derive(Drop)]
pub struct BegunViews<P: Wait + Drop> {
    /// The end on which each consumer publishes its view, at the consumer's number.
    pub publishers: Vec<Publisher<P>>,
    /// The readers, by their numbers.
    pub readers: Vec<Reader>,
}

/// The ends that publish, and for each the passes of its readers.
struct Opened<P: Wait + Drop> {
    publishers: Vec<Publisher<P>>,
    waiting: Vec<ReaderPasses>,
}

/// A view for each consumer, with its opening look, and the readers, each given by its consumer. Readers of one view get its passes in
/// their order. Want of memory comes where it is wanted.
pub fn begin_views<'a, R: Wait>(
    rt: &'a R,
    alloc: Global,
    readers: &[u8],
    openings: Vec<Look>,
) -> Result<BegunViews<&'a R>, OutOfMemory>
    requires few { length readers.now ≤ 8 }
    requires consumers { AllByRecursion (λ consumer. consumer < length openings.items) readers.now }
    requires openings { AllByRecursion IsOpening openings.items }
    ensures publishers { IfOk result (λ begun. AllZip IsOpened openings.items begun.publishers.items) }
    ensures readers { IfOk result (λ begun. AreWatching begun.publishers.items 0 readers.now begun.readers.items) }
{
    let Opened {
        publishers,
        waiting,
    } = open(rt, alloc, readers, openings)?;
    let readers = watching(alloc, readers, waiting)?;
    Ok(BegunViews {
        publishers,
        readers,
    })
}

/// A view for each opening look, with a pass for each reader.
fn open<'a, R: Wait>(
    rt: &'a R,
    alloc: Global,
    readers: &[u8],
    openings: Vec<Look>,
) -> Result<Opened<&'a R>, OutOfMemory>
    requires few { length readers.now ≤ 8 }
    requires openings { AllByRecursion IsOpening openings.items }
    ensures publishers { IfOk result (λ opened. AllZip IsOpened openings.items opened.publishers.items) }
    ensures same { IfOk result (λ opened. length opened.waiting.items ≡ length openings.items) }
    ensures counted { IfOk result (λ opened. AreCounted 0 readers.now (map (λ q. q.items) opened.waiting.items)) }
    ensures waiting { IfOk result (λ opened. AllZip WaitAt opened.publishers.items (map (λ q. q.items) opened.waiting.items)) }
{
    let mut publishers = Vec::with_capacity(alloc, openings.len())?;
    let mut waiting = Vec::with_capacity(alloc, openings.len())?;
    for opening in openings {
        let count = readers_of(publishers.len(), readers);
        let (publisher, passes) = view(rt, alloc, count, opening)?;
        publishers.push(publisher)?;
        waiting.push(passes)?;
    }
    Ok(Opened {
        publishers,
        waiting,
    })
}

/// The readers of these consumers. Each takes the next pass of its consumer's view.
fn watching(
    alloc: Global,
    consumers: &[u8],
    mut waiting: Vec<ReaderPasses>,
) -> Result<Vec<Reader>, OutOfMemory>
    requires few { length consumers.now ≤ 8 }
    requires consumers { AllByRecursion (λ consumer. consumer < length waiting.items) consumers.now }
    requires counted { AreCounted 0 consumers.now (map (λ q. q.items) waiting.items) }
    ensures { IfOk result (λ all. (views : _) → AllZip WaitAt views (map (λ q. q.items) waiting.items) → AreWatching views 0 consumers.now all.items) }
{
    let mut readers = Vec::with_capacity(alloc, consumers.len())?;
    for consumer in consumers {
        let number = readers.len() as u8;
        let pass = waiting[usize::from(*consumer)].remove(0);
        readers.push(Reader::new(alloc, number, *consumer, pass))?;
    }
    Ok(readers)
}
