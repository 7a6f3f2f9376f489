//! What `gen` does with a seed and a size.

ghost use Rattle.std.specs.Prelude.{◌≡◌, ◌≤◌, Some, IsTrue};
ghost use Rattle.spec_base.specs.Faults.{Rose};
ghost use Rattle.speclog.specs.Answers.{is_write_fault, is_unwritten, CountsBlame};
ghost use Rattle.speclog.specs.inside.Generating.{WritesPlan};

use crate::fault::Fault;
use crate::outcome::Outcome;
use crate::output::write_all;
use script_text::generate;
use spec_base::{Sink, Stop};
use std::alloc::Global;

/// Writes the generated plan of a seed and a size, once it is whole. The fault that it met, if it met one.
pub fn write_plan<K: Sink>(alloc: Global, seed: u32, size: u32, sink: &mut K) -> Option<Fault>
    requires least { 1 ≤ size }
    requires most { size ≤ 2000 }
    ensures written { WritesPlan seed size result (record { before = K.taken sink.old; after = K.taken sink.new }) }
    ensures sink_count { CountsBlame (is_write_fault result) (K.faults sink.old) (K.faults sink.new) }
    ensures unwritten { IsTrue (is_unwritten result) → sink.new ≡ sink.old }
    ensures write_fault { result ≡ Some Fault.WriteFault → Rose (K.faults sink.old) (K.faults sink.new) }
{
    let Ok(plan) = generate(alloc, seed, size) else {
        return Some(Fault::OutOfMemory);
    };
    match write_all(sink, plan.as_slice()) {
        Ok(()) => None,
        Err(Stop::Failed) => Some(Fault::WriteFault),
        Err(Stop::OutOfMemory) => Some(Fault::OutOfMemory),
    }
}
