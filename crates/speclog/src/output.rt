//! Writing a text to a sink.

ghost use Rattle.std.specs.Prelude.{IsErrOf};
ghost use Rattle.spec_base.specs.Faults.{Rose, CountsFault};
ghost use Rattle.speclog.specs.inside.Output.{HasWritten};

use spec_base::{Sink, Stop};

/// Writes a whole text. At an error a prefix of it is out; `Failed` comes only where the sink's count of faults rose,
/// and at every other answer that count stands.
#[tactic(auto, using(spec_base::proofs::KnownBytes::taken_more))]
pub fn write_all<K: Sink>(sink: &mut K, text: &[u8]) -> Result<(), Stop>
    ensures written { HasWritten (K.taken sink.old) (K.taken sink.new) text.now result }
    ensures count { CountsFault (K.faults sink.old) (K.faults sink.new) result }
    ensures failed { IsErrOf result Stop.Failed → Rose (K.faults sink.old) (K.faults sink.new) }
{
    let mut done = 0;
    while done < text.len() {
        let (_, rest) = text.split_at(done);
        done += sink.write(rest)?;
    }
    Ok(())
}
