// A whole text to a sink, which may take it piece by piece.
ghost use Rattle.dev_model.specs.Counts.{Counts};
ghost use Rattle.dev_model.specs.Streams.{Says};

use crate::streams::{Failed, Sink};

/// Writes the whole text. After `Failed` the sink has taken a front of it.
pub fn send_all<K: Sink>(out: &mut K, text: &[u8]) -> Result<(), Failed>
    ensures counts { Counts (K.fault_count out.old) (K.fault_count out.new) result }
    ensures told { Says (K.taken out.old) (K.taken out.new) text.now result }
{
    let mut rest = text;
    while !rest.is_empty() {
        let n = out.write(rest)?;
        rest = &rest[n..];
    }
    Ok(())
}
