//! Writing a whole text.

ghost use Rattle.std.specs.Prelude.{OnOk, OnErr};
ghost use Rattle.edge_io.specs.Faults.{FaultsRose};
ghost use Rattle.command_line.specs.Output.{WritesAll, WritesSome};

use edge_io::faults::Failed;
use edge_io::sink::Sink;

/// Writes a text to its end, each write being offered all that is left. What was written before a
/// failure is less than the whole text.
pub fn write_text<K: Sink>(sink: &mut K, text: &[u8]) -> Result<(), Failed>
    ensures written { OnOk result (WritesAll K.holds K.wrote sink.old sink.new text.now) }
    ensures part { OnErr result (WritesSome K.holds K.wrote sink.old sink.new text.now) }
    ensures fault { OnErr result (FaultsRose (K.faults sink.old) (K.faults sink.new)) }
{
    let mut written = 0;
    while written < text.len() {
        written += sink.write(&text[written..])?;
    }
    Ok(())
}
