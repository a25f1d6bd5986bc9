//! Writing text whole.

ghost use Rattle.std.specs.Prelude.{◌≡◌, ℕ, take, OnOk, OnErr};
ghost use Rattle.io_edge.specs.Told.{Rose, appended};

use io_edge::{Failed, Sink};

/// Writes all of the text. After a failed write the sink has a front of it.
pub fn write_all<O: Sink>(sink: &mut O, text: &[u8]) -> Result<(), Failed>
    ensures ok { OnOk result (O.taken sink.new ≡ appended (O.taken sink.old) text.now) }
    ensures prefix { (n : ℕ) × (O.taken sink.new ≡ appended (O.taken sink.old) (take n text.now)) }
    ensures same_count { OnOk result (O.faults sink.new ≡ O.faults sink.old) }
    ensures rose { OnErr result (Rose (O.faults sink.old) (O.faults sink.new)) }
{
    let mut at: usize = 0;
    while at < text.len() {
        at += sink.write(&text[at..])?;
    }
    Ok(())
}
