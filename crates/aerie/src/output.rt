ghost use Rattle.std.specs.Prelude.{◌≤◌, OnOk, OnErr};
ghost use Rattle.aerie_edge.specs.Faults.{Rose};
ghost use Rattle.aerie.specs.Output.{WritesAll, WritesFront};

use aerie_edge::{Sink, WriteFailed};

/// Writes the text, handing over all that is left each time. It takes no memory.
#[tactic(auto, using(aerie_edge::specs::WrittenLaws::Receives_more, crate::proofs::Handing::handed_nothing, crate::proofs::Handing::handed_more, crate::proofs::Handing::handed_last, std::proofs::lemmas::Grind::common_steps))]
pub fn write_output<K: Sink>(sink: &mut K, text: &[u8]) -> Result<(), WriteFailed>
    ensures ok { OnOk result (WritesAll (K.written sink.old) (K.written sink.new)
        (K.pieces sink.old) (K.pieces sink.new) text.now) }
    ensures err { OnErr result (WritesFront (K.written sink.old) (K.written sink.new)
        (K.pieces sink.old) (K.pieces sink.new) text.now) }
    ensures cause { OnErr result (Rose (K.faults sink.old) (K.faults sink.new)) }
    ensures later { K.faults sink.old ≤ K.faults sink.new }
{
    let mut at = 0;
    while at < text.len() {
        at += sink.write(&text[at..])?;
    }
    Ok(())
}
