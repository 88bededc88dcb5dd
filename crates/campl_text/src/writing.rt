//! Writing bytes onto a stream, piece by piece or as a whole.
ghost use Rattle.std.specs.Prelude.{◌≡◌, ℕ, ◌<◌, ◌≤◌, List, Option, IfOk, OnOk, IfErr, OnErr, length, take};
ghost use Rattle.std.specs.Io.KnownBytes.{Appends, WriteAppends};
ghost use Rattle.campl_text.specs.Counts.{Rose};

use crate::reading::Failed;

/// A stream of bytes.
pub trait Sink {
    // The bytes written so far, where the sink tells them.
    ghost written: { Self → Option (List ℕ) };

    // The faults counted.
    ghost faults: { Self → ℕ };

    /// Writes bytes from the front of `piece`, and answers how many: at least one, unless the piece is empty.
    /// Where it fails, nothing was written of the piece as far as the sink tells.
    fn write(&mut self, piece: &[u8]) -> Result<usize, Failed>
        ensures within { IfOk result (λ n. n ≤ length piece.now) }
        ensures some { IfOk result (λ n. 0 < length piece.now → 0 < n) }
        ensures bytes { WriteAppends (written self.old) (written self.new) result piece.now }
        ensures failed { OnErr result (Rose (faults self.old) (faults self.new)) }
        ensures counts { faults self.old ≤ faults self.new };
}

/// A write failed after exactly the first `written` bytes went out.
#[derive(Clone, Copy, Debug, PartialEq, Eq)]
pub struct SinkFault {
    pub written: u64,
}

/// Writes all of `bytes`, in as many pieces as the sink takes. It takes no memory.
pub fn write_all_of<O: Sink>(sink: &mut O, bytes: &[u8]) -> Result<(), SinkFault>
    ensures ok { OnOk result (Appends (O.written sink.old) (O.written sink.new) bytes.now) }
    ensures rest { IfErr result (λ fault. fault.written < length bytes.now) }
    ensures front { IfErr result (λ fault. Appends (O.written sink.old) (O.written sink.new) (take fault.written bytes.now)) }
    ensures failed { OnErr result (Rose (O.faults sink.old) (O.faults sink.new)) }
    ensures counts { O.faults sink.old ≤ O.faults sink.new }
{
    let mut written = 0;
    while written < bytes.len() {
        match sink.write(&bytes[written..]) {
            Ok(count) => written += count,
            Err(Failed) => {
                return Err(SinkFault {
                    written: written as u64,
                });
            }
        }
    }
    Ok(())
}
