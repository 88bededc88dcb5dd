//! A sink over a writer of the system. It tells nothing of what was written.
ghost use Rattle.std.specs.Prelude.{◌≡◌, ◌<◌, ◌≤◌, IfSome, length};

use crate::reading::Failed;
use crate::writing::Sink;
use std::io::Write;
use std::marker::Model;

/// A sink that writes to `writer`, and flushes after each write. A write that takes nothing of a piece and a
/// failed flush are faults too. Contracts see its count of faults.
#[derive(Drop)]
pub struct StdSink<W: Write + Drop> {
    writer: W,
    faults: u64,
}

impl<W: Write + Drop> Model for StdSink<W> {
    ghost use Rattle.std.specs.Prelude.{ℕ};

    ghost Value = { ℕ };

    ghost view = { λ s. s.faults };
}

impl<W: Write + Drop> StdSink<W> {
    pub fn new(writer: W) -> StdSink<W>
        ensures { result ≡ 0 }
    {
        StdSink { writer, faults: 0 }
    }
}

impl<W: Write + Drop> Sink for StdSink<W> {
    ghost use Rattle.std.specs.Prelude.{None};

    ghost written = { λ _. None };

    ghost faults = { λ s. s };

    fn write(&mut self, piece: &[u8]) -> Result<usize, Failed> {
        match write_through(&mut self.writer, piece) {
            Some(count) => Ok(count),
            None => {
                self.faults = self.faults.saturating_add(1);
                Err(Failed)
            }
        }
    }
}

// How many bytes of the piece were written and flushed, and `None` where that failed.
fn write_through<W: Write>(writer: &mut W, piece: &[u8]) -> Option<usize>
    ensures within { IfSome result (λ n. n ≤ length piece.now) }
    ensures some { IfSome result (λ n. 0 < length piece.now → 0 < n) }
{
    let count = writer.write(piece).ok()?;
    if count == 0 && !piece.is_empty() {
        return None;
    }
    writer.flush().ok()?;
    Some(count)
}
