//! A sink over memory: it tells what was written, takes short pieces, fills up, and fails where it is told to.
ghost use Rattle.std.specs.Prelude.{◌≡◌, ◌-◌, ◌<◌, ◌≤◌, ◌↔◌, [], ◌∷◌, ◌++◌, Some, IfOk, OnOk, OnErr, IsErr, length, take};
ghost use Rattle.std.specs.Io.KnownBytes.{WriteAppends};
ghost use Rattle.campl_text.specs.Counts.{Rose, one_more};
ghost use Rattle.campl_text.specs.Taken.{Refuses, share_of};

use crate::reading::Failed;
use crate::writing::Sink;
use std::alloc::{AllocError, Global};
use std::marker::Model;

/// A sink over memory, with room for a number of bytes. Contracts see a record: `bytes`, `room`, `most`,
/// `failing`, `writes` and `faults`.
#[derive(Debug, Drop)]
pub struct MemSink {
    bytes: Vec<u8>,
    room: u32,
    most: u32,
    failing: Vec<u64>,
    writes: u64,
    faults: u64,
}

impl Model for MemSink {
    ghost use Rattle.std.specs.Prelude.{◌+◌, ◌≤◌, vec_len, vec_capacity};
    ghost use Rattle.campl_text.specs.Taken.{Taken};

    ghost Value = { Taken };

    ghost view = { λ s. record {
      bytes = s.bytes.items;
      room = s.room;
      most = s.most;
      failing = s.failing.items;
      writes = s.writes;
      faults = s.faults;
    } };

    ghost invariant = { λ s. (vec_len s.bytes + s.room ≤ vec_capacity s.bytes) × (1 ≤ s.most) };
}

impl MemSink {
    /// An empty sink that takes `room` bytes in all, and at most `most` of them in one write.
    pub fn with_room(alloc: Global, room: u32, most: u32) -> Result<MemSink, AllocError>
        requires { 1 ≤ most }
        ensures { IfOk result (λ sink. sink ≡ record { bytes = []; room = room; most = most; failing = []; writes = 0; faults = 0 }) }
    {
        Ok(MemSink {
            bytes: Vec::with_capacity(alloc, room as usize)?,
            room,
            most,
            failing: Vec::new(alloc),
            writes: 0,
            faults: 0,
        })
    }

    /// Has the write with the number `call` fail. Writes are counted from 1.
    pub fn fail_at(&mut self, call: u32) -> Result<(), AllocError>
        ensures ok { OnOk result (self.new ≡ record self.old { failing = self.old.failing ++ call ∷ [] }) }
        ensures err { OnErr result (self.new ≡ self.old) }
    {
        self.failing.push(u64::from(call))?;
        Ok(())
    }

    /// What was written.
    pub fn bytes(&self) -> &[u8]
        ensures { result.now ≡ self.now.bytes }
    {
        &self.bytes
    }
}

impl Sink for MemSink {
    ghost written = { λ s. Some s.bytes };

    ghost faults = { λ s. s.faults };

    /// Takes the least of the piece's length, `most` and the room left.
    fn write(&mut self, piece: &[u8]) -> Result<usize, Failed>
        ensures fails { IsErr result ↔ Refuses self.old piece.now }
        ensures share { IfOk result (λ n. n ≡ share_of self.old piece.now) }
        ensures some { IfOk result (λ n. 0 < length piece.now → 0 < n) }
        ensures ok { IfOk result (λ n. self.new ≡ record self.old {
          bytes = self.old.bytes ++ take n piece.now;
          room = self.old.room - n;
          writes = one_more self.old.writes;
        }) }
        ensures err { OnErr result (self.new ≡ record self.old {
          writes = one_more self.old.writes;
          faults = one_more self.old.faults;
        }) }
        ensures counts { self.old.faults ≤ self.new.faults }
    {
        self.writes = self.writes.saturating_add(1);
        if self.failing.contains(&self.writes) || (self.room == 0 && !piece.is_empty()) {
            self.faults = self.faults.saturating_add(1);
            return Err(Failed);
        }
        let share = piece.len().min(self.most as usize).min(self.room as usize);
        self.bytes.extend_from_slice(&piece[..share]).unwrap();
        self.room -= share as u32;
        Ok(share)
    }
}
