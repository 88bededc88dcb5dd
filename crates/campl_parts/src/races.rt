//! Races.
ghost use Rattle.std.specs.Prelude.{◌≡◌, Some, None, is_some, slice_get};
ghost use Rattle.campl_code.specs.Instructions as i;
ghost use Rattle.campl_code_bodies.specs.Bodies.{receives_at};
ghost use Rattle.campl_code_bodies.specs.Commands.{channel_at};
ghost use Rattle.campl_instructions.specs.View.{view_instr};
ghost use Rattle.campl_cells.specs.Wants as w;
ghost use Rattle.campl_cells.specs.Wants.{end_at};
ghost use Rattle.campl_parts.specs.Views.{held_of};
ghost use Rattle.campl_parts.specs.Wanted.{block_of, done_of, want_of};

use crate::entry::Kind;
use crate::want::{Look, Want};
use crate::wanting::Ready;
use campl_instructions::Instr;
use sqlite_items::at;

impl<'a> Ready<'a> {
    pub(crate) fn race(&self, targets: &'a [u32]) -> Want<'a>
        ensures { want_of result ≡ done_of self.now (i.Race targets.now) }
    {
        if !self.are_set(targets) {
            return Want::Rests;
        }
        match at(targets, self.branch as usize) {
            None => Want::Rests,
            Some(to) => self.choose(*to),
        }
    }

    // It goes on there, as its branch, where the channel has an end.
    fn choose(&self, to: u32) -> Want<'a>
        ensures { want_of result ≡ w.chooses (held_of self.now.running.now) (block_of self.now) self.now.variables.now self.now.branch (Some to) }
    {
        match self.end_at(to) {
            None => Want::Rests,
            Some(end) => Want::Looks {
                kind: Kind::Choose(self.branch),
                takes: false,
                end,
                look: Look::Chooses {
                    place: self.place(to as usize),
                },
            },
        }
    }

    fn are_set(&self, targets: &[u32]) -> bool
        ensures { result ≡ w.are_set (block_of self.now) (held_of self.now.running.now).ends targets.now }
    {
        for to in targets {
            if !self.is_set(*to) {
                return false;
            }
        }
        true
    }

    // Whether the channel that the instruction at a place waits on has an end.
    fn is_set(&self, to: u32) -> bool
        ensures { result ≡ is_some (end_at (held_of self.now.running.now).ends (channel_at (block_of self.now) to)) }
    {
        match self.end_at(to) {
            None => false,
            Some(_) => true,
        }
    }

    // The end of the channel that the instruction at a place waits on.
    fn end_at(&self, to: u32) -> Option<u32>
        ensures { result ≡ end_at (held_of self.now.running.now).ends (channel_at (block_of self.now) to) }
    {
        match self.channel_at(to) {
            None => None,
            Some(channel) => self.end(channel),
        }
    }

    fn channel_at(&self, to: u32) -> Option<u32>
        ensures { result ≡ channel_at (block_of self.now) to }
    {
        match self.program.instr(self.running.block, to as usize) {
            Some(instr) => awaited(instr),
            None => None,
        }
    }
}

// The channel that an instruction waits on, if it does.
fn awaited(instr: &Instr) -> Option<u32>
    ensures { result ≡ receives_at (Some (view_instr instr.now)) }
{
    match instr {
        Instr::Get(channel, _) => Some(*channel),
        Instr::Offer(channel, _) => Some(*channel),
        Instr::Split(channel, _, _) => Some(*channel),
        _ => None,
    }
}
