//! What a process does next, read off its part.
ghost use Rattle.std.specs.Prelude.{◌≡◌, ◌+◌, ◌<◌, ◌^◌, Some, None, MatchOption, is_some, length, option_map, slice_get};
ghost use Rattle.campl_code.specs.Instructions as i;
ghost use Rattle.campl_code.specs.Instructions.{blocks};
ghost use Rattle.campl_instructions.specs.View.{view_instr};
ghost use Rattle.campl_meaning.specs.States as k;
ghost use Rattle.campl_value.specs.declared.message.Message.TheVariants.{Word};
ghost use Rattle.campl_cells.specs.Parts.{Runs};
ghost use Rattle.campl_cells.specs.Wants as w;
ghost use Rattle.campl_cells.specs.Wants.{Links, at_instruction, end_at, onward, quiet, sends, start_at, wanted, with_found, with_one};
ghost use Rattle.campl_parts.specs.Ends.{ends_of};
ghost use Rattle.campl_eval.specs.View.{code_of};
ghost use Rattle.campl_parts.specs.Views.{drawn_of, held_of};
ghost use Rattle.campl_parts.specs.Wanted.{all_there, or_none, block_of, done_of, row_vars, start_of, want_of};

use crate::entry::Kind;
use crate::part::{Drawn, Running};
use crate::place::Place;
use crate::want::{Channel, Deed, Look, Sent, Want};
use campl_instructions::Instr;
use campl_kept::Kept;
use campl_operands::Variables;
use campl_program::Program;
use campl_tree::Side;
use campl_value::Value;

/// A process at its instruction, with its variables and the values of the instruction's expressions.
#[derive(Clone, Copy)]
pub struct Ready<'a> {
    pub program: &'a Program,
    pub running: &'a Running,
    pub drawn: Drawn,
    pub branch: u32,
    pub at: usize,
    pub variables: &'a Variables,
    pub values: &'a [Value],
}

impl Running {
    /// What the process does next, as this branch if it is a race. What it may bear gets the numbers that are drawn. It takes no
    /// memory.
    pub fn want<'a>(&'a self, program: &'a Program, drawn: Drawn, branch: u32) -> Want<'a>
        requires few { drawn.channel < 2 ^ 31 }
        requires few2 { drawn.channel2 < 2 ^ 31 }
        ensures { want_of result ≡ wanted (code_of program.now) (drawn_of drawn) (Runs (held_of self.now)) branch }
    {
        match &self.kept {
            Kept::Broken => Want::Rests,
            Kept::AtCall(_) => Want::Moves {
                kind: Kind::Work,
                end: None,
                deed: Deed::Spends(self),
            },
            Kept::Values {
                at,
                variables,
                values,
            } => {
                let ready = Ready {
                    program,
                    running: self,
                    drawn,
                    branch,
                    at: *at,
                    variables,
                    values: values.as_slice(),
                };
                ready.want()
            }
        }
    }
}

impl<'a> Ready<'a> {
    // What the instruction in its place is for it.
    fn want(&self) -> Want<'a>
        requires few { self.now.drawn.channel < 2 ^ 31 }
        requires few2 { self.now.drawn.channel2 < 2 ^ 31 }
        ensures { want_of result ≡ at_instruction (code_of self.now.program.now) (drawn_of self.now.drawn) (held_of self.now.running.now) (block_of self.now) self.now.branch self.now.at self.now.variables.now self.now.values.now (slice_get (block_of self.now) self.now.at) }
    {
        match self.program.instr(self.running.block, self.at) {
            None => Want::Rests,
            Some(instr) => self.does(instr),
        }
    }

    // What an instruction is for it.
    fn does(&self, instr: &'a Instr) -> Want<'a>
        requires place { self.now.at + 1 < 2 ^ 64 }
        requires few { self.now.drawn.channel < 2 ^ 31 }
        requires few2 { self.now.drawn.channel2 < 2 ^ 31 }
        ensures { want_of result ≡ done_of self.now (view_instr instr.now) }
    {
        match instr {
            Instr::Put(channel) => self.put(*channel),
            Instr::Get(channel, variable) => self.get(*channel, *variable),
            Instr::Pick(channel, number) => self.pick(*channel, *number),
            Instr::Split(channel, left, right) => self.split(*channel, *left, *right),
            Instr::Close(channel) => self.close(*channel),
            Instr::Halt(channel) => self.halt(*channel),
            Instr::Offer(channel, targets) => self.offer(*channel, targets.as_slice()),
            Instr::Fork(channel, own, its, to) => self.fork(*channel, *own, *its, *to),
            Instr::Peel(held, side, to) => self.peel(*held, *side, *to),
            Instr::Race(targets) => self.race(targets.as_slice()),
            Instr::Case(decision, first, targets) => {
                self.case(*decision, *first, targets.as_slice())
            }
            Instr::Link(first, second) => self.link(*first, *second),
            Instr::LinkNeg(first, second) => self.link(*first, *second),
            Instr::Go(process, channels) => self.go(*process, channels.as_slice()),
            Instr::Int(_) => Want::Rests,
            Instr::Char(_) => Want::Rests,
            Instr::Truth(_) => Want::Rests,
            Instr::Nil => Want::Rests,
            Instr::Text(_) => Want::Rests,
            Instr::Load(_) => Want::Rests,
            Instr::Cons => Want::Rests,
            Instr::Pair => Want::Rests,
            Instr::Build(_, _) => Want::Rests,
            Instr::Op(_) => Want::Rests,
            Instr::Jump(_) => Want::Rests,
            Instr::Unless(_) => Want::Rests,
            Instr::Call(_) => Want::Rests,
            Instr::Match(_, _, _) => Want::Rests,
            Instr::Return => Want::Rests,
        }
    }

    // Another place of its block.
    pub(crate) fn place(&self, at: usize) -> Place<'a>
        ensures { start_of result ≡ start_at (held_of self.now.running.now) at self.now.variables.now (ends_of self.now.running.now.ends) }
    {
        Place {
            block: self.running.block,
            at,
            variables: self.variables,
            ends: &self.running.ends,
        }
    }

    // The end of a channel that it holds.
    pub(crate) fn end(&self, channel: u32) -> Option<u32>
        ensures { result ≡ (held_of self.now.running.now).ends channel }
    {
        self.running.ends.get(channel)
    }

    fn put(&self, channel: u32) -> Want<'a>
        requires { self.now.at + 1 < 2 ^ 64 }
        ensures { want_of result ≡ done_of self.now (i.Put channel) }
    {
        match self.end(channel) {
            None => Want::Rests,
            Some(end) => self.put_on(end),
        }
    }

    fn put_on(&self, end: u32) -> Want<'a>
        requires { self.now.at + 1 < 2 ^ 64 }
        ensures { want_of result ≡ with_one self.now.values.now (λ v. sends k.Put end (Word v) (onward (held_of self.now.running.now) (self.now.at + 1) self.now.variables.now (ends_of self.now.running.now.ends))) }
    {
        match self.values {
            [value] => Want::Moves {
                kind: Kind::Put,
                end: Some(end),
                deed: Deed::Sends {
                    end,
                    message: Sent::Word(value),
                    place: self.place(self.at + 1),
                },
            },
            _ => Want::Rests,
        }
    }

    fn get(&self, channel: u32, variable: u32) -> Want<'a>
        requires { self.now.at + 1 < 2 ^ 64 }
        ensures { want_of result ≡ done_of self.now (i.Get channel variable) }
    {
        match self.end(channel) {
            None => Want::Rests,
            Some(end) => Want::Looks {
                kind: Kind::Get,
                takes: true,
                end,
                look: Look::Gets {
                    variable,
                    place: self.place(self.at + 1),
                },
            },
        }
    }

    fn pick(&self, channel: u32, number: u32) -> Want<'a>
        requires { self.now.at + 1 < 2 ^ 64 }
        ensures { want_of result ≡ done_of self.now (i.Pick channel number) }
    {
        match self.end(channel) {
            None => Want::Rests,
            Some(end) => Want::Moves {
                kind: Kind::Pick,
                end: Some(end),
                deed: Deed::Sends {
                    end,
                    message: Sent::Pick(number),
                    place: self.place(self.at + 1),
                },
            },
        }
    }

    fn split(&self, channel: u32, left: u32, right: u32) -> Want<'a>
        requires { self.now.at + 1 < 2 ^ 64 }
        ensures { want_of result ≡ done_of self.now (i.Split channel left right) }
    {
        match self.end(channel) {
            None => Want::Rests,
            Some(end) => Want::Looks {
                kind: Kind::Split,
                takes: true,
                end,
                look: Look::Splits {
                    left,
                    right,
                    place: self.place(self.at + 1),
                },
            },
        }
    }

    fn close(&self, channel: u32) -> Want<'a>
        requires { self.now.at + 1 < 2 ^ 64 }
        ensures { want_of result ≡ done_of self.now (i.Close channel) }
    {
        match self.end(channel) {
            None => Want::Rests,
            Some(end) => Want::Moves {
                kind: Kind::Close,
                end: Some(end),
                deed: Deed::Goes(self.place(self.at + 1)),
            },
        }
    }

    fn halt(&self, channel: Option<u32>) -> Want<'a>
        ensures { want_of result ≡ done_of self.now (i.Halt channel) }
    {
        match channel {
            None => Want::Moves {
                kind: Kind::Halt,
                end: None,
                deed: Deed::Ends,
            },
            Some(channel) => self.halt_with(channel),
        }
    }

    fn halt_with(&self, channel: u32) -> Want<'a>
        ensures { want_of result ≡ with_found ((held_of self.now.running.now).ends channel) (λ e. quiet k.Halt (Some e) w.Gone) }
    {
        match self.end(channel) {
            None => Want::Rests,
            Some(end) => Want::Moves {
                kind: Kind::Halt,
                end: Some(end),
                deed: Deed::Ends,
            },
        }
    }

    fn offer(&self, channel: u32, targets: &'a [u32]) -> Want<'a>
        ensures { want_of result ≡ done_of self.now (i.Offer channel targets.now) }
    {
        match self.end(channel) {
            None => Want::Rests,
            Some(end) => Want::Looks {
                kind: Kind::Offer,
                takes: true,
                end,
                look: Look::Offers {
                    targets,
                    place: self.place(self.at),
                },
            },
        }
    }

    fn fork(&self, channel: u32, own: u32, its: u32, to: u32) -> Want<'a>
        requires place { self.now.at + 1 < 2 ^ 64 }
        requires few { self.now.drawn.channel < 2 ^ 31 }
        requires few2 { self.now.drawn.channel2 < 2 ^ 31 }
        ensures { want_of result ≡ done_of self.now (i.Fork channel own its to) }
    {
        match self.end(channel) {
            None => Want::Rests,
            Some(end) => Want::Moves {
                kind: Kind::Fork,
                end: Some(end),
                deed: Deed::Forks {
                    end,
                    own,
                    its,
                    to,
                    channel: Channel::of(self.drawn.channel),
                    channel2: Channel::of(self.drawn.channel2),
                    place: self.place(self.at + 1),
                },
            },
        }
    }

    fn peel(&self, held: u32, side: Side, to: u32) -> Want<'a>
        requires place { self.now.at + 1 < 2 ^ 64 }
        requires few { self.now.drawn.channel < 2 ^ 31 }
        ensures { want_of result ≡ done_of self.now (i.Peel held side to) }
    {
        let channel = Channel::of(self.drawn.channel);
        Want::Moves {
            kind: Kind::Peel,
            end: None,
            deed: Deed::Peels {
                held,
                own: channel.end_on(side.other()),
                its: channel.end_on(side),
                to,
                channel: self.drawn.channel,
                place: self.place(self.at + 1),
            },
        }
    }

    fn link(&self, first: u32, second: u32) -> Want<'a>
        ensures { want_of result ≡ with_found ((held_of self.now.running.now).ends first) (λ e. with_found ((held_of self.now.running.now).ends second) (λ f. Links e f)) }
    {
        match self.end(first) {
            None => Want::Rests,
            Some(end) => match self.end(second) {
                None => Want::Rests,
                Some(second) => Want::Links { end, second },
            },
        }
    }

    fn go(&self, process: u32, channels: &'a [u32]) -> Want<'a>
        ensures { want_of result ≡ done_of self.now (i.Go process channels.now) }
    {
        let Some((parameters, size)) = self.program.process_entry(process) else {
            return Want::Rests;
        };
        let functions = self.program.raw().functions.as_slice();
        Want::Moves {
            kind: Kind::Call,
            end: None,
            deed: Deed::Calls {
                block: functions.len() + process as usize,
                missing: size.saturating_sub(parameters as usize),
                values: self.values,
                channels,
                ends: &self.running.ends,
            },
        }
    }
}
