//! What a step comes to, made ready on copies, so that what comes after it hardly can fail.
ghost use Rattle.std.specs.Prelude.{◌≡◌, ◌<◌, ◌^◌, ℕ, Option, Some, None, IfOk, length, option_map, if◌then◌else◌, true};
ghost use Rattle.std.specs.Option.{option_copied};
ghost use Rattle.campl_eval.specs.View.{code_of};
ghost use Rattle.campl_cells.specs.Parts.{Proc, Tip, or_bare};
ghost use Rattle.campl_code.specs.Instructions.{Code};
ghost use Rattle.campl_steps.specs.declared.plan.Ready.TheVariants.{Still};
ghost use Rattle.campl_cells.specs.Wants as w;
ghost use Rattle.campl_cells.specs.Wants.{hears, says, wanted};
ghost use Rattle.campl_service.specs.Services.{action};
ghost use Rattle.campl_parts.specs.Tables.{procs, tips};
ghost use Rattle.campl_parts.specs.Views.{drawn_of, kind_of, life_of};
ghost use Rattle.campl_parts.specs.Wanted.{look_of, move_of, want_of};
ghost use Rattle.campl_steps.specs.Readiness.{IsReadyFor, count_of, first_at};

use crate::config::Config;
use crate::plan::{Borne, Ready};
use campl_parts::{Deed, Drawn, Kind, Look, Want, front, peer, suits};
use campl_program::Program;
use campl_service::{Service, Want as Waits};
use campl_value::Message;
use std::alloc::{AllocError, Global};

impl Config {
    // What the next step of a process or service comes to, as this branch if it is a race.
    pub(crate) fn ready(
        &self,
        alloc: Global,
        program: &Program,
        number: u32,
        branch: u32,
        drawn: Drawn,
    ) -> Result<Ready, AllocError>
        requires few { drawn.channel < 2 ^ 31 }
        requires few2 { drawn.channel2 < 2 ^ 31 }
        ensures none { procs self.now.processes.items number ≡ None → IfOk result (λ ready. ready ≡ Still) }
        ensures ready { (q : Proc) → procs self.now.processes.items number ≡ Some q
            → IfOk result (IsReadyFor (code_of program.now) (tips self.now.ends.items) (wanted (code_of program.now) (drawn_of drawn) q.life branch)) }
    {
        match self.processes.get(number as usize) {
            None => Ok(Ready::Still),
            Some(part) => self.ready_for(alloc, program, part.want(program, drawn, branch)),
        }
    }

    // What comes of a want.
    fn ready_for(
        &self,
        alloc: Global,
        program: &Program,
        want: Want<'_>,
    ) -> Result<Ready, AllocError>
        ensures { IfOk result (IsReadyFor (code_of program.now) (tips self.now.ends.items) (want_of want.entry)) }
    {
        match want {
            Want::Rests => Ok(Ready::Still),
            Want::Moves { kind, end, deed } => moves(alloc, program, kind, end, &deed),
            Want::Looks {
                kind,
                takes,
                end,
                look,
            } => self.looks(alloc, program, kind, takes, end, &look),
            Want::Links { end, second } => Ok(self.links(end, second)),
            Want::Hears { kind, end, service } => self.hears(alloc, kind, end, service),
            Want::Says { end, service } => says(end, service),
        }
    }

    // The message that can be taken at an end: the oldest, where the end has a peer.
    pub(crate) fn first_at(&self, end: u32) -> Option<&Message>
        ensures { option_copied result ≡ first_at (or_bare (tips self.now.ends.items end)).peer (or_bare (tips self.now.ends.items end)).inbox }
    {
        let ends = self.ends.as_slice();
        match peer(ends, end) {
            None => None,
            Some(_) => front(ends, end),
        }
    }

    // Of who waits for a message.
    fn looks(
        &self,
        alloc: Global,
        program: &Program,
        kind: Kind,
        takes: bool,
        end: u32,
        look: &Look<'_>,
    ) -> Result<Ready, AllocError>
        ensures { IfOk result (IsReadyFor (code_of program.now) (tips self.now.ends.items) (w.Looks (kind_of kind) takes end (look_of look.now))) }
    {
        let Some(message) = self.first_at(end) else {
            return Ok(Ready::Still);
        };
        let next = match look.plan(alloc, program, message) {
            Ok(Some(next)) => next,
            Ok(None) => return Ok(Ready::Still),
            Err(error) => return Err(error),
        };
        match told(takes, message) {
            Ok(told) => Ok(Ready::Looks {
                kind,
                takes,
                end,
                told,
                next,
            }),
            Err(error) => Err(error),
        }
    }

    // Of an identity of two ends.
    fn links(&self, end: u32, second: u32) -> Ready
        ensures { (code : Code) → IsReadyFor code (tips self.now.ends.items) (w.Links end second) result }
    {
        let ends = self.ends.as_slice();
        let Some(first_peer) = peer(ends, end) else {
            return Ready::Still;
        };
        let Some(second_peer) = peer(ends, second) else {
            return Ready::Still;
        };
        if end == second || first_peer == second {
            return Ready::Still;
        }
        Ready::Links {
            end,
            second,
            first_peer,
            second_peer,
        }
    }

    // Of a service that waits for a message.
    fn hears(
        &self,
        alloc: Global,
        kind: Kind,
        end: u32,
        service: &Service,
    ) -> Result<Ready, AllocError>
        ensures { (code : Code) → IfOk result (IsReadyFor code (tips self.now.ends.items) (w.Looks (kind_of kind) true end (hears end service.now.serving))) }
    {
        let Some(message) = self.first_at(end) else {
            return Ok(Ready::Still);
        };
        match suits(alloc, service, message) {
            Ok(true) => {}
            Ok(false) => return Ok(Ready::Still),
            Err(error) => return Err(error),
        }
        let told = match message.copy() {
            Ok(told) => told,
            Err(error) => return Err(error),
        };
        match message.copy() {
            Ok(message) => Ok(Ready::Hears {
                kind,
                end,
                told,
                message,
            }),
            Err(error) => Err(error),
        }
    }
}

// Of who waits for nothing.
fn moves(
    alloc: Global,
    program: &Program,
    kind: Kind,
    end: Option<u32>,
    deed: &Deed<'_>,
) -> Result<Ready, AllocError>
    ensures { (tip : ℕ → Option Tip) → IfOk result (IsReadyFor (code_of program.now) tip (w.Moves (kind_of kind) end (move_of deed.now))) }
{
    let planned = match deed.plan(alloc, program) {
        Ok(planned) => planned,
        Err(error) => return Err(error),
    };
    match sent(&planned.send) {
        Ok(told) => Ok(Ready::Moves {
            kind,
            end,
            borne: borne(deed),
            told,
            planned,
        }),
        Err(error) => Err(error),
    }
}

// Of a service that is to send a line.
fn says(end: u32, service: &Service) -> Result<Ready, AllocError>
    ensures { (code : Code) (tip : ℕ → Option Tip) → IfOk result (IsReadyFor code tip (says end (action service.now.serving None))) }
{
    match service.wants() {
        Waits::Send => {}
        Waits::Pick | Waits::Text | Waits::Spent | Waits::Closed => return Ok(Ready::Still),
    }
    match service.next_line() {
        Ok(Some(line)) => Ok(Ready::Says {
            end,
            told: Message::Word(line),
        }),
        Ok(None) => Ok(Ready::Still),
        Err(error) => Err(error),
    }
}

// A copy of the message of who takes it.
fn told(takes: bool, message: &Message) -> Result<Option<Message>, AllocError>
    ensures { IfOk result (λ told. told ≡ (if takes then Some message.now else None)) }
{
    if !takes {
        return Ok(None);
    }
    match message.copy() {
        Ok(message) => Ok(Some(message)),
        Err(error) => Err(error),
    }
}

// A copy of the message that is sent.
fn sent(send: &Option<(u32, Message)>) -> Result<Option<Message>, AllocError>
    ensures { IfOk result (λ told. told ≡ option_map (λ s. s.1) send.now) }
{
    match send {
        None => Ok(None),
        Some((_, message)) => match message.copy() {
            Ok(message) => Ok(Some(message)),
            Err(error) => Err(error),
        },
    }
}

// How many channels a deed bears.
fn borne(deed: &Deed<'_>) -> Borne
    ensures { length (move_of deed.now).channels ≡ count_of result }
{
    match deed {
        Deed::Forks { .. } => Borne::Two,
        Deed::Peels { .. } => Borne::One,
        Deed::Spends(_)
        | Deed::Ends
        | Deed::Goes(_)
        | Deed::Cases { .. }
        | Deed::Calls { .. }
        | Deed::Sends { .. } => Borne::None,
    }
}
