//! What a process or service does next, seen without making ready for it. Nothing here takes memory.
ghost use Rattle.std.specs.Prelude.{◌≡◌, ℕ, Bool, true, Option, Some, None, if◌then◌else◌, option_map};
ghost use Rattle.campl_service.specs.Services.{action};
ghost use Rattle.campl_eval.specs.View.{code_of};
ghost use Rattle.campl_cells.specs.Parts.{Tip, or_bare};
ghost use Rattle.campl_cells.specs.Wants.{Drawn as Numbers, hears, says};
ghost use Rattle.campl_cells.specs.Steps.{by_want, links_at, looks_in};
ghost use Rattle.campl_kept.specs.View.{view_kept};
ghost use Rattle.campl_parts.specs.Tables.{tips};
ghost use Rattle.campl_parts.specs.Views.{kind_of, life_of, proc_of};
ghost use Rattle.campl_parts.specs.Wanted.{look_of, want_of};
ghost use Rattle.campl_steps.specs.Configs.{parts};
ghost use Rattle.campl_steps.specs.Outlook.{IsFirstKind, IsNext, IsNextOf, kind_by, kind_in, stopped, stopped_kept, stopped_serving};

use crate::config::Config;
use crate::suiting::{fits, takes};
use crate::watch::{NONE_DRAWN, last_branch};
use campl_kept::Kept;
use campl_parts::{Kind, Life, Look, ProcPart, Want, peer};
use campl_program::Program;
use campl_service::{Service, Want as Waits};

/// What a process or service does next.
#[derive(Clone, Copy, Debug)]
pub enum Next {
    /// It has a step of this kind. A race has that of its first branch that is ready.
    Step(Kind),
    /// It has no step as things stand.
    Waits,
    /// It is gone, or a service that is closed.
    Ended,
    /// An expression of its broke.
    Broken,
}

impl Config {
    /// What a process or service does next, and `Ended` where none has this number.
    pub fn next_of(&self, program: &Program, number: u32) -> Next
        ensures { IsNext (code_of program.now) (parts self.now) number result }
    {
        match self.processes.get(number as usize) {
            None => Next::Ended,
            Some(part) => self.next_for(program, part),
        }
    }

    fn next_for(&self, program: &Program, part: &ProcPart) -> Next
        ensures { (p : ℕ) → IsNextOf (code_of program.now) (parts self.now) p (proc_of part.now) result }
    {
        match stopped(&part.life) {
            Some(next) => next,
            None => self.next_at(program, part),
        }
    }

    // Of who isn't stopped.
    fn next_at(&self, program: &Program, part: &ProcPart) -> Next
        requires { stopped (life_of part.now.life) ≡ None }
        ensures { (p : ℕ) → IsNextOf (code_of program.now) (parts self.now) p (proc_of part.now) result }
    {
        match self.first_kind(program, part) {
            Some(kind) => Next::Step(kind),
            None => Next::Waits,
        }
    }

    // The kind of the step of the first branch that has one.
    fn first_kind(&self, program: &Program, part: &ProcPart) -> Option<Kind>
        ensures { (d : Numbers) (p : ℕ) → IsFirstKind (kind_by (code_of program.now) (tips self.now.ends.items) d p (life_of part.now.life)) (option_map kind_of result) }
    {
        let last = last_branch(program, &part.life);
        let mut branch = 0;
        loop {
            match self.kind_by(program, part, branch) {
                Some(kind) => return Some(kind),
                None => {}
            }
            if last <= branch {
                return None;
            }
            branch += 1;
        }
    }

    // The kind of the step as a branch, where there is one.
    fn kind_by(&self, program: &Program, part: &ProcPart, branch: u32) -> Option<Kind>
        ensures { (d : Numbers) (p : ℕ) → option_map kind_of result ≡ kind_by (code_of program.now) (tips self.now.ends.items) d p (life_of part.now.life) branch }
    {
        self.kind_for(part.want(program, NONE_DRAWN, branch))
    }

    // The kind of the step of who wants this, where there is one.
    fn kind_for(&self, want: Want<'_>) -> Option<Kind>
        ensures { (d : Numbers) (p : ℕ) → option_map kind_of result ≡ kind_in (by_want (tips self.now.ends.items) d p (want_of want.entry)) }
    {
        match want {
            Want::Rests => None,
            Want::Moves { kind, .. } => Some(kind),
            Want::Looks {
                kind,
                end,
                look,
                ..
            } => self.kind_of_look(kind, end, &look),
            Want::Links { end, second } => self.kind_of_link(end, second),
            Want::Hears { kind, end, service } => self.kind_of_hearing(kind, end, service),
            Want::Says { service, .. } => kind_of_saying(service),
        }
    }

    fn kind_of_look(&self, kind: Kind, end: u32, look: &Look<'_>) -> Option<Kind>
        ensures { (takes : Bool) (p : ℕ) → option_map kind_of result
            ≡ kind_in (looks_in p (kind_of kind) takes end (look_of look.now) (or_bare (tips self.now.ends.items end)).peer (or_bare (tips self.now.ends.items end)).inbox) }
    {
        match self.first_at(end) {
            None => None,
            Some(message) => kept_if(fits(look, message), kind),
        }
    }

    fn kind_of_hearing(&self, kind: Kind, end: u32, service: &Service) -> Option<Kind>
        ensures { (p : ℕ) → option_map kind_of result
            ≡ kind_in (looks_in p (kind_of kind) true end (hears end service.now.serving) (or_bare (tips self.now.ends.items end)).peer (or_bare (tips self.now.ends.items end)).inbox) }
    {
        match self.first_at(end) {
            None => None,
            Some(message) => kept_if(takes(service, message), kind),
        }
    }

    fn kind_of_link(&self, end: u32, second: u32) -> Option<Kind>
        ensures { (p : ℕ) → option_map kind_of result
            ≡ kind_in (links_at (tips self.now.ends.items) p end second (or_bare (tips self.now.ends.items end)).peer (or_bare (tips self.now.ends.items second)).peer) }
    {
        let ends = self.ends.as_slice();
        let Some(first_peer) = peer(ends, end) else {
            return None;
        };
        let Some(_) = peer(ends, second) else {
            return None;
        };
        if end == second || first_peer == second {
            return None;
        }
        Some(Kind::Link)
    }
}

fn kept_if(test: bool, kind: Kind) -> Option<Kind>
    ensures { result ≡ (if test then Some kind else None) }
{
    if test { Some(kind) } else { None }
}

fn kind_of_saying(service: &Service) -> Option<Kind>
    ensures { (end : ℕ) (d : Numbers) (p : ℕ) (tip : ℕ → Option Tip) → option_map kind_of result ≡ kind_in (by_want tip d p (says end (action service.now.serving None))) }
{
    match service.wants() {
        Waits::Send => Some(Kind::ServeLine),
        Waits::Pick => None,
        Waits::Text => None,
        Waits::Spent => None,
        Waits::Closed => None,
    }
}

// What one is that never goes on.
fn stopped(life: &Life) -> Option<Next>
    ensures { result ≡ stopped (life_of life.now) }
{
    match life {
        Life::Ended => Some(Next::Ended),
        Life::Runs(running) => stopped_kept(&running.as_ref().kept),
        Life::Serves(_, service) => stopped_serving(service.as_ref().wants()),
    }
}

fn stopped_kept(kept: &Kept) -> Option<Next>
    ensures { result ≡ stopped_kept (view_kept kept.now) }
{
    match kept {
        Kept::Broken => Some(Next::Broken),
        Kept::AtCall(_) => None,
        Kept::Values { .. } => None,
    }
}

fn stopped_serving(want: Waits) -> Option<Next>
    ensures { result ≡ stopped_serving want }
{
    match want {
        Waits::Closed => Some(Next::Ended),
        Waits::Pick => None,
        Waits::Text => None,
        Waits::Send => None,
        Waits::Spent => None,
    }
}
