//! Steps of processes in place: of a command whose expressions are evaluated, where the next one is reached straight. Nothing is made
//! ready on copies then but that next command.
ghost use Rattle.std.specs.Prelude.{◌≡◌, ◌<◌, ◌≤◌, ◌+◌, ◌^◌, ℕ, [], ◌∷◌, Some, None, IfSome, MatchOption, vec_len};
ghost use Rattle.campl_value.specs.declared.message.Message.TheVariants.{Pick, Word};
ghost use Rattle.campl_code.specs.Instructions as i;
ghost use Rattle.campl_code_bodies.specs.Kept.{Values};
ghost use Rattle.campl_instructions.specs.View.{view_instr};
ghost use Rattle.campl_cells.specs.Parts.{owner};
ghost use Rattle.campl_cells.specs.Steps.{sent};
ghost use Rattle.campl_eval.specs.View.{code_of};
ghost use Rattle.campl_parts.specs.declared.journal.Brief.TheVariants as b;
ghost use Rattle.campl_parts.specs.Journal.{brief_entry, weight_of};
ghost use Rattle.campl_parts.specs.Standing.{kept_by, reached_kept, turned};
ghost use Rattle.campl_parts.specs.Tables.{IsThere, procs, tips};
ghost use Rattle.campl_parts.specs.Views.{held_of};
ghost use Rattle.campl_steps.specs.Doing.{taken};
ghost use Rattle.campl_steps.specs.InPlace.{IsAt, StandsAt, Tries, Went, pick_in, word_in};
ghost use Rattle.campl_steps.specs.Readiness.{first_in};

use crate::config::Config;
use crate::made::Changed;
use crate::numbers::MOST_STEPS;
use campl_instructions::Instr;
use campl_kept::Reached;
use campl_operands::Variables;
use campl_parts::{
    Brief, Journal, Running, Standing, arrive, owner, reach, reach_with, take, turn_into,
};
use campl_program::Program;
use campl_value::{Message, Value};
use sqlite_items::at as item_at;
use std::alloc::Global;

/// What came of trying a step in place.
#[derive(Clone, Copy, Debug)]
pub enum Tried {
    /// A step, whose entry is in the journal; something changed at these ends.
    Made(Changed),
    /// There is no step.
    Still,
    OutOfMemory,
    /// It isn't done in place.
    Otherwise,
}

impl Config {
    /// Tries the step of a process or service in place, and tells it in the journal. It is tried where the expressions of the
    /// process's command are evaluated, where its next command is reached straight, and where it bears nothing.
    pub fn step_in_place(
        &mut self,
        alloc: Global,
        program: &Program,
        number: u32,
        journal: &mut Journal,
    ) -> Tried
        requires room { 1 ≤ journal.old.spare }
        requires within { weight_of journal.old.entries + 1 < 2 ^ 64 }
        ensures { (i : ℕ) → Tries (code_of program.now) number i self.old self.new journal.old journal.new result }
    {
        match self.command(program, number) {
            None => Tried::Otherwise,
            Some(instr) => self.step_at(alloc, program, number, instr, journal),
        }
    }

    // The instruction of a process's command, if its expressions are evaluated, and it made few steps.
    #[inline]
    fn command<'p>(&self, program: &'p Program, number: u32) -> Option<&'p Instr>
        ensures { IfSome result (λ x. IsAt (code_of program.now) self.now number (view_instr x.now)) }
    {
        if MOST_STEPS <= self.steps(number) {
            return None;
        }
        match self.standing(number) {
            None => None,
            Some(standing) => standing.instr(program),
        }
    }

    // Where a process stands, if its expressions are evaluated.
    #[inline]
    fn standing(&self, number: u32) -> Option<Standing<'_>>
        ensures { IfSome result (StandsAt self.now number) }
    {
        match self.processes.get(number as usize) {
            None => None,
            Some(part) => part.standing(),
        }
    }

    // Tries the step of a process at this command in place. It is no race.
    fn step_at(
        &mut self,
        alloc: Global,
        program: &Program,
        number: u32,
        instr: &Instr,
        journal: &mut Journal,
    ) -> Tried
        requires at { IsAt (code_of program.now) self.old number (view_instr instr.now) }
        requires room { 1 ≤ journal.old.spare }
        requires within { weight_of journal.old.entries + 1 < 2 ^ 64 }
        ensures { (i : ℕ) → Tries (code_of program.now) number i self.old self.new journal.old journal.new result }
    {
        match instr {
            Instr::Put(channel) => self.put(alloc, program, number, *channel, journal),
            Instr::Pick(channel, constructor) => {
                self.pick(alloc, program, number, *channel, *constructor, journal)
            }
            Instr::Get(channel, variable) => self.get(
                alloc, program, number, *channel, *variable, journal,
            ),
            Instr::Offer(channel, targets) => {
                self.offer(
                    alloc,
                    program,
                    number,
                    *channel,
                    targets.as_slice(),
                    journal,
                )
            }
            Instr::Case(decision, first, targets) => {
                self.case(
                    alloc,
                    program,
                    number,
                    *decision,
                    *first,
                    targets.as_slice(),
                    journal,
                )
            }
            Instr::Go(process, channels) => {
                self.enter(
                    alloc,
                    program,
                    number,
                    *process,
                    channels.as_slice(),
                    journal,
                )
            }
            _ => Tried::Otherwise,
        }
    }

    fn put(
        &mut self,
        alloc: Global,
        program: &Program,
        number: u32,
        channel: u32,
        journal: &mut Journal,
    ) -> Tried
        requires at { IsAt (code_of program.now) self.old number (i.Put channel) }
        requires room { 1 ≤ journal.old.spare }
        requires within { weight_of journal.old.entries + 1 < 2 ^ 64 }
        ensures { (i : ℕ) → Tries (code_of program.now) number i self.old self.new journal.old journal.new result }
    {
        let Some(standing) = self.standing(number) else {
            return Tried::Otherwise;
        };
        let Some(end) = standing.running.ends.get(channel) else {
            return Tried::Otherwise;
        };
        let Some(value) = only(standing.values) else {
            return Tried::Otherwise;
        };
        let Ok(message) = value.copy() else {
            return Tried::OutOfMemory;
        };
        let Ok(told) = value.copy() else {
            return Tried::OutOfMemory;
        };
        let Some(next) = standing.at.checked_add(1) else {
            return Tried::Otherwise;
        };
        let (message, told) = (Message::Word(message), Brief::Put(end, told));
        match standing.onward(alloc, program, next, standing.variables) {
            Ok(Some(reached)) => self.send(number, end, message, told, reached, journal),
            Ok(None) => Tried::Otherwise,
            Err(_) => Tried::OutOfMemory,
        }
    }

    fn pick(
        &mut self,
        alloc: Global,
        program: &Program,
        number: u32,
        channel: u32,
        constructor: u32,
        journal: &mut Journal,
    ) -> Tried
        requires at { IsAt (code_of program.now) self.old number (i.Pick channel constructor) }
        requires room { 1 ≤ journal.old.spare }
        requires within { weight_of journal.old.entries + 1 < 2 ^ 64 }
        ensures { (i : ℕ) → Tries (code_of program.now) number i self.old self.new journal.old journal.new result }
    {
        let Some(standing) = self.standing(number) else {
            return Tried::Otherwise;
        };
        let Some(end) = standing.running.ends.get(channel) else {
            return Tried::Otherwise;
        };
        let Some(next) = standing.at.checked_add(1) else {
            return Tried::Otherwise;
        };
        let (message, told) = (Message::Pick(constructor), Brief::Pick(end, constructor));
        match standing.onward(alloc, program, next, standing.variables) {
            Ok(Some(reached)) => self.send(number, end, message, told, reached, journal),
            Ok(None) => Tried::Otherwise,
            Err(_) => Tried::OutOfMemory,
        }
    }

    // Sends a message on an end, and tells it; the process goes on at the command that it reached.
    #[inline]
    fn send(
        &mut self,
        number: u32,
        end: u32,
        message: Message,
        told: Brief,
        reached: Reached,
        journal: &mut Journal,
    ) -> Tried
        requires there { IsThere (procs self.old.processes.items number) }
        requires room { 1 ≤ journal.old.spare }
        requires within { weight_of journal.old.entries + 1 < 2 ^ 64 }
        ensures { Went self.old self.new number (kept_by (reached_kept reached.at reached.values.items)) (brief_entry number told)
            (owner (tips self.old.ends.items) end ∷ []) (sent (Some (end, message)) (tips self.old.ends.items)) journal.old journal.new result }
    {
        let to = owner(self.ends.as_slice(), end);
        if self.ends.len() <= to as usize {
            return Tried::Otherwise;
        }
        match self.make_room_behind(end) {
            Err(_) => return Tried::OutOfMemory,
            Ok(()) => {}
        }
        arrive(&mut self.ends, to, message);
        reach(&mut self.processes, number, reached);
        journal.note(number, told);
        Tried::Made(Changed::One(to))
    }

    fn get(
        &mut self,
        alloc: Global,
        program: &Program,
        number: u32,
        channel: u32,
        variable: u32,
        journal: &mut Journal,
    ) -> Tried
        requires at { IsAt (code_of program.now) self.old number (i.Get channel variable) }
        requires room { 1 ≤ journal.old.spare }
        requires within { weight_of journal.old.entries + 1 < 2 ^ 64 }
        ensures { (i : ℕ) → Tries (code_of program.now) number i self.old self.new journal.old journal.new result }
    {
        let Some(standing) = self.standing(number) else {
            return Tried::Otherwise;
        };
        let Some(end) = standing.running.ends.get(channel) else {
            return Tried::Otherwise;
        };
        let Some(value) = self.word_at(end) else {
            return Tried::Still;
        };
        let Some(next) = standing.at.checked_add(1) else {
            return Tried::Otherwise;
        };
        let Ok(told) = value.copy() else {
            return Tried::OutOfMemory;
        };
        let Ok(variables) = standing.with(alloc, variable, value) else {
            return Tried::OutOfMemory;
        };
        match standing.onward(alloc, program, next, &variables) {
            Ok(Some(reached)) => self.take_word(number, end, told, variables, reached, journal),
            Ok(None) => Tried::Otherwise,
            Err(_) => Tried::OutOfMemory,
        }
    }

    // The value that can be taken at an end.
    #[inline]
    fn word_at(&self, end: u32) -> Option<&Value>
        ensures { MatchOption result (word_in (first_in (tips self.now.ends.items) end) ≡ None) (λ value. first_in (tips self.now.ends.items) end ≡ Some (Word value.now)) }
    {
        match self.first_at(end) {
            Some(Message::Word(value)) => Some(value),
            Some(Message::Pick(_)) => None,
            Some(Message::Ends(_, _)) => None,
            None => None,
        }
    }

    // Takes a value off an end, and tells it; the process goes on with these variables at the command that it reached.
    #[inline]
    fn take_word(
        &mut self,
        number: u32,
        end: u32,
        told: Value,
        variables: Variables,
        reached: Reached,
        journal: &mut Journal,
    ) -> Tried
        requires there { IsThere (procs self.old.processes.items number) }
        requires room { 1 ≤ journal.old.spare }
        requires within { weight_of journal.old.entries + 1 < 2 ^ 64 }
        ensures { Went self.old self.new number (kept_by (λ kept. Values reached.at variables reached.values.items)) (brief_entry number (b.Get end told))
            (end ∷ []) (taken (tips self.old.ends.items) end) journal.old journal.new result }
    {
        if self.ends.len() <= end as usize {
            return Tried::Otherwise;
        }
        take(&mut self.ends, end);
        reach_with(&mut self.processes, number, variables, reached);
        journal.note(number, Brief::Get(end, told));
        Tried::Made(Changed::One(end))
    }

    fn offer(
        &mut self,
        alloc: Global,
        program: &Program,
        number: u32,
        channel: u32,
        targets: &[u32],
        journal: &mut Journal,
    ) -> Tried
        requires at { IsAt (code_of program.now) self.old number (i.Offer channel targets.now) }
        requires room { 1 ≤ journal.old.spare }
        requires within { weight_of journal.old.entries + 1 < 2 ^ 64 }
        ensures { (i : ℕ) → Tries (code_of program.now) number i self.old self.new journal.old journal.new result }
    {
        let Some(standing) = self.standing(number) else {
            return Tried::Otherwise;
        };
        let Some(end) = standing.running.ends.get(channel) else {
            return Tried::Otherwise;
        };
        let Some(constructor) = self.pick_at(end) else {
            return Tried::Still;
        };
        let Some(to) = item_at(targets, constructor as usize) else {
            return Tried::Still;
        };
        match standing.onward(alloc, program, *to as usize, standing.variables) {
            Ok(Some(reached)) => self.take_pick(number, end, constructor, reached, journal),
            Ok(None) => Tried::Otherwise,
            Err(_) => Tried::OutOfMemory,
        }
    }

    // The constructor that can be taken at an end.
    #[inline]
    fn pick_at(&self, end: u32) -> Option<u32>
        ensures { MatchOption result (pick_in (first_in (tips self.now.ends.items) end) ≡ None) (λ n. first_in (tips self.now.ends.items) end ≡ Some (Pick n)) }
    {
        match self.first_at(end) {
            Some(Message::Pick(constructor)) => Some(*constructor),
            Some(Message::Word(_)) => None,
            Some(Message::Ends(_, _)) => None,
            None => None,
        }
    }

    // Takes a constructor off an end, and tells it; the process goes on at the command that it reached.
    #[inline]
    fn take_pick(
        &mut self,
        number: u32,
        end: u32,
        constructor: u32,
        reached: Reached,
        journal: &mut Journal,
    ) -> Tried
        requires there { IsThere (procs self.old.processes.items number) }
        requires room { 1 ≤ journal.old.spare }
        requires within { weight_of journal.old.entries + 1 < 2 ^ 64 }
        ensures { Went self.old self.new number (kept_by (reached_kept reached.at reached.values.items)) (brief_entry number (b.Offer end constructor))
            (end ∷ []) (taken (tips self.old.ends.items) end) journal.old journal.new result }
    {
        if self.ends.len() <= end as usize {
            return Tried::Otherwise;
        }
        take(&mut self.ends, end);
        reach(&mut self.processes, number, reached);
        journal.note(number, Brief::Offer(end, constructor));
        Tried::Made(Changed::One(end))
    }

    // A match whose row sets no variable.
    fn case(
        &mut self,
        alloc: Global,
        program: &Program,
        number: u32,
        decision: u32,
        first: u32,
        targets: &[u32],
        journal: &mut Journal,
    ) -> Tried
        requires at { IsAt (code_of program.now) self.old number (i.Case decision first targets.now) }
        requires room { 1 ≤ journal.old.spare }
        requires within { weight_of journal.old.entries + 1 < 2 ^ 64 }
        ensures { (i : ℕ) → Tries (code_of program.now) number i self.old self.new journal.old journal.new result }
    {
        let Some(standing) = self.standing(number) else {
            return Tried::Otherwise;
        };
        let Some(decision) = program.raw().decision(decision) else {
            return Tried::Otherwise;
        };
        let Some((row, [])) = decision.find(standing.values) else {
            return Tried::Otherwise;
        };
        let Some(to) = item_at(targets, row as usize) else {
            return Tried::Otherwise;
        };
        match standing.onward(alloc, program, *to as usize, standing.variables) {
            Ok(Some(reached)) => self.go_to(number, reached, journal),
            Ok(None) => Tried::Otherwise,
            Err(_) => Tried::OutOfMemory,
        }
    }

    // The process goes on at the command that it reached by a match.
    #[inline]
    fn go_to(&mut self, number: u32, reached: Reached, journal: &mut Journal) -> Tried
        requires there { IsThere (procs self.old.processes.items number) }
        requires room { 1 ≤ journal.old.spare }
        requires within { weight_of journal.old.entries + 1 < 2 ^ 64 }
        ensures { Went self.old self.new number (kept_by (reached_kept reached.at reached.values.items)) (brief_entry number b.Case) [] [] journal.old journal.new result }
    {
        reach(&mut self.processes, number, reached);
        journal.note(number, Brief::Case);
        Tried::Made(Changed::Nothing)
    }

    fn enter(
        &mut self,
        alloc: Global,
        program: &Program,
        number: u32,
        process: u32,
        channels: &[u32],
        journal: &mut Journal,
    ) -> Tried
        requires at { IsAt (code_of program.now) self.old number (i.Go process channels.now) }
        requires room { 1 ≤ journal.old.spare }
        requires within { weight_of journal.old.entries + 1 < 2 ^ 64 }
        ensures { (i : ℕ) → Tries (code_of program.now) number i self.old self.new journal.old journal.new result }
    {
        let Some(standing) = self.standing(number) else {
            return Tried::Otherwise;
        };
        match program.raw().process(process) {
            None => return Tried::Otherwise,
            Some(_) => {}
        }
        match standing.called(alloc, program, process, channels) {
            Ok(Some(running)) => self.turn(number, running, journal),
            Ok(None) => Tried::Otherwise,
            Err(_) => Tried::OutOfMemory,
        }
    }

    // The process goes on as that one by a call.
    #[inline]
    fn turn(&mut self, number: u32, running: Running, journal: &mut Journal) -> Tried
        requires there { IsThere (procs self.old.processes.items number) }
        requires room { 1 ≤ journal.old.spare }
        requires within { weight_of journal.old.entries + 1 < 2 ^ 64 }
        ensures { Went self.old self.new number (turned (held_of running)) (brief_entry number b.Call) [] [] journal.old journal.new result }
    {
        turn_into(&mut self.processes, number, running);
        journal.note(number, Brief::Call);
        Tried::Made(Changed::Nothing)
    }
}

// The value, where there is one alone.
#[inline]
fn only(values: &[Value]) -> Option<&Value>
    ensures { IfSome result (λ value. values.now ≡ value.now ∷ []) }
{
    match values {
        [value] => Some(value),
        _ => None,
    }
}
