//! What a step that waits for nothing needs, made ready on copies.
ghost use Rattle.std.specs.Prelude.{◌≡◌, ◌++◌, Some, IfOk, option_map, replicate};
ghost use Rattle.campl_value.specs.Tree.{Nil};
ghost use Rattle.campl_cells.specs.Wants.{Begins, Spends, set_end};
ghost use Rattle.campl_cells.specs.Steps.{IsChildOf, IsLifeOf};
ghost use Rattle.campl_parts.specs.Ends.{ends_of};
ghost use Rattle.campl_parts.specs.Plans.{IsPlanned, begun_of};
ghost use Rattle.campl_eval.specs.View.{code_of};
ghost use Rattle.campl_parts.specs.Views.{held_of, life_of};
ghost use Rattle.campl_parts.specs.Wanted.{at_place, called_start, move_of, row_vars, sent_of, start_of, with_ends, with_vars};

use crate::ends::Ends;
use crate::part::{Life, Running};
use crate::place::{Begun, Place};
use crate::want::{Deed, Sent};
use campl_instructions::Spot;
use campl_operands::{Operands, RowEffect, Variables};
use campl_program::Program;
use campl_value::{Message, Value};
use std::alloc::{AllocError, Global};

/// What a step that waits for nothing comes to: the message that it sends on an end, the life of a child, and how the process
/// goes on.
#[derive(Drop)]
pub struct Planned {
    pub send: Option<(u32, Message)>,
    pub child: Option<Life>,
    pub next: Life,
}

impl Deed<'_> {
    /// Makes the deed ready. An error means that memory is out.
    pub fn plan(&self, alloc: Global, program: &Program) -> Result<Planned, AllocError>
        ensures { IfOk result (λ planned. IsPlanned (code_of program.now) (move_of self.now) planned) }
    {
        let send = match self.message() {
            Ok(send) => send,
            Err(error) => return Err(error),
        };
        let child = match self.child(alloc, program) {
            Ok(child) => child,
            Err(error) => return Err(error),
        };
        match self.next(alloc, program) {
            Ok(next) => Ok(Planned { send, child, next }),
            Err(error) => Err(error),
        }
    }

    // The message, and the end on which it is sent.
    fn message(&self) -> Result<Option<(u32, Message)>, AllocError>
        ensures { IfOk result (λ send. send ≡ (move_of self.now).send) }
    {
        match self {
            Deed::Sends { end, message, .. } => message.on(*end),
            Deed::Forks {
                end,
                channel,
                channel2,
                ..
            } => Ok(Some((*end, Message::Ends(channel.far, channel2.far)))),
            Deed::Spends(_) => Ok(None),
            Deed::Ends => Ok(None),
            Deed::Goes(_) => Ok(None),
            Deed::Cases { .. } => Ok(None),
            Deed::Calls { .. } => Ok(None),
            Deed::Peels { .. } => Ok(None),
        }
    }

    // The child, where there is one.
    fn child(&self, alloc: Global, program: &Program) -> Result<Option<Life>, AllocError>
        ensures { IfOk result (λ child. IsChildOf (code_of program.now) (move_of self.now).child (option_map life_of child)) }
    {
        match self {
            Deed::Forks {
                its,
                to,
                channel2,
                place,
                ..
            } => place.bear(alloc, program, *to, *its, channel2.near),
            Deed::Peels {
                held,
                its,
                to,
                place,
                ..
            } => place.bear(alloc, program, *to, *held, *its),
            Deed::Spends(_) => Ok(None),
            Deed::Ends => Ok(None),
            Deed::Goes(_) => Ok(None),
            Deed::Cases { .. } => Ok(None),
            Deed::Calls { .. } => Ok(None),
            Deed::Sends { .. } => Ok(None),
        }
    }

    // How the process goes on.
    fn next(&self, alloc: Global, program: &Program) -> Result<Life, AllocError>
        ensures { IfOk result (λ life. IsLifeOf (code_of program.now) (move_of self.now).next (life_of life)) }
    {
        match self {
            Deed::Spends(running) => running.spend(alloc, program),
            Deed::Ends => Ok(Life::Ended),
            Deed::Goes(place) => place.begin(alloc, program),
            Deed::Cases {
                place,
                first,
                values,
                spots,
            } => place.begin_row(alloc, program, *first, values, spots),
            Deed::Calls {
                block,
                missing,
                values,
                channels,
                ends,
            } => call(alloc, program, *block, *missing, values, channels, ends),
            Deed::Sends { place, .. } => place.begin(alloc, program),
            Deed::Forks {
                own,
                channel,
                place,
                ..
            } => place.begin_holding(alloc, program, *own, channel.near),
            Deed::Peels {
                held,
                own,
                place,
                ..
            } => place.begin_holding(alloc, program, *held, *own),
        }
    }
}

impl Sent<'_> {
    // The message, to be sent on this end.
    fn on(&self, end: u32) -> Result<Option<(u32, Message)>, AllocError>
        ensures { IfOk result (λ send. send ≡ Some (end, sent_of self.now)) }
    {
        match self {
            Sent::Pick(number) => Ok(Some((end, Message::Pick(*number)))),
            Sent::Word(value) => match value.copy() {
                Ok(value) => Ok(Some((end, Message::Word(value)))),
                Err(error) => Err(error),
            },
        }
    }
}

impl Running {
    // With one more call for its present command.
    fn spend(&self, alloc: Global, program: &Program) -> Result<Life, AllocError>
        ensures { IfOk result (λ life. IsLifeOf (code_of program.now) (Spends (held_of self.now)) (life_of life)) }
    {
        let ends = self.ends.copy(alloc)?;
        let mut kept = match self.kept.copy(alloc) {
            Ok(kept) => kept,
            Err(error) => return Err(error),
        };
        match kept.advance(alloc, program, 1) {
            Ok(()) => {}
            Err(error) => return Err(error),
        }
        let running = Running {
            block: self.block,
            ends,
            kept,
        };
        Life::runs(alloc, running)
    }
}

impl Place<'_> {
    // A child that begins at another place of the block with one more end.
    fn bear(
        &self,
        alloc: Global,
        program: &Program,
        to: u32,
        channel: u32,
        end: u32,
    ) -> Result<Option<Life>, AllocError>
        ensures { IfOk result (λ child. IsChildOf (code_of program.now) (Some (with_ends (at_place (start_of self.now) to) (set_end channel end (start_of self.now).ends))) (option_map life_of child)) }
    {
        match self
            .moved(to as usize)
            .begin_holding(alloc, program, channel, end)
        {
            Ok(life) => Ok(Some(life)),
            Err(error) => Err(error),
        }
    }

    // A process that goes on there with a row's variables.
    fn begin_row(
        &self,
        alloc: Global,
        program: &Program,
        first: u32,
        values: &[Value],
        spots: &[Spot],
    ) -> Result<Life, AllocError>
        ensures { IfOk result (λ life. IsLifeOf (code_of program.now) (Begins (with_vars (start_of self.now) (row_vars first values.now spots.now self.now.variables.now))) (life_of life)) }
    {
        match self.with_row(alloc, first, values, spots) {
            Ok(begun) => begun.begin(alloc, program),
            Err(error) => Err(error),
        }
    }

    // The place with copies and a row's variables.
    fn with_row(
        &self,
        alloc: Global,
        first: u32,
        values: &[Value],
        spots: &[Spot],
    ) -> Result<Begun, AllocError>
        ensures { IfOk result (λ begun. begun_of begun ≡ with_vars (start_of self.now) (row_vars first values.now spots.now self.now.variables.now)) }
    {
        let mut begun = match self.copy(alloc) {
            Ok(begun) => begun,
            Err(error) => return Err(error),
        };
        match begun.variables.put_row(values, first, spots) {
            RowEffect::Done => Ok(begun),
            RowEffect::Missing => self.copy(alloc),
            RowEffect::OutOfMemory => Err(AllocError),
        }
    }
}

// A process at the head of its block.
fn call(
    alloc: Global,
    program: &Program,
    block: usize,
    missing: usize,
    values: &[Value],
    channels: &[u32],
    ends: &Ends,
) -> Result<Life, AllocError>
    ensures { IfOk result (λ life. IsLifeOf (code_of program.now) (Begins (called_start block missing values.now channels.now (ends_of ends.now))) (life_of life)) }
{
    match called(alloc, block, missing, values, channels, ends) {
        Ok(begun) => begun.begin(alloc, program),
        Err(error) => Err(error),
    }
}

fn called(
    alloc: Global,
    block: usize,
    missing: usize,
    values: &[Value],
    channels: &[u32],
    ends: &Ends,
) -> Result<Begun, AllocError>
    ensures { IfOk result (λ begun. begun_of begun ≡ called_start block missing values.now channels.now (ends_of ends.now)) }
{
    let ends = match ends.given(alloc, channels) {
        Ok(ends) => ends,
        Err(error) => return Err(error),
    };
    match called_variables(alloc, missing, values) {
        Ok(variables) => Ok(Begun {
            block,
            at: 0,
            variables,
            ends,
        }),
        Err(error) => Err(error),
    }
}

// The variables of a called process: the values, and so many more.
pub(crate) fn called_variables(
    alloc: Global,
    missing: usize,
    values: &[Value],
) -> Result<Variables, AllocError>
    ensures { IfOk result (λ variables. variables ≡ values.now ++ replicate missing Nil) }
{
    let Some(size) = values.len().checked_add(missing) else {
        return Err(AllocError);
    };
    let mut variables = match copies(alloc, values) {
        Ok(variables) => variables,
        Err(error) => return Err(error),
    };
    match variables.pad(size) {
        Ok(()) => Ok(variables),
        Err(error) => Err(error),
    }
}

fn copies(alloc: Global, values: &[Value]) -> Result<Variables, AllocError>
    ensures { IfOk result (λ variables. variables ≡ values.now) }
{
    let mut operands = Operands::new(alloc);
    for value in values {
        operands.push(value.copy()?)?;
    }
    let mut variables = Variables::new(alloc);
    operands.become_variables(&mut variables);
    Ok(variables)
}
