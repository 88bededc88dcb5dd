//! What a message is good for, made ready on copies.
ghost use Rattle.std.specs.Prelude.{IfOk, Some, None, slice_get, slice_set, option_map};
ghost use Rattle.std.specs.Option.{option_copied};
ghost use Rattle.campl_cells.specs.Wants.{Begins, set_end, word_to, pick_to, ends_to};
ghost use Rattle.campl_parts.specs.Ends.{ends_of};
ghost use Rattle.campl_parts.specs.Plans.{IsFit};
ghost use Rattle.campl_eval.specs.View.{code_of};
ghost use Rattle.campl_parts.specs.Wanted.{at_place, look_of, start_of, with_ends, with_vars};

use crate::part::Life;
use crate::place::Place;
use crate::want::Look;
use campl_program::Program;
use campl_value::{Message, Value};
use sqlite_items::at;
use std::alloc::{AllocError, Global};

impl Look<'_> {
    /// How the process goes on with this message, and None where the message doesn't fit. An error means that memory is out.
    pub fn plan(
        &self,
        alloc: Global,
        program: &Program,
        message: &Message,
    ) -> Result<Option<Life>, AllocError>
        ensures { IfOk result (λ life. IsFit (code_of program.now) (look_of self.now message.now) life) }
    {
        match self {
            Look::Gets { variable, place } => get(alloc, program, *variable, place, message),
            Look::Splits { left, right, place } => {
                split(alloc, program, *left, *right, place, message)
            }
            Look::Offers { targets, place } => offer(alloc, program, targets, place, message),
            Look::Chooses { place } => go_on(alloc, program, place),
        }
    }
}

// With a value.
fn get(
    alloc: Global,
    program: &Program,
    variable: u32,
    place: &Place<'_>,
    message: &Message,
) -> Result<Option<Life>, AllocError>
    ensures { IfOk result (λ life. IsFit (code_of program.now) (word_to (λ u. Some (Begins (with_vars (start_of place.now) (slice_set place.now.variables.now variable u)))) message.now) life) }
{
    match message {
        Message::Word(value) => set(alloc, program, variable, place, value),
        Message::Pick(_) => Ok(None),
        Message::Ends(_, _) => Ok(None),
    }
}

fn set(
    alloc: Global,
    program: &Program,
    variable: u32,
    place: &Place<'_>,
    value: &Value,
) -> Result<Option<Life>, AllocError>
    ensures { IfOk result (λ life. IsFit (code_of program.now) (Some (Begins (with_vars (start_of place.now) (slice_set place.now.variables.now variable value.now)))) life) }
{
    let value = match value.copy() {
        Ok(value) => value,
        Err(error) => return Err(error),
    };
    let mut begun = match place.copy(alloc) {
        Ok(begun) => begun,
        Err(error) => return Err(error),
    };
    begun.variables.put(variable as usize, value);
    match begun.begin(alloc, program) {
        Ok(life) => Ok(Some(life)),
        Err(error) => Err(error),
    }
}

// With two ends.
fn split(
    alloc: Global,
    program: &Program,
    left: u32,
    right: u32,
    place: &Place<'_>,
    message: &Message,
) -> Result<Option<Life>, AllocError>
    ensures { IfOk result (λ life. IsFit (code_of program.now) (ends_to (λ f g. Some (Begins (with_ends (start_of place.now) (set_end right g (set_end left f (ends_of place.now.ends.now)))))) message.now) life) }
{
    match message {
        Message::Ends(first, second) => {
            hold(alloc, program, (left, *first), (right, *second), place)
        }
        Message::Word(_) => Ok(None),
        Message::Pick(_) => Ok(None),
    }
}

fn hold(
    alloc: Global,
    program: &Program,
    left: (u32, u32),
    right: (u32, u32),
    place: &Place<'_>,
) -> Result<Option<Life>, AllocError>
    ensures { IfOk result (λ life. IsFit (code_of program.now) (Some (Begins (with_ends (start_of place.now) (set_end right.0 right.1 (set_end left.0 left.1 (ends_of place.now.ends.now)))))) life) }
{
    match place.begin_holding_two(alloc, program, left, right) {
        Ok(life) => Ok(Some(life)),
        Err(error) => Err(error),
    }
}

// With a constructor.
fn offer(
    alloc: Global,
    program: &Program,
    targets: &[u32],
    place: &Place<'_>,
    message: &Message,
) -> Result<Option<Life>, AllocError>
    ensures { IfOk result (λ life. IsFit (code_of program.now) (pick_to (λ n. option_map (λ to. Begins (at_place (start_of place.now) to)) (slice_get targets.now n)) message.now) life) }
{
    match message {
        Message::Pick(number) => go_to(alloc, program, at(targets, *number as usize), place),
        Message::Word(_) => Ok(None),
        Message::Ends(_, _) => Ok(None),
    }
}

fn go_to(
    alloc: Global,
    program: &Program,
    to: Option<&u32>,
    place: &Place<'_>,
) -> Result<Option<Life>, AllocError>
    ensures { IfOk result (λ life. IsFit (code_of program.now) (option_map (λ to. Begins (at_place (start_of place.now) to)) (option_copied to.entry)) life) }
{
    match to {
        None => Ok(None),
        Some(to) => go_on(alloc, program, &place.moved(*to as usize)),
    }
}

fn go_on(alloc: Global, program: &Program, place: &Place<'_>) -> Result<Option<Life>, AllocError>
    ensures { IfOk result (λ life. IsFit (code_of program.now) (Some (Begins (start_of place.now))) life) }
{
    match place.begin(alloc, program) {
        Ok(life) => Ok(Some(life)),
        Err(error) => Err(error),
    }
}
