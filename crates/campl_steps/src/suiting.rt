//! Whether a message is such as one waits for. Nothing here takes memory.
ghost use Rattle.std.specs.Prelude.{◌≡◌, is_some, slice_get};
ghost use Rattle.campl_value.specs.Text.{chars_of};
ghost use Rattle.campl_parts.specs.Serving.{IsSuited, is_request, is_text};
ghost use Rattle.campl_parts.specs.Wanted.{look_of};
ghost use Rattle.campl_steps.specs.Suiting.{IsFront, is_ends, is_pick, is_word};

use campl_parts::Look;
use campl_service::{Service, Want};
use campl_value::{Look as Top, Message, Part, Value};
use sqlite_items::at;

// Whether a message is good for this.
pub(crate) fn fits(look: &Look<'_>, message: &Message) -> bool
    ensures { result ≡ is_some (look_of look.now message.now) }
{
    match look {
        Look::Gets { .. } => is_word(message),
        Look::Splits { .. } => is_ends(message),
        Look::Offers { targets, .. } => is_pick(message, targets),
        Look::Chooses { .. } => true,
    }
}

fn is_word(message: &Message) -> bool
    ensures { result ≡ is_word message.now }
{
    match message {
        Message::Word(_) => true,
        Message::Pick(_) => false,
        Message::Ends(_, _) => false,
    }
}

fn is_ends(message: &Message) -> bool
    ensures { result ≡ is_ends message.now }
{
    match message {
        Message::Word(_) => false,
        Message::Pick(_) => false,
        Message::Ends(_, _) => true,
    }
}

// Whether a message picks one of so many.
fn is_pick(message: &Message, targets: &[u32]) -> bool
    ensures { result ≡ is_pick targets.now message.now }
{
    match message {
        Message::Word(_) => false,
        Message::Pick(number) => is_there(targets, *number),
        Message::Ends(_, _) => false,
    }
}

fn is_there(targets: &[u32], number: u32) -> bool
    ensures { result ≡ is_some (slice_get targets.now number) }
{
    match at(targets, number as usize) {
        None => false,
        Some(_) => true,
    }
}

// Whether a message is such as the service waits for.
pub(crate) fn takes(service: &Service, message: &Message) -> bool
    ensures { IsSuited result service.now.serving message.now }
{
    match service.wants() {
        Want::Pick => is_request(message),
        Want::Text => is_text(message),
        Want::Send => false,
        Want::Spent => false,
        Want::Closed => false,
    }
}

// Whether a message is one of the three constructors of a service.
fn is_request(message: &Message) -> bool
    ensures { result ≡ is_request message.now }
{
    match message {
        Message::Pick(number) => *number < 3,
        Message::Word(_) => false,
        Message::Ends(_, _) => false,
    }
}

fn is_text(message: &Message) -> bool
    ensures { result ≡ is_text message.now }
{
    match message {
        Message::Word(value) => is_text_value(value),
        Message::Pick(_) => false,
        Message::Ends(_, _) => false,
    }
}

// Whether a value is a list of characters.
fn is_text_value(value: &Value) -> bool
    ensures { result ≡ is_some (chars_of value.now) }
{
    let mut rest = value.part();
    loop {
        match front_of(&rest) {
            Front::End => return true,
            Front::Letter(behind) => rest = behind,
            Front::NoText => return false,
        }
    }
}

// What a text begins with.
#[derive(Drop)]
enum Front<'a> {
    End,
    // A character, and the text behind it.
    Letter(Part<'a>),
    NoText,
}

fn front_of<'a>(text: &Part<'a>) -> Front<'a>
    ensures { IsFront text.now result }
{
    match text.look() {
        Top::Nil => Front::End,
        Top::Cell(head, behind) => match head.look() {
            Top::Char(_) => Front::Letter(behind),
            _ => Front::NoText,
        },
        _ => Front::NoText,
    }
}
