//! Messages.
use crate::lists::text;
use anyhow::Result;
use campl_value::Message;
use std::alloc::{AllocError, Global};
use std::io::Write;

// How deep the value is of a copy of the message.
fn depth_of(message: &Message) -> std::result::Result<Option<u32>, AllocError> {
    Ok(message.copy()?.into_word().map(|value| value.depth()))
}

// What may be used from any thread.
fn is_shared<T: Send + Sync>(_shared: &T) {}

// A message and its value may: this is judged when the program is proved.
fn are_shared(message: &Message) {
    is_shared(message);
    if let Message::Word(value) = message {
        is_shared(value);
    }
}

fn print_message(out: &mut impl Write, message: &Message) -> Result<()> {
    are_shared(message);
    match message {
        Message::Word(value) => write!(out, "a word that is {} deep", value.depth())?,
        Message::Pick(number) => write!(out, "the constructor {number}")?,
        Message::Ends(first, second) => write!(out, "the ends {first} and {second}")?,
    }
    match depth_of(message)? {
        Some(depth) => writeln!(out, ", and its copy's value is {depth} deep")?,
        None => writeln!(out, ", and its copy is no value")?,
    }
    Ok(())
}

pub fn print_messages(alloc: Global, out: &mut impl Write) -> Result<()> {
    print_message(out, &Message::Word(text(alloc, "ab")?))?;
    print_message(out, &Message::Pick(7))?;
    print_message(out, &Message::Ends(4, 9))
}
