//! Instructions, from their lines.
use crate::operands::{character, list_at, number_at, side_at, signed_at, word_at, words_of};
use crate::texts::text_of;
use campl_instructions::{Instr, Operation};
use campl_tree::{Arithmetic, Comparison};
use std::alloc::{AllocError, Global};

/// The instruction of a line, which is its place and then itself.
pub fn instruction_of(alloc: Global, line: &str) -> Result<Instr, AllocError> {
    let words = words_of(alloc, line)?;
    let words = words.as_slice();
    match word_at(words, 1) {
        "text" => Ok(Instr::Text(text_of(alloc, line)?)),
        "match" => Ok(Instr::Match(
            number_at(words, 2),
            number_at(words, 3),
            list_at(alloc, words, 4)?,
        )),
        "case" => Ok(Instr::Case(
            number_at(words, 2),
            number_at(words, 3),
            list_at(alloc, words, 4)?,
        )),
        "offer" => Ok(Instr::Offer(number_at(words, 2), list_at(alloc, words, 3)?)),
        "race" => Ok(Instr::Race(list_at(alloc, words, 2)?)),
        "go" => Ok(Instr::Go(number_at(words, 2), list_at(alloc, words, 3)?)),
        _ => Ok(short(words)),
    }
}

// One without a list or a text.
fn short(words: &[&str]) -> Instr {
    match word_at(words, 1) {
        "nil" => Instr::Nil,
        "cons" => Instr::Cons,
        "pair" => Instr::Pair,
        "return" => Instr::Return,
        "int" => Instr::Int(signed_at(words, 2)),
        "char" => Instr::Char(character(number_at(words, 2))),
        "bool" => Instr::Truth(word_at(words, 2) == "True"),
        "op" => Instr::Op(operation(word_at(words, 2))),
        _ => with_numbers(words, number_at(words, 2), number_at(words, 3)),
    }
}

// One with numbers.
fn with_numbers(words: &[&str], first: u32, second: u32) -> Instr {
    match word_at(words, 1) {
        "load" => Instr::Load(first),
        "build" => Instr::Build(first, second),
        "jump" => Instr::Jump(first),
        "unless" => Instr::Unless(first),
        "call" => Instr::Call(first),
        _ => command(words, first, second),
    }
}

// One of a process.
fn command(words: &[&str], first: u32, second: u32) -> Instr {
    match word_at(words, 1) {
        "put" => Instr::Put(first),
        "get" => Instr::Get(first, second),
        "pick" => Instr::Pick(first, second),
        "close" => Instr::Close(first),
        "link" => Instr::Link(first, second),
        "linkneg" => Instr::LinkNeg(first, second),
        "split" => Instr::Split(first, second, number_at(words, 4)),
        "fork" => Instr::Fork(first, second, number_at(words, 4), number_at(words, 5)),
        "peel" => Instr::Peel(first, side_at(words, 3), number_at(words, 4)),
        _ => Instr::Halt(if words.len() > 2 { Some(first) } else { None }),
    }
}

fn operation(word: &str) -> Operation {
    match word {
        "neg" => Operation::Negate,
        "append" => Operation::Append,
        "code" => Operation::CodeOf,
        "char" => Operation::CharOf,
        "add" => Operation::Calculate(Arithmetic::Add),
        "sub" => Operation::Calculate(Arithmetic::Subtract),
        "mul" => Operation::Calculate(Arithmetic::Multiply),
        "div" => Operation::Calculate(Arithmetic::Divide),
        "mod" => Operation::Calculate(Arithmetic::Remainder),
        _ => Operation::Compare(comparison(word)),
    }
}

fn comparison(word: &str) -> Comparison {
    match word {
        "ne" => Comparison::Different,
        "lt" => Comparison::Less,
        "le" => Comparison::AtMost,
        "gt" => Comparison::Greater,
        "ge" => Comparison::AtLeast,
        _ => Comparison::Equal,
    }
}
