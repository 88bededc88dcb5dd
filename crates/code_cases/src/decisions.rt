//! Decisions, from the lines behind theirs.
//!
//! A node is `row R SPOTS`, `test SPOT HEAD YES NO` or `fail`. A spot is its numbers with dots between them, and a head `int:N`,
//! `char:N`, `bool:B`, `nil`, `cell`, `pair` or `built:C:P`.
use crate::operands::{character, list_at, number, number_at, numbers, word_at, words_of};
use campl_instructions::{Decision, Head, Node, Spot};
use sqlite_items::Items;
use std::alloc::{AllocError, Global};

/// Puts a line to a decision.
pub fn read_line(alloc: Global, decision: &mut Decision, line: &str) -> Result<(), AllocError> {
    let words = words_of(alloc, line)?;
    let words = words.as_slice();
    match word_at(words, 0) {
        "takes" => {
            decision.width = number_at(words, 1);
            Ok(())
        }
        "binds" => {
            decision.bound = list_at(alloc, words, 1)?;
            Ok(())
        }
        "row" => decision.nodes.push(row(alloc, words)?),
        "test" => decision.nodes.push(test(alloc, words)?),
        _ => decision.nodes.push(Node::Fail),
    }
}

fn row(alloc: Global, words: &[&str]) -> Result<Node, AllocError> {
    match spots(alloc, word_at(words, 2)) {
        Ok(spots) => Ok(Node::Row(number_at(words, 1), spots)),
        Err(error) => Err(error),
    }
}

fn spots(alloc: Global, word: &str) -> Result<Items<Spot>, AllocError> {
    let mut spots = Items::new(alloc);
    if word != "-" {
        for one in word.split(',') {
            spots.push(numbers(alloc, one, '.')?)?;
        }
    }
    Ok(spots)
}

fn test(alloc: Global, words: &[&str]) -> Result<Node, AllocError> {
    match numbers(alloc, word_at(words, 1), '.') {
        Ok(spot) => Ok(Node::Test(
            spot,
            head(word_at(words, 2)),
            number_at(words, 3),
            number_at(words, 4),
        )),
        Err(error) => Err(error),
    }
}

fn head(word: &str) -> Head {
    match word {
        "cell" => Head::Cell,
        "pair" => Head::Pair,
        "bool:True" => Head::Truth(true),
        "bool:False" => Head::Truth(false),
        _ => match word.split_once(':') {
            Some((kind, rest)) => numbered_head(kind, rest),
            None => Head::Nil,
        },
    }
}

fn numbered_head(kind: &str, rest: &str) -> Head {
    match kind {
        "int" => Head::Int(i64::from(number(rest))),
        "char" => Head::Char(character(number(rest))),
        _ => match rest.split_once(':') {
            Some((constructor, parts)) => Head::Built(number(constructor), number(parts)),
            None => Head::Nil,
        },
    }
}
