//! The words of a line as operands. What is missing or ill written is read as 0, as the printed listing then shows.
use campl_tree::Side;
use sqlite_items::Items;
use std::alloc::{AllocError, Global};

/// The word at a place of a line, or `-`.
pub fn word_at<'a>(words: &[&'a str], at: usize) -> &'a str {
    match words.get(at) {
        Some(word) => word,
        None => "-",
    }
}

/// The number that a word is.
pub fn number(word: &str) -> u32 {
    match word.parse::<u32>() {
        Ok(number) => number,
        Err(_) => 0,
    }
}

/// The number at a place of a line.
pub fn number_at(words: &[&str], at: usize) -> u32 {
    number(word_at(words, at))
}

/// The number at a place of a line, which may be negative.
pub fn signed_at(words: &[&str], at: usize) -> i64 {
    match word_at(words, at).parse::<i64>() {
        Ok(number) => number,
        Err(_) => 0,
    }
}

/// The character of a number.
pub fn character(number: u32) -> char {
    match char::from_u32(number) {
        Some(c) => c,
        None => '\0',
    }
}

/// The side at a place of a line.
pub fn side_at(words: &[&str], at: usize) -> Side {
    if word_at(words, at) == "in" {
        Side::Input
    } else {
        Side::Output
    }
}

/// Numbers with a character between them, or `-` for none.
pub fn numbers(alloc: Global, word: &str, between: char) -> Result<Items<u32>, AllocError> {
    let mut numbers = Items::new(alloc);
    if word != "-" {
        for one in word.split(between) {
            numbers.push(number(one))?;
        }
    }
    Ok(numbers)
}

/// The list at a place of a line.
pub fn list_at(alloc: Global, words: &[&str], at: usize) -> Result<Items<u32>, AllocError> {
    numbers(alloc, word_at(words, at), ',')
}

/// The words of a line, one space between two.
pub fn words_of(alloc: Global, line: &str) -> Result<Vec<&str>, AllocError> {
    let mut words = Vec::new(alloc);
    for word in line.split(' ') {
        words.push(word)?;
    }
    Ok(words)
}
