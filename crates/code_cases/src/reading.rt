//! Code, from the lines of its listing.
use crate::decisions::read_line;
use crate::instructions::instruction_of;
use crate::operands::{number_at, word_at, words_of};
use campl_instructions::{Block, Decision, RawCode};
use campl_tree::Name;
use sqlite_items::Items;
use std::alloc::{AllocError, Global};

// What the last line without a space before it began.
#[derive(Clone, Copy)]
enum Part {
    Function,
    Process,
    Decision,
}

/// The code that lines list.
pub fn code_of(alloc: Global, lines: &str) -> Result<RawCode, AllocError> {
    let mut code = RawCode {
        functions: Items::new(alloc),
        processes: Items::new(alloc),
        decisions: Items::new(alloc),
    };
    let mut part = Part::Process;
    for line in lines.lines() {
        part = read(alloc, &mut code, part, line)?;
    }
    Ok(code)
}

// Reads a line, and answers what it belongs to.
fn read(alloc: Global, code: &mut RawCode, part: Part, line: &str) -> Result<Part, AllocError> {
    match line.strip_prefix("  ") {
        Some(inner) => {
            go_on(alloc, code, part, inner)?;
            Ok(part)
        }
        None => begin(alloc, code, line),
    }
}

// Begins a block or a decision.
fn begin(alloc: Global, code: &mut RawCode, line: &str) -> Result<Part, AllocError> {
    let words = words_of(alloc, line)?;
    let words = words.as_slice();
    match word_at(words, 0) {
        "function" => {
            code.functions.push(block(alloc, words)?)?;
            Ok(Part::Function)
        }
        "process" => {
            code.processes.push(block(alloc, words)?)?;
            Ok(Part::Process)
        }
        _ => {
            code.decisions.push(decision(alloc))?;
            Ok(Part::Decision)
        }
    }
}

// A block without instructions; a function has no inputs and outputs.
fn block(alloc: Global, words: &[&str]) -> Result<Block, AllocError> {
    match Name::of(alloc, word_at(words, 1)) {
        Ok(name) => Ok(Block {
            name,
            variables: number_at(words, 2),
            inputs: number_at(words, 3),
            outputs: number_at(words, 4),
            code: Items::new(alloc),
        }),
        Err(error) => Err(error),
    }
}

fn decision(alloc: Global) -> Decision {
    Decision {
        width: 0,
        bound: Items::new(alloc),
        nodes: Items::new(alloc),
    }
}

// Puts a line to what was begun last.
fn go_on(alloc: Global, code: &mut RawCode, part: Part, line: &str) -> Result<(), AllocError> {
    match part {
        Part::Function => put_instruction(alloc, &mut code.functions, line),
        Part::Process => put_instruction(alloc, &mut code.processes, line),
        Part::Decision => put_line(alloc, &mut code.decisions, line),
    }
}

// The last block has one instruction more.
fn put_instruction(alloc: Global, blocks: &mut Items<Block>, line: &str) -> Result<(), AllocError> {
    let instruction = instruction_of(alloc, line)?;
    match blocks.pop() {
        Some(mut block) => {
            block.code.push(instruction)?;
            blocks.push(block)
        }
        None => Ok(()),
    }
}

// The last decision is told more of.
fn put_line(alloc: Global, decisions: &mut Items<Decision>, line: &str) -> Result<(), AllocError> {
    match decisions.pop() {
        Some(mut decision) => {
            read_line(alloc, &mut decision, line)?;
            decisions.push(decision)
        }
        None => Ok(()),
    }
}
