//! The lines of a listing.
ghost use Rattle.std.specs.Prelude.{◌≡◌, ◌++◌, [], ◌∷◌, OnOk, IfOk, codes, chars, map, flat_map, string_bytes};
ghost use Rattle.std.specs.Fmt.{decimal};
ghost use Rattle.campl_code.specs.Listing.{listing, function_lines, process_lines, decision_lines, instruction_lines, instruction_text, in_line, with_operands};
ghost use Rattle.campl_assembly.specs.Operands.{operand_text};
ghost use Rattle.campl_instructions.specs.View.{view_instr, view_block, view_decision, view_code};

use crate::instructions::push_instruction;
use crate::operands::{Operand, push_words};
use crate::page::Page;
use campl_instructions::{Block, Decision, Instr, RawCode};
use std::alloc::{AllocError, Global};

/// The listing of code: functions, then processes, each with its instructions, and then decisions. An error means that memory
/// is out.
pub fn listing(alloc: Global, code: &RawCode) -> Result<String, AllocError>
    ensures { IfOk result (λ text. string_bytes text ≡ listing (view_code code.now)) }
{
    let mut page = Page::new(alloc);
    push_functions(&mut page, code.functions.as_slice())?;
    push_processes(&mut page, code.processes.as_slice())?;
    push_decisions(&mut page, code.decisions.as_slice())?;
    Ok(page.into_string())
}

fn push_functions(page: &mut Page, functions: &[Block]) -> Result<(), AllocError>
    ensures { OnOk result (page.new ≡ page.old ++ flat_map function_lines (map view_block functions.now)) }
{
    for block in functions {
        push_function(page, block)?;
    }
    Ok(())
}

fn push_function(page: &mut Page, block: &Block) -> Result<(), AllocError>
    ensures { OnOk result (page.new ≡ page.old ++ function_lines (view_block block.now)) }
{
    push_function_heading(page, block)?;
    push_instructions(page, block.code.as_slice())
}

#[tactic(auto, using(crate::proofs::Spelled::headings))]
fn push_function_heading(page: &mut Page, block: &Block) -> Result<(), AllocError>
    ensures { OnOk result (page.new ≡ page.old ++ in_line (with_operands (codes "function") (block.now.name ∷ decimal block.now.variables ∷ []))) }
{
    let operands = [
        Operand::Name(block.name.as_slice()),
        Operand::Number(u64::from(block.variables)),
    ];
    push_line(page, "function", &operands)
}

fn push_processes(page: &mut Page, processes: &[Block]) -> Result<(), AllocError>
    ensures { OnOk result (page.new ≡ page.old ++ flat_map process_lines (map view_block processes.now)) }
{
    for block in processes {
        push_process(page, block)?;
    }
    Ok(())
}

fn push_process(page: &mut Page, block: &Block) -> Result<(), AllocError>
    ensures { OnOk result (page.new ≡ page.old ++ process_lines (view_block block.now)) }
{
    push_process_heading(page, block)?;
    push_instructions(page, block.code.as_slice())
}

#[tactic(auto, using(crate::proofs::Spelled::headings))]
fn push_process_heading(page: &mut Page, block: &Block) -> Result<(), AllocError>
    ensures { OnOk result (page.new ≡ page.old ++ in_line (with_operands (codes "process") (block.now.name ∷ decimal block.now.variables ∷ decimal block.now.inputs ∷ decimal block.now.outputs ∷ []))) }
{
    let operands = [
        Operand::Name(block.name.as_slice()),
        Operand::Number(u64::from(block.variables)),
        Operand::Number(u64::from(block.inputs)),
        Operand::Number(u64::from(block.outputs)),
    ];
    push_line(page, "process", &operands)
}

// The instructions of a block, each with its place.
fn push_instructions(page: &mut Page, code: &[Instr]) -> Result<(), AllocError>
    ensures { OnOk result (page.new ≡ page.old ++ instruction_lines 0 (map view_instr code.now)) }
{
    for (at, x) in code.iter().enumerate() {
        push_at(page, at, x)?;
    }
    Ok(())
}

#[tactic(auto, using(crate::proofs::Spelled::headings))]
fn push_at(page: &mut Page, at: usize, x: &Instr) -> Result<(), AllocError>
    ensures { OnOk result (page.new ≡ page.old ++ in_line (codes "  " ++ (decimal at ++ (codes " " ++ instruction_text (view_instr x.now))))) }
{
    page.push_str("  ")?;
    page.push_number(at as u64)?;
    page.push_char(' ')?;
    push_instruction(page, x)?;
    page.push_char('\n')
}

fn push_decisions(page: &mut Page, decisions: &[Decision]) -> Result<(), AllocError>
    ensures { OnOk result (page.new ≡ page.old ++ decision_lines 0 (map view_decision decisions.now)) }
{
    for (number, decision) in decisions.iter().enumerate() {
        push_decision(page, number, decision.bound.len())?;
    }
    Ok(())
}

#[tactic(auto, using(crate::proofs::Spelled::headings))]
fn push_decision(page: &mut Page, number: usize, rows: usize) -> Result<(), AllocError>
    ensures { OnOk result (page.new ≡ page.old ++ in_line (with_operands (codes "decision") (decimal number ∷ codes "rows" ∷ decimal rows ∷ []))) }
{
    let operands = [
        Operand::Number(number as u64),
        Operand::Word("rows"),
        Operand::Number(rows as u64),
    ];
    push_line(page, "decision", &operands)
}

fn push_line(page: &mut Page, word: &str, operands: &[Operand<'_>]) -> Result<(), AllocError>
    ensures { OnOk result (page.new ≡ page.old ++ in_line (with_operands (chars word.now) (map operand_text operands.now))) }
{
    push_words(page, word, operands)?;
    page.push_char('\n')
}
