//! Instructions as they are listed.
ghost use Rattle.std.specs.Prelude.{◌≡◌, ◌++◌, OnOk};
ghost use Rattle.campl_code.specs.Listing.{instruction_text, number_list};
ghost use Rattle.campl_code.specs.Instructions as i;
ghost use Rattle.campl_instructions.specs.View.{view_instr};
ghost use Rattle.campl_assembly.specs.declared.operands.Operand.TheVariants as operand;
ghost use Rattle.campl_assembly.specs.Operands.{operand_text};

use crate::operands::{Operand, push_words};
use crate::page::Page;
use crate::words::{operation_word, side_word, truth_word};
use campl_instructions::Instr;
use campl_tree::Side;
use sqlite_items::Items;
use std::alloc::AllocError;

/// An instruction with its operands.
#[tactic(auto, using(crate::proofs::Spelled::instructions))]
pub(crate) fn push_instruction(page: &mut Page, x: &Instr) -> Result<(), AllocError>
    ensures { OnOk result (page.new ≡ page.old ++ instruction_text (view_instr x.now)) }
{
    match x {
        Instr::Int(n) => push_words(page, "int", &[Operand::Signed(*n)]),
        Instr::Char(c) => push_words(page, "char", &[number(u32::from(*c))]),
        Instr::Truth(b) => push_words(page, "bool", &[Operand::Word(truth_word(*b))]),
        Instr::Nil => page.push_str("nil"),
        Instr::Text(text) => push_words(page, "text", &[Operand::Quoted(text.as_slice())]),
        Instr::Load(v) => push_words(page, "load", &[number(*v)]),
        Instr::Cons => page.push_str("cons"),
        Instr::Pair => page.push_str("pair"),
        Instr::Build(k, parts) => push_words(page, "build", &[number(*k), number(*parts)]),
        Instr::Op(name) => push_words(page, "op", &[Operand::Word(operation_word(*name))]),
        Instr::Jump(to) => push_words(page, "jump", &[number(*to)]),
        Instr::Unless(to) => push_words(page, "unless", &[number(*to)]),
        Instr::Call(f) => push_words(page, "call", &[number(*f)]),
        Instr::Match(m, v, to) => push_words(page, "match", &[number(*m), number(*v), list(to)]),
        Instr::Return => page.push_str("return"),
        Instr::Case(m, v, to) => push_words(page, "case", &[number(*m), number(*v), list(to)]),
        Instr::Put(e) => push_words(page, "put", &[number(*e)]),
        Instr::Get(e, v) => push_words(page, "get", &[number(*e), number(*v)]),
        Instr::Pick(e, k) => push_words(page, "pick", &[number(*e), number(*k)]),
        Instr::Split(e, l, r) => push_words(page, "split", &[number(*e), number(*l), number(*r)]),
        Instr::Close(e) => push_words(page, "close", &[number(*e)]),
        Instr::Offer(e, to) => push_words(page, "offer", &[number(*e), list(to)]),
        Instr::Fork(e, l, r, to) => push_fork(page, *e, *l, *r, *to),
        Instr::Halt(None) => page.push_str("halt"),
        Instr::Halt(Some(e)) => push_words(page, "halt", &[number(*e)]),
        Instr::Link(e, f) => push_words(page, "link", &[number(*e), number(*f)]),
        Instr::LinkNeg(e, f) => push_words(page, "linkneg", &[number(*e), number(*f)]),
        Instr::Peel(e, side, to) => push_peel(page, *e, *side, *to),
        Instr::Race(to) => push_words(page, "race", &[list(to)]),
        Instr::Go(p, channels) => push_words(page, "go", &[number(*p), list(channels)]),
    }
}

#[tactic(auto, using(crate::proofs::Spelled::instructions))]
fn push_fork(page: &mut Page, e: u32, left: u32, right: u32, to: u32) -> Result<(), AllocError>
    ensures { OnOk result (page.new ≡ page.old ++ instruction_text (i.Fork e left right to)) }
{
    let operands = [number(e), number(left), number(right), number(to)];
    push_words(page, "fork", &operands)
}

#[tactic(auto, using(crate::proofs::Spelled::instructions))]
fn push_peel(page: &mut Page, e: u32, side: Side, to: u32) -> Result<(), AllocError>
    ensures { OnOk result (page.new ≡ page.old ++ instruction_text (i.Peel e side to)) }
{
    let operands = [number(e), Operand::Word(side_word(side)), number(to)];
    push_words(page, "peel", &operands)
}

fn number(n: u32) -> Operand<'static>
    ensures { result ≡ operand.Number n }
{
    Operand::Number(u64::from(n))
}

fn list(numbers: &Items<u32>) -> Operand<'_>
    ensures { operand_text result ≡ number_list numbers.now }
{
    Operand::List(numbers.as_slice())
}
