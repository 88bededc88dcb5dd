//! Operands as they are listed.
ghost use Rattle.std.specs.Prelude.{◌≡◌, ◌++◌, OnOk, chars, map, flat_map};
ghost use Rattle.campl_code.specs.Listing.{with_operands, number_list, quoted, quoted_character};
ghost use Rattle.campl_assembly.specs.Operands.{operand_text};

use crate::page::Page;
use std::alloc::AllocError;

/// An operand.
#[derive(Drop)]
pub(crate) enum Operand<'a> {
    Number(u64),
    Signed(i64),
    Word(&'a str),
    Name(&'a [char]),
    /// A text within quotes.
    Quoted(&'a [char]),
    /// Numbers joined by commas.
    List(&'a [u32]),
}

/// A word, and each operand behind a space.
pub(crate) fn push_words(
    page: &mut Page,
    word: &str,
    operands: &[Operand<'_>],
) -> Result<(), AllocError>
    ensures { OnOk result (page.new ≡ page.old ++ with_operands (chars word.now) (map operand_text operands.now)) }
{
    page.push_str(word)?;
    for operand in operands {
        page.push_char(' ')?;
        push_operand(page, operand)?;
    }
    Ok(())
}

fn push_operand(page: &mut Page, operand: &Operand<'_>) -> Result<(), AllocError>
    ensures { OnOk result (page.new ≡ page.old ++ operand_text operand.now) }
{
    match operand {
        Operand::Number(n) => page.push_number(*n),
        Operand::Signed(n) => page.push_signed(*n),
        Operand::Word(word) => page.push_str(word),
        Operand::Name(name) => page.push_name(name),
        Operand::Quoted(text) => push_text(page, text),
        Operand::List(numbers) => push_list(page, numbers),
    }
}

// Numbers joined by commas.
fn push_list(page: &mut Page, list: &[u32]) -> Result<(), AllocError>
    ensures { OnOk result (page.new ≡ page.old ++ number_list list.now) }
{
    let Some((first, more)) = list.split_first() else {
        return page.push_char('-');
    };
    page.push_number(u64::from(*first))?;
    for n in more {
        page.push_char(',')?;
        page.push_number(u64::from(*n))?;
    }
    Ok(())
}

// A text within quotes, with its escapes.
#[tactic(auto, using(crate::proofs::Spelled::escapes))]
fn push_text(page: &mut Page, text: &[char]) -> Result<(), AllocError>
    ensures { OnOk result (page.new ≡ page.old ++ quoted text.now) }
{
    page.push_char('"')?;
    push_quoted(page, text)?;
    page.push_char('"')
}

fn push_quoted(page: &mut Page, text: &[char]) -> Result<(), AllocError>
    ensures { OnOk result (page.new ≡ page.old ++ flat_map quoted_character text.now) }
{
    for c in text {
        push_character(page, *c)?;
    }
    Ok(())
}

// A character within quotes, or its escape.
#[tactic(auto, using(crate::proofs::Spelled::escapes))]
fn push_character(page: &mut Page, c: char) -> Result<(), AllocError>
    ensures { OnOk result (page.new ≡ page.old ++ quoted_character c) }
{
    match c {
        '"' => page.push_str("\\\""),
        '\\' => page.push_str("\\\\"),
        '\n' => page.push_str("\\n"),
        '\r' => page.push_str("\\r"),
        '\t' => page.push_str("\\t"),
        '\0'..'\u{20}' | '\u{7f}' => page.push_code(u32::from(c)),
        _ => page.push_char(c),
    }
}
