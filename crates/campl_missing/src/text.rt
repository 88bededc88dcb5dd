//! Forms as they are written.
ghost use Rattle.std.specs.Prelude.{◌≡◌, ◌<◌, [], ◌∷◌, ◌++◌, IfOk, OnOk, chars, codes, false, if◌then◌else◌, ◌==◌};
ghost use Rattle.std.specs.Fmt.{digits, signed_decimal};
ghost use Rattle.campl_types.specs.Forms as f;
ghost use Rattle.campl_shown.specs.Characters.{character_text};
ghost use Rattle.campl_value.specs.Shown.{shown_character};
ghost use Rattle.campl_missing.specs.Texts as texts;
ghost use Rattle.campl_missing.specs.View.{view_form, view_forms};

use crate::form::Form;
use campl_shown::Shown;
use campl_tree::Name;
use std::alloc::{AllocError, Global};

/// Forms as they are written, with commas between them: what `missing` answers, as it stands in a refusal.
///
/// # Errors
///
/// `AllocError` where memory wants.
pub fn forms_text(alloc: Global, forms: &[Form]) -> Result<Shown, AllocError>
    ensures { IfOk result (λ s. s ≡ texts.forms_text (view_forms forms.now)) }
{
    let mut text = Vec::new(alloc);
    push_forms(alloc, &mut text, forms)?;
    Ok(Shown::from_chars(text))
}

/// Forms with commas between them.
#[cycle(text)]
#[tactic(auto, using(crate::proofs::Written::commas))]
fn push_forms(alloc: Global, text: &mut Vec<char>, forms: &[Form]) -> Result<(), AllocError>
    ensures { OnOk result (text.new.items ≡ text.old.items ++ texts.forms_text (view_forms forms.now)) }
{
    if forms.is_empty() {
        return Ok(());
    }
    push_form(alloc, text, &forms[0])?;
    for i in 1..forms.len() {
        push_str(alloc, text, ", ")?;
        push_form(alloc, text, &forms[i])?;
    }
    Ok(())
}

/// One form.
#[cycle(text)]
#[tactic(auto, using(crate::proofs::Written::written))]
fn push_form(alloc: Global, text: &mut Vec<char>, p: &Form) -> Result<(), AllocError>
    ensures { OnOk result (text.new.items ≡ text.old.items ++ texts.form_text (view_form p.now)) }
{
    match p {
        Form::Anything => push_str(alloc, text, "_"),
        Form::Variable(x) => push_name(text, x),
        Form::Number(n) => push_number(alloc, text, *n),
        Form::Character(c) => push_character(alloc, text, *c),
        Form::Truth(b) => push_truth(alloc, text, *b),
        Form::Nil => push_str(alloc, text, "[]"),
        Form::Cons(p, q) => {
            push_head(alloc, text, p.get())?;
            push_str(alloc, text, " : ")?;
            push_form(alloc, text, q.get())
        }
        Form::Pair(p, q) => {
            push_str(alloc, text, "(")?;
            push_form(alloc, text, p.get())?;
            push_str(alloc, text, ", ")?;
            push_form(alloc, text, q.get())?;
            push_str(alloc, text, ")")
        }
        Form::Built(k, ps) => {
            push_name(text, k)?;
            push_parts(alloc, text, ps.as_slice())
        }
    }
}

/// A form before a `:`.
#[cycle(text)]
#[tactic(auto, using(crate::proofs::Written::written))]
fn push_head(alloc: Global, text: &mut Vec<char>, p: &Form) -> Result<(), AllocError>
    ensures { OnOk result (text.new.items ≡ text.old.items ++ texts.at_head (view_form p.now) (texts.form_text (view_form p.now))) }
{
    if !is_cell(p) {
        return push_form(alloc, text, p);
    }
    push_str(alloc, text, "(")?;
    push_form(alloc, text, p)?;
    push_str(alloc, text, ")")
}

/// Whether the form is written with a `:`.
#[tactic(auto, using(crate::proofs::Views::form_views))]
fn is_cell(p: &Form) -> bool
    ensures { result ≡ texts.is_cell (view_form p.now) }
{
    match p {
        Form::Cons(_, _) => true,
        Form::Anything => false,
        Form::Variable(_) => false,
        Form::Number(_) => false,
        Form::Character(_) => false,
        Form::Truth(_) => false,
        Form::Nil => false,
        Form::Pair(_, _) => false,
        Form::Built(_, _) => false,
    }
}

/// A constructor's parts in parentheses, where it has any.
#[cycle(text)]
#[tactic(auto, using(crate::proofs::Written::written))]
fn push_parts(alloc: Global, text: &mut Vec<char>, parts: &[Form]) -> Result<(), AllocError>
    ensures { OnOk result (text.new.items ≡ text.old.items ++ texts.part_texts (f.forms_of (view_forms parts.now))) }
{
    if parts.is_empty() {
        return Ok(());
    }
    push_str(alloc, text, "(")?;
    push_forms(alloc, text, parts)?;
    push_str(alloc, text, ")")
}

#[tactic(auto, using(crate::proofs::Written::written))]
fn push_truth(alloc: Global, text: &mut Vec<char>, truth: bool) -> Result<(), AllocError>
    ensures { OnOk result (text.new.items ≡ text.old.items ++ texts.truth_text truth) }
{
    if truth {
        push_str(alloc, text, "True")
    } else {
        push_str(alloc, text, "False")
    }
}

/// A number in decimal, with `-` before it where it is negative.
#[tactic(auto, using(crate::proofs::Written::numbers))]
fn push_number(alloc: Global, text: &mut Vec<char>, n: i128) -> Result<(), AllocError>
    ensures { OnOk result (text.new.items ≡ text.old.items ++ signed_decimal n) }
{
    let number = format!(in alloc; "{n}")?;
    push_str(alloc, text, number.as_str())
}

/// A character in its quotes.
fn push_character(alloc: Global, text: &mut Vec<char>, c: char) -> Result<(), AllocError>
    ensures { OnOk result (text.new.items ≡ text.old.items ++ character_text c) }
{
    push_char(text, '\'')?;
    push_inside(alloc, text, c)?;
    push_char(text, '\'')
}

/// What stands between the quotes.
#[tactic(auto, using(crate::proofs::Written::escapes))]
fn push_inside(alloc: Global, text: &mut Vec<char>, c: char) -> Result<(), AllocError>
    ensures { OnOk result (text.new.items ≡ text.old.items ++ (if c == 39 then codes "\\'" else shown_character c)) }
{
    if c == '\'' {
        push_str(alloc, text, "\\'")
    } else {
        push_escaped(alloc, text, c)
    }
}

/// A character, or its escape where it is a backslash or has no picture.
#[tactic(auto, using(crate::proofs::Written::escapes))]
fn push_escaped(alloc: Global, text: &mut Vec<char>, c: char) -> Result<(), AllocError>
    ensures { OnOk result (text.new.items ≡ text.old.items ++ shown_character c) }
{
    match c {
        '\\' => push_str(alloc, text, "\\\\"),
        '\n' => push_str(alloc, text, "\\n"),
        '\r' => push_str(alloc, text, "\\r"),
        '\t' => push_str(alloc, text, "\\t"),
        '\0'..'\u{20}' | '\u{7f}' => push_code(alloc, text, u32::from(c)),
        _ => push_char(text, c),
    }
}

/// A character by its number.
#[tactic(auto, using(crate::proofs::Written::numbers))]
fn push_code(alloc: Global, text: &mut Vec<char>, code: u32) -> Result<(), AllocError>
    requires { code < 256 }
    ensures { OnOk result (text.new.items ≡ text.old.items ++ (codes "\\u{" ++ (digits 16 false code ++ codes "}"))) }
{
    let number = format!(in alloc; "\\u{{{code:x}}}")?;
    push_str(alloc, text, number.as_str())
}

fn push_str(alloc: Global, text: &mut Vec<char>, more: &str) -> Result<(), AllocError>
    ensures { OnOk result (text.new.items ≡ text.old.items ++ chars more.now) }
{
    let characters = characters_of(alloc, more)?;
    text.extend_from_slice(characters.as_slice())
}

fn characters_of(alloc: Global, text: &str) -> Result<Vec<char>, AllocError>
    ensures { IfOk result (λ characters. characters.items ≡ chars text.now) }
{
    text.chars().collect(alloc)
}

fn push_name(text: &mut Vec<char>, name: &Name) -> Result<(), AllocError>
    ensures { OnOk result (text.new.items ≡ text.old.items ++ name.now) }
{
    text.extend_from_slice(name.as_slice())
}

fn push_char(text: &mut Vec<char>, c: char) -> Result<(), AllocError>
    ensures { OnOk result (text.new.items ≡ text.old.items ++ c ∷ []) }
{
    text.push(c)?;
    Ok(())
}
