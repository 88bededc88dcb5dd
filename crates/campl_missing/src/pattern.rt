//! The form of a pattern.
ghost use Rattle.std.specs.Prelude.{◌≡◌, IfOk, map, neg_ℤ};
ghost use Rattle.campl_tree.specs.View.{view_pattern, patterns};
ghost use Rattle.campl_types.specs.Forms as forms;
ghost use Rattle.campl_missing.specs.View.{view_form, view_forms};
ghost use Rattle.campl_missing.specs.declared.form.Form.TheVariants.{Cons};

use crate::form::Form;
use campl_tree::Pattern;
use sqlite_items::{Boxed, Items};
use std::alloc::{AllocError, Global};

/// The form of a pattern: what it asks of a value. A text asks for the list of its characters, and `-n` for
/// the opposite of the number n.
///
/// # Errors
///
/// `AllocError` where memory wants.
#[cycle(form)]
#[tactic(auto, using(crate::proofs::Seen::seen))]
pub fn form_of(alloc: Global, p: &Pattern) -> Result<Form, AllocError>
    ensures { IfOk result (λ f. view_form f ≡ forms.form_of (view_pattern p.now)) }
{
    match p {
        Pattern::Wildcard(_) => Ok(Form::Anything),
        Pattern::Variable(_, x) => Ok(Form::Variable(x.copy(alloc)?)),
        Pattern::Number(_, n) => Ok(Form::Number(widened(*n))),
        Pattern::Negative(_, n) => Ok(Form::Number(opposite(*n))),
        Pattern::Character(_, c) => Ok(Form::Character(*c)),
        Pattern::Text(_, text) => text_form(alloc, text.as_slice()),
        Pattern::True(_) => Ok(Form::Truth(true)),
        Pattern::False(_) => Ok(Form::Truth(false)),
        Pattern::Constructor(_, x, ps) => {
            let parts = match part_forms(alloc, ps.as_slice()) {
                Ok(parts) => parts,
                Err(fault) => return Err(fault),
            };
            match x.copy(alloc) {
                Ok(name) => Ok(Form::Built(name, parts)),
                Err(fault) => Err(fault),
            }
        }
        Pattern::List(_, ps) => element_forms(alloc, ps.as_slice()),
        Pattern::Pair(_, p, q) => {
            let first = match boxed_form(alloc, p.get()) {
                Ok(first) => first,
                Err(fault) => return Err(fault),
            };
            match boxed_form(alloc, q.get()) {
                Ok(second) => Ok(Form::Pair(first, second)),
                Err(fault) => Err(fault),
            }
        }
        Pattern::Cons(_, p, q) => {
            let head = match boxed_form(alloc, p.get()) {
                Ok(head) => head,
                Err(fault) => return Err(fault),
            };
            match boxed_form(alloc, q.get()) {
                Ok(tail) => Ok(Form::Cons(head, tail)),
                Err(fault) => Err(fault),
            }
        }
    }
}

/// The form of a pattern, in a box.
#[cycle(form)]
fn boxed_form(alloc: Global, p: &Pattern) -> Result<Boxed<Form>, AllocError>
    ensures { IfOk result (λ f. view_form f ≡ forms.form_of (view_pattern p.now)) }
{
    match form_of(alloc, p) {
        Ok(form) => Boxed::new(alloc, form),
        Err(fault) => Err(fault),
    }
}

/// The forms of a constructor's parts.
#[cycle(form)]
fn part_forms(alloc: Global, ps: &[Pattern]) -> Result<Items<Form>, AllocError>
    ensures { IfOk result (λ fs. view_forms fs ≡ map forms.form_of (map view_pattern ps.now)) }
{
    let mut parts = Items::new(alloc);
    for p in ps {
        parts.push(form_of(alloc, p)?)?;
    }
    Ok(parts)
}

/// The form of the list of these elements.
#[cycle(form)]
#[tactic(auto, using(crate::proofs::Seen::elements))]
fn element_forms(alloc: Global, ps: &[Pattern]) -> Result<Form, AllocError>
    ensures { IfOk result (λ f. view_form f ≡ forms.element_forms (patterns (map view_pattern ps.now))) }
{
    let mut list = Form::Nil;
    for i in (0..ps.len()).rev() {
        list = cons(alloc, form_of(alloc, &ps[i])?, list)?;
    }
    Ok(list)
}

/// The form of the list of these characters.
#[tactic(auto, using(crate::proofs::Seen::elements))]
fn text_form(alloc: Global, text: &[char]) -> Result<Form, AllocError>
    ensures { IfOk result (λ f. view_form f ≡ forms.text_form text.now) }
{
    let mut list = Form::Nil;
    for i in (0..text.len()).rev() {
        list = cons(alloc, Form::Character(text[i]), list)?;
    }
    Ok(list)
}

fn cons(alloc: Global, head: Form, tail: Form) -> Result<Form, AllocError>
    ensures { IfOk result (λ f. f ≡ Cons head tail) }
{
    let head = Boxed::new(alloc, head)?;
    Ok(Form::Cons(head, Boxed::new(alloc, tail)?))
}

fn widened(n: i64) -> i128
    ensures { result ≡ n }
{
    i128::from(n)
}

fn opposite(n: i64) -> i128
    ensures { result ≡ neg_ℤ n }
{
    -i128::from(n)
}
