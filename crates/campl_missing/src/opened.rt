//! The rows that fit a head, and a head put back before its parts.
ghost use Rattle.std.specs.Prelude.{◌≡◌, [], ◌∷◌, ◌++◌, IfOk, map, option_map};
ghost use Rattle.campl_tree.specs.Plain.SeqType.{Int};
ghost use Rattle.campl_tree.specs.View.{view_seq};
ghost use Rattle.campl_types.specs.Forms as f;
ghost use Rattle.campl_types.specs.Missing as definition;
ghost use Rattle.campl_types.specs.Missing.{IsCons, IsPair, IsBuilt, column};
ghost use Rattle.campl_missing.specs.View.{view_form, view_forms, view_rows, view_head};
ghost use Rattle.campl_missing.specs.declared.form.Form.TheVariants.{Cons, Pair};

use crate::form::{Form, anythings, in_front};
use crate::head::Head;
use campl_tree::{Name, SeqType};
use sqlite_items::{Boxed, Items};
use std::alloc::{AllocError, Global};

/// Whether each row begins with a form that every value meets.
#[tactic(auto, using(crate::proofs::Openings::columns))]
pub(crate) fn all_open(rows: &[Items<Form>]) -> bool
    ensures { result ≡ definition.all_open (column (view_rows rows.now)) }
{
    for row in rows {
        if !begins_open(row.as_slice()) {
            return false;
        }
    }
    true
}

/// Whether a row has no first form that some value doesn't meet.
#[tactic(auto, using(crate::proofs::Openings::firsts))]
fn begins_open(row: &[Form]) -> bool
    ensures { result ≡ definition.all_open (definition.first_of (view_forms row.now)) }
{
    match row.first() {
        Some(p) => p.is_open(),
        None => true,
    }
}

/// The rows that fit a head, with the forms of its parts in place of the first.
pub(crate) fn opened_rows(
    alloc: Global,
    head: &Head,
    rows: &[Items<Form>],
) -> Result<Items<Items<Form>>, AllocError>
    ensures { IfOk result (λ kept. view_rows kept ≡ definition.opened_rows (view_head head.now) (view_rows rows.now)) }
{
    let mut kept = Items::new(alloc);
    for row in rows {
        if let Some(opened) = opened_row(alloc, head, row.as_slice())? {
            kept.push(opened)?;
        }
    }
    Ok(kept)
}

/// A row that fits a head, opened.
fn opened_row(alloc: Global, head: &Head, row: &[Form]) -> Result<Option<Items<Form>>, AllocError>
    ensures { IfOk result (λ r. option_map view_forms r ≡ definition.opened_row (view_head head.now) (view_forms row.now)) }
{
    let [first, others @ ..] = row else {
        return Ok(None);
    };
    match opened(alloc, head, first)? {
        Some(parts) => Ok(Some(joined(alloc, parts, others)?)),
        None => Ok(None),
    }
}

/// Forms, and copies of others behind them.
fn joined(alloc: Global, mut forms: Items<Form>, others: &[Form]) -> Result<Items<Form>, AllocError>
    ensures { IfOk result (λ all. all ≡ forms ++ others.now) }
{
    forms.append(Form::copy_all(alloc, others)?)?;
    Ok(forms)
}

/// The forms of a head's parts, where the form fits the head.
#[tactic(auto, using(crate::proofs::Views::form_views))]
fn opened(alloc: Global, head: &Head, p: &Form) -> Result<Option<Items<Form>>, AllocError>
    ensures { IfOk result (λ parts. option_map view_forms parts ≡ definition.opened (view_head head.now) (view_form p.now)) }
{
    match p {
        Form::Anything => Ok(Some(anythings(alloc, head.part_count())?)),
        Form::Variable(_) => Ok(Some(anythings(alloc, head.part_count())?)),
        Form::Number(n) => Ok(opened_number(alloc, head, *n)),
        Form::Character(c) => Ok(opened_character(alloc, head, *c)),
        Form::Truth(b) => Ok(opened_truth(alloc, head, *b)),
        Form::Nil => Ok(opened_nil(alloc, head)),
        Form::Cons(p, q) => opened_cell(alloc, head, p.get(), q.get()),
        Form::Pair(p, q) => opened_pair(alloc, head, p.get(), q.get()),
        Form::Built(x, ps) => opened_built(alloc, head, x, ps.as_slice()),
    }
}

fn opened_number(alloc: Global, head: &Head, n: i128) -> Option<Items<Form>>
    ensures { option_map view_forms result ≡ definition.opened (view_head head.now) (f.Number n) }
{
    match head {
        Head::Number(m) if *m == n => Some(Items::new(alloc)),
        _ => None,
    }
}

fn opened_character(alloc: Global, head: &Head, c: char) -> Option<Items<Form>>
    ensures { option_map view_forms result ≡ definition.opened (view_head head.now) (f.Character c) }
{
    match head {
        Head::Character(d) if *d == c => Some(Items::new(alloc)),
        _ => None,
    }
}

fn opened_truth(alloc: Global, head: &Head, b: bool) -> Option<Items<Form>>
    ensures { option_map view_forms result ≡ definition.opened (view_head head.now) (f.Truth b) }
{
    match head {
        Head::Truth(a) if *a == b => Some(Items::new(alloc)),
        _ => None,
    }
}

fn opened_nil(alloc: Global, head: &Head) -> Option<Items<Form>>
    ensures { option_map view_forms result ≡ definition.opened (view_head head.now) f.Nil }
{
    match head {
        Head::Nil => Some(Items::new(alloc)),
        _ => None,
    }
}

fn opened_cell(
    alloc: Global,
    head: &Head,
    p: &Form,
    q: &Form,
) -> Result<Option<Items<Form>>, AllocError>
    ensures { IfOk result (λ parts. option_map view_forms parts ≡ definition.opened (view_head head.now) (f.Cons (view_form p.now) (view_form q.now))) }
{
    match head {
        Head::Cons(_) => Ok(Some(copies(alloc, p, q)?)),
        _ => Ok(None),
    }
}

fn opened_pair(
    alloc: Global,
    head: &Head,
    p: &Form,
    q: &Form,
) -> Result<Option<Items<Form>>, AllocError>
    ensures { IfOk result (λ parts. option_map view_forms parts ≡ definition.opened (view_head head.now) (f.Pair (view_form p.now) (view_form q.now))) }
{
    match head {
        Head::Pair(_, _) => Ok(Some(copies(alloc, p, q)?)),
        _ => Ok(None),
    }
}

#[tactic(auto, using(crate::proofs::Openings::parts))]
fn opened_built(
    alloc: Global,
    head: &Head,
    constructor: &Name,
    parts: &[Form],
) -> Result<Option<Items<Form>>, AllocError>
    ensures { IfOk result (λ copies. option_map view_forms copies ≡ definition.opened (view_head head.now) (f.Built constructor.now (f.forms_of (view_forms parts.now)))) }
{
    match head {
        Head::Built(k, ts) => {
            let fits = k == constructor && ts.len() == parts.len();
            copies_where(alloc, fits, parts)
        }
        _ => Ok(None),
    }
}

/// Copies of forms, where the head fits.
fn copies_where(
    alloc: Global,
    fits: bool,
    forms: &[Form],
) -> Result<Option<Items<Form>>, AllocError>
    ensures { IfOk result (λ copies. option_map view_forms copies ≡ definition.where_so fits (view_forms forms.now)) }
{
    if fits {
        Ok(Some(Form::copy_all(alloc, forms)?))
    } else {
        Ok(None)
    }
}

/// Copies of two forms.
fn copies(alloc: Global, p: &Form, q: &Form) -> Result<Items<Form>, AllocError>
    ensures { IfOk result (λ ps. ps ≡ p.now ∷ q.now ∷ []) }
{
    let mut both = Items::new(alloc);
    both.push(p.copy(alloc)?)?;
    both.push(q.copy(alloc)?)?;
    Ok(both)
}

/// A head before its parts, which are the first of the forms.
#[tactic(auto, using(crate::proofs::Views::form_views))]
pub(crate) fn put_back(
    alloc: Global,
    head: &Head,
    forms: Items<Form>,
) -> Result<Items<Form>, AllocError>
    ensures { IfOk result (λ ps. view_forms ps ≡ definition.put_back (view_head head.now) (view_forms forms)) }
{
    match head {
        Head::Number(n) => in_front(alloc, Form::Number(*n), forms),
        Head::Character(c) => in_front(alloc, Form::Character(*c), forms),
        Head::Truth(b) => in_front(alloc, Form::Truth(*b), forms),
        Head::Nil => in_front(alloc, Form::Nil, forms),
        Head::Cons(_) => cell_put_back(alloc, forms),
        Head::Pair(_, _) => pair_put_back(alloc, forms),
        Head::Built(k, ts) => built_put_back(alloc, k, ts.as_slice(), forms.as_slice()),
        Head::Other => in_front(alloc, Form::Anything, forms),
    }
}

/// The first two forms as head and tail of a list.
#[tactic(auto, using(crate::proofs::Openings::putting))]
fn cell_put_back(alloc: Global, mut forms: Items<Form>) -> Result<Items<Form>, AllocError>
    ensures { IfOk result (λ ps. view_forms ps ≡ definition.put_back (IsCons Int) (view_forms forms)) }
{
    if forms.len() < 2 {
        return Ok(forms);
    }
    let head = forms.remove(0);
    let tail = forms.remove(0);
    let cell = cell(alloc, head, tail)?;
    in_front(alloc, cell, forms)
}

fn cell(alloc: Global, head: Form, tail: Form) -> Result<Form, AllocError>
    ensures { IfOk result (λ p. p ≡ Cons head tail) }
{
    let head = Boxed::new(alloc, head)?;
    Ok(Form::Cons(head, Boxed::new(alloc, tail)?))
}

/// The first two forms as a pair.
#[tactic(auto, using(crate::proofs::Openings::putting))]
fn pair_put_back(alloc: Global, mut forms: Items<Form>) -> Result<Items<Form>, AllocError>
    ensures { IfOk result (λ ps. view_forms ps ≡ definition.put_back (IsPair Int Int) (view_forms forms)) }
{
    if forms.len() < 2 {
        return Ok(forms);
    }
    let first = forms.remove(0);
    let second = forms.remove(0);
    let pair = pair(alloc, first, second)?;
    in_front(alloc, pair, forms)
}

fn pair(alloc: Global, first: Form, second: Form) -> Result<Form, AllocError>
    ensures { IfOk result (λ p. p ≡ Pair first second) }
{
    let first = Boxed::new(alloc, first)?;
    Ok(Form::Pair(first, Boxed::new(alloc, second)?))
}

/// The first forms as the parts of a constructor, so many as it has.
#[tactic(auto, using(crate::proofs::Openings::building))]
fn built_put_back(
    alloc: Global,
    constructor: &Name,
    parts: &[SeqType],
    forms: &[Form],
) -> Result<Items<Form>, AllocError>
    ensures { IfOk result (λ ps. view_forms ps ≡ definition.put_back (IsBuilt constructor.now (map view_seq parts.now)) (view_forms forms.now)) }
{
    let count = parts.len().min(forms.len());
    let name = constructor.copy(alloc)?;
    let first = Form::copy_all(alloc, &forms[..count])?;
    let others = Form::copy_all(alloc, &forms[count..])?;
    in_front(alloc, Form::Built(name, first), others)
}
