//! Forms of patterns.
ghost use Rattle.std.specs.Prelude.{◌≡◌, ◌∷◌, IfOk};
ghost use Rattle.campl_types.specs.Forms.{anythings};
ghost use Rattle.campl_types.specs.Missing.{is_open};
ghost use Rattle.campl_missing.specs.View.{view_form, view_forms};

use campl_tree::Name;
use sqlite_items::{Boxed, Items};
use std::alloc::{AllocError, Global};

/// What a pattern asks of a value.
pub enum Form {
    /// `_`
    Anything,
    Variable(Name),
    /// A number, in a type that holds the opposite of each number of a tree.
    Number(i128),
    Character(char),
    Truth(bool),
    /// `[]`
    Nil,
    /// `p : q`
    Cons(Boxed<Form>, Boxed<Form>),
    /// `(p, q)`
    Pair(Boxed<Form>, Boxed<Form>),
    /// A constructor with its parts.
    Built(Name, Items<Form>),
}

impl Drop for Form {
    fn drop(self) {
        match self {
            Form::Anything | Form::Truth(_) | Form::Nil => {}
            Form::Variable(x) => drop(x),
            Form::Number(_) | Form::Character(_) => {}
            Form::Cons(p, q) | Form::Pair(p, q) => {
                drop(p);
                drop(q);
            }
            Form::Built(x, ps) => {
                drop(x);
                drop(ps);
            }
        }
    }
}

impl Form {
    /// A second copy of the form.
    #[cycle(copy)]
    pub fn copy(&self, alloc: Global) -> Result<Form, AllocError>
        ensures { IfOk result (λ p. p ≡ self.now) }
    {
        match self {
            Form::Anything => Ok(Form::Anything),
            Form::Variable(x) => Ok(Form::Variable(x.copy(alloc)?)),
            Form::Number(n) => Ok(Form::Number(*n)),
            Form::Character(c) => Ok(Form::Character(*c)),
            Form::Truth(b) => Ok(Form::Truth(*b)),
            Form::Nil => Ok(Form::Nil),
            Form::Cons(p, q) => {
                let head = match p.get().boxed_copy(alloc) {
                    Ok(head) => head,
                    Err(fault) => return Err(fault),
                };
                match q.get().boxed_copy(alloc) {
                    Ok(tail) => Ok(Form::Cons(head, tail)),
                    Err(fault) => Err(fault),
                }
            }
            Form::Pair(p, q) => {
                let first = match p.get().boxed_copy(alloc) {
                    Ok(first) => first,
                    Err(fault) => return Err(fault),
                };
                match q.get().boxed_copy(alloc) {
                    Ok(second) => Ok(Form::Pair(first, second)),
                    Err(fault) => Err(fault),
                }
            }
            Form::Built(x, ps) => {
                let parts = match Form::copy_all(alloc, ps.as_slice()) {
                    Ok(parts) => parts,
                    Err(fault) => return Err(fault),
                };
                match x.copy(alloc) {
                    Ok(name) => Ok(Form::Built(name, parts)),
                    Err(fault) => Err(fault),
                }
            }
        }
    }

    /// A second copy of the form, in a box.
    #[cycle(copy)]
    fn boxed_copy(&self, alloc: Global) -> Result<Boxed<Form>, AllocError>
        ensures { IfOk result (λ p. p ≡ self.now) }
    {
        match self.copy(alloc) {
            Ok(copy) => Boxed::new(alloc, copy),
            Err(fault) => Err(fault),
        }
    }

    /// Second copies of forms, in order.
    #[cycle(copy)]
    pub fn copy_all(alloc: Global, forms: &[Form]) -> Result<Items<Form>, AllocError>
        ensures { IfOk result (λ copies. copies ≡ forms.now) }
    {
        let mut copies = Items::new(alloc);
        for p in forms {
            copies.push(p.copy(alloc)?)?;
        }
        Ok(copies)
    }

    /// Whether the form is met by every value.
    #[tactic(auto, using(crate::proofs::Views::form_views))]
    pub(crate) fn is_open(&self) -> bool
        ensures { result ≡ is_open (view_form self.now) }
    {
        match self {
            Form::Anything => true,
            Form::Variable(_) => true,
            Form::Number(_) => false,
            Form::Character(_) => false,
            Form::Truth(_) => false,
            Form::Nil => false,
            Form::Cons(_, _) => false,
            Form::Pair(_, _) => false,
            Form::Built(_, _) => false,
        }
    }
}

/// So many forms that ask nothing.
#[tactic(auto, using(crate::proofs::Forms::anythings_views))]
pub(crate) fn anythings(alloc: Global, count: usize) -> Result<Items<Form>, AllocError>
    ensures { IfOk result (λ ps. view_forms ps ≡ anythings count) }
{
    let mut forms = Items::new(alloc);
    while forms.len() < count {
        forms.push(Form::Anything)?;
    }
    Ok(forms)
}

/// A form before others.
pub(crate) fn in_front(
    alloc: Global,
    first: Form,
    others: Items<Form>,
) -> Result<Items<Form>, AllocError>
    ensures { IfOk result (λ ps. ps ≡ first ∷ others) }
{
    let mut forms = Items::new(alloc);
    forms.push(first)?;
    forms.append(others)?;
    Ok(forms)
}
