//! What a value may begin with.
ghost use Rattle.std.specs.Prelude.{◌≡◌, [], ◌∷◌, ◌++◌, IfOk, map, length};
ghost use Rattle.campl_tree.specs.View.{view_seq, view_decl, view_data, view_data_constructor};
ghost use Rattle.campl_types.specs.Missing as definition;
ghost use Rattle.campl_types.specs.Missing.{column, first_of, literals, parts_of, IsOther, IsTruth, IsNil, IsCons, IsPair, IsBuilt, built_heads};
ghost use Rattle.campl_types.specs.Values as values;
ghost use Rattle.campl_types.specs.World.{data_named};
ghost use Rattle.campl_missing.specs.View.{view_form, view_forms, view_rows, view_head, view_heads, head_seen};
ghost use Rattle.campl_missing.specs.Heads.{constructor_heads};

use crate::form::Form;
use campl_names::{TypeRef, World, parts_at};
use campl_tree::{DataConstructor, DataDecl, Name, SeqType};
use sqlite_items::{Boxed, Items};
use std::alloc::{AllocError, Global};

/// What a value begins with, with the types of its parts.
pub(crate) enum Head {
    Number(i128),
    Character(char),
    Truth(bool),
    Nil,
    Cons(SeqType),
    Pair(SeqType, SeqType),
    Built(Name, Items<SeqType>),
    /// What no literal of the column names.
    Other,
}

impl Drop for Head {
    fn drop(self) {
        match self {
            Head::Number(_) | Head::Character(_) | Head::Truth(_) => {}
            Head::Nil | Head::Other => {}
            Head::Cons(t) => drop(t),
            Head::Pair(t, u) => {
                drop(t);
                drop(u);
            }
            Head::Built(x, ts) => {
                drop(x);
                drop(ts);
            }
        }
    }
}

impl Head {
    /// How many parts a value with this head has.
    pub(crate) fn part_count(&self) -> usize
        ensures { result ≡ length (parts_of (view_head self.now)) }
    {
        match self {
            Head::Number(_) => 0,
            Head::Character(_) => 0,
            Head::Truth(_) => 0,
            Head::Nil => 0,
            Head::Cons(_) => 2,
            Head::Pair(_, _) => 2,
            Head::Built(_, ts) => ts.len(),
            Head::Other => 0,
        }
    }

    /// The types of the parts.
    pub(crate) fn parts(&self, alloc: Global) -> Result<Items<SeqType>, AllocError>
        ensures { IfOk result (λ ts. map view_seq ts ≡ parts_of (view_head self.now)) }
    {
        match self {
            Head::Number(_) => Ok(Items::new(alloc)),
            Head::Character(_) => Ok(Items::new(alloc)),
            Head::Truth(_) => Ok(Items::new(alloc)),
            Head::Nil => Ok(Items::new(alloc)),
            Head::Cons(t) => cell_types(alloc, t),
            Head::Pair(t, u) => {
                let first = t.copy(alloc)?;
                pair_of(alloc, first, u.copy(alloc)?)
            }
            Head::Built(_, ts) => SeqType::copy_all(alloc, ts.as_slice()),
            Head::Other => Ok(Items::new(alloc)),
        }
    }
}

/// The heads that are tried for a column of this type, in order. The rows are those of the column.
#[tactic(auto, using(crate::proofs::Tried::tried))]
pub(crate) fn heads(
    alloc: Global,
    world: &World,
    t: &SeqType,
    rows: &[Items<Form>],
) -> Result<Items<Head>, AllocError>
    ensures { IfOk result (λ hs. view_heads hs ≡ definition.heads (map view_decl world.now) (view_seq t.now) (column (view_rows rows.now))) }
{
    match t {
        SeqType::Int => literal_heads(alloc, rows),
        SeqType::Char => literal_heads(alloc, rows),
        SeqType::Bool => pair_of(alloc, Head::Truth(true), Head::Truth(false)),
        SeqType::List(t) => {
            let cell = Head::Cons(t.get().copy(alloc)?);
            pair_of(alloc, Head::Nil, cell)
        }
        SeqType::Pair(t, u) => {
            let first = t.get().copy(alloc)?;
            one(alloc, Head::Pair(first, u.get().copy(alloc)?))
        }
        SeqType::Named(_, x, ts) => named_heads(alloc, world, x, ts.as_slice()),
        SeqType::Variable(_, _) => one(alloc, Head::Other),
    }
}

/// The literals of the column in order of appearance, and then any other value.
#[tactic(auto, using(crate::proofs::Tried::gathered))]
fn literal_heads(alloc: Global, rows: &[Items<Form>]) -> Result<Items<Head>, AllocError>
    ensures { IfOk result (λ hs. view_heads hs ≡ literals (column (view_rows rows.now)) ++ IsOther ∷ []) }
{
    let mut heads = Items::new(alloc);
    for row in rows {
        if let Some(literal) = first_literal(row.as_slice()) {
            heads.push(literal)?;
        }
    }
    heads.push(Head::Other)?;
    Ok(heads)
}

/// The literal that a row begins with.
#[tactic(auto, using(crate::proofs::Openings::firsts))]
fn first_literal(row: &[Form]) -> Option<Head>
    ensures { head_seen result ≡ literals (first_of (view_forms row.now)) }
{
    match row.first() {
        Some(p) => literal_of(p),
        None => None,
    }
}

#[tactic(auto, using(crate::proofs::Views::form_views))]
fn literal_of(p: &Form) -> Option<Head>
    ensures { head_seen result ≡ literals (view_form p.now ∷ []) }
{
    match p {
        Form::Number(n) => Some(Head::Number(*n)),
        Form::Character(c) => Some(Head::Character(*c)),
        Form::Anything => None,
        Form::Variable(_) => None,
        Form::Truth(_) => None,
        Form::Nil => None,
        Form::Cons(_, _) => None,
        Form::Pair(_, _) => None,
        Form::Built(_, _) => None,
    }
}

/// The constructors of the data type of a name, as they are declared.
fn named_heads(
    alloc: Global,
    world: &World,
    name: &Name,
    arguments: &[SeqType],
) -> Result<Items<Head>, AllocError>
    ensures { IfOk result (λ hs. view_heads hs ≡ built_heads (data_named (map view_decl world.now) name.now) (map view_seq arguments.now)) }
{
    match world.type_named(name) {
        Some(TypeRef::Data(d)) => constructor_heads(alloc, d, arguments),
        Some(TypeRef::Protocol(_)) => Ok(Items::new(alloc)),
        Some(TypeRef::Coprotocol(_)) => Ok(Items::new(alloc)),
        None => Ok(Items::new(alloc)),
    }
}

/// The constructors of a data type that stands at these arguments.
fn constructor_heads(
    alloc: Global,
    d: &DataDecl,
    arguments: &[SeqType],
) -> Result<Items<Head>, AllocError>
    ensures { IfOk result (λ hs. view_heads hs ≡ constructor_heads (view_data d.now) (map view_seq arguments.now) (map view_data_constructor d.now.constructors)) }
{
    let mut heads = Items::new(alloc);
    for k in d.constructors.as_slice() {
        heads.push(constructor_head(alloc, d, arguments, k)?)?;
    }
    Ok(heads)
}

fn constructor_head(
    alloc: Global,
    d: &DataDecl,
    arguments: &[SeqType],
    k: &DataConstructor,
) -> Result<Head, AllocError>
    ensures { IfOk result (λ h. view_head h ≡ IsBuilt k.now.name.name (values.parts_at (view_data d.now) (map view_seq arguments.now) (view_data_constructor k.now))) }
{
    let name = k.name.name.copy(alloc)?;
    Ok(Head::Built(name, parts_at(alloc, d, arguments, k)?))
}

/// The types of a list's head and tail.
#[tactic(auto, using(crate::proofs::Tried::tried))]
fn cell_types(alloc: Global, t: &SeqType) -> Result<Items<SeqType>, AllocError>
    ensures { IfOk result (λ ts. map view_seq ts ≡ parts_of (IsCons (view_seq t.now))) }
{
    let tail = SeqType::List(Boxed::new(alloc, t.copy(alloc)?)?);
    pair_of(alloc, t.copy(alloc)?, tail)
}

fn one<T: Drop>(alloc: Global, item: T) -> Result<Items<T>, AllocError>
    ensures { IfOk result (λ items. items ≡ item ∷ []) }
{
    let mut items = Items::new(alloc);
    items.push(item)?;
    Ok(items)
}

fn pair_of<T: Drop>(alloc: Global, first: T, second: T) -> Result<Items<T>, AllocError>
    ensures { IfOk result (λ items. items ≡ first ∷ second ∷ []) }
{
    let mut items = Items::new(alloc);
    items.push(first)?;
    items.push(second)?;
    Ok(items)
}
