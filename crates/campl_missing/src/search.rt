//! The missing pattern of rows.
ghost use Rattle.std.specs.Prelude.{◌≡◌, ◌++◌, ◌∷◌, IfOk, map, option_map};
ghost use Rattle.campl_tree.specs.View.{view_seq, view_decl};
ghost use Rattle.campl_types.specs.Missing as definition;
ghost use Rattle.campl_types.specs.Missing.{parts_of};
ghost use Rattle.campl_missing.specs.View.{view_forms, view_rows, view_head, view_heads};
ghost use Rattle.campl_missing.specs.declared.form.Form.TheVariants.{Anything};

use crate::form::{Form, anythings, in_front};
use crate::head::{Head, heads};
use crate::opened::{all_open, opened_rows, put_back};
use campl_names::World;
use campl_tree::SeqType;
use sqlite_items::Items;
use std::alloc::{AllocError, Global};

/// The missing pattern of rows: the first forms for these types, in the fixed order of trials, that no row
/// covers. It is `None` where nothing is missing, and then the rows cover all values of the types, if each row
/// has a form for each type. Heads are tried inside heads no deeper than there are forms in the rows besides
/// variables and `_`.
///
/// # Errors
///
/// `AllocError` where memory wants.
#[cycle(missing)]
pub fn missing(
    alloc: Global,
    world: &World,
    rows: &[Items<Form>],
    types: &[SeqType],
) -> Result<Option<Items<Form>>, AllocError>
    ensures { IfOk result (λ m. option_map view_forms m ≡ definition.missing (map view_decl world.now) (view_rows rows.now) (map view_seq types.now)) }
{
    let [first, others @ ..] = types else {
        return Ok(no_columns(alloc, rows));
    };
    if rows.is_empty() {
        return Ok(Some(anythings(alloc, types.len())?));
    }
    if all_open(rows) {
        let found = missing_behind(alloc, world, &Head::Other, rows, others)?;
        return behind_anything(alloc, found);
    }
    let tried = heads(alloc, world, first, rows)?;
    first_missing(alloc, world, tried.as_slice(), rows, others)
}

/// The first head for which something is missing, put back before it.
#[cycle(missing)]
fn first_missing(
    alloc: Global,
    world: &World,
    heads: &[Head],
    rows: &[Items<Form>],
    others: &[SeqType],
) -> Result<Option<Items<Form>>, AllocError>
    ensures { IfOk result (λ m. option_map view_forms m ≡ definition.first_missing (λ h. definition.missing (map view_decl world.now) (definition.opened_rows h (view_rows rows.now)) (parts_of h ++ map view_seq others.now)) (view_heads heads.now)) }
{
    for head in heads {
        if let Some(found) = missing_behind(alloc, world, head, rows, others)? {
            return Ok(Some(put_back(alloc, head, found)?));
        }
    }
    Ok(None)
}

/// What is missing of the rows that fit a head: forms for its parts, and for the other types.
#[cycle(missing)]
fn missing_behind(
    alloc: Global,
    world: &World,
    head: &Head,
    rows: &[Items<Form>],
    others: &[SeqType],
) -> Result<Option<Items<Form>>, AllocError>
    ensures { IfOk result (λ m. option_map view_forms m ≡ definition.missing (map view_decl world.now) (definition.opened_rows (view_head head.now) (view_rows rows.now)) (parts_of (view_head head.now) ++ map view_seq others.now)) }
{
    let kept = opened_rows(alloc, head, rows)?;
    let types = types_behind(alloc, head, others)?;
    missing(alloc, world, kept.as_slice(), types.as_slice())
}

/// The types of a head's parts, and the others.
fn types_behind(
    alloc: Global,
    head: &Head,
    others: &[SeqType],
) -> Result<Items<SeqType>, AllocError>
    ensures { IfOk result (λ ts. map view_seq ts ≡ parts_of (view_head head.now) ++ map view_seq others.now) }
{
    let mut types = head.parts(alloc)?;
    types.append(SeqType::copy_all(alloc, others)?)?;
    Ok(types)
}

/// Where there are no columns left, a row covers what there is.
fn no_columns(alloc: Global, rows: &[Items<Form>]) -> Option<Items<Form>>
    ensures { option_map view_forms result ≡ definition.no_columns (view_rows rows.now) }
{
    if rows.is_empty() {
        Some(Items::new(alloc))
    } else {
        None
    }
}

/// `_` before what is missing, where something is.
fn behind_anything(
    alloc: Global,
    found: Option<Items<Form>>,
) -> Result<Option<Items<Form>>, AllocError>
    ensures { IfOk result (λ m. m ≡ option_map (λ ps. Anything ∷ ps) found) }
{
    match found {
        Some(forms) => Ok(Some(in_front(alloc, Form::Anything, forms)?)),
        None => Ok(None),
    }
}
