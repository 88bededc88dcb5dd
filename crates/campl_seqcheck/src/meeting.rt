//! Types compared with what is wanted of them.
ghost use Rattle.std.specs.Prelude.{◌≡◌, IfOk, Some, None, option_map, chars};
ghost use Rattle.std.specs.Option.{option_copied};
ghost use Rattle.campl_tree.specs.View.{view_seq};
ghost use Rattle.campl_shown.specs.Types.{type_text};
ghost use Rattle.campl_seqcheck.specs.declared.fault.SeqFault.TheVariants.{TypeDiffers, NeedsType};
ghost use Rattle.campl_seqcheck.specs.Answered.{Refuses, IsVerdict, view_wanted};
ghost use Rattle.campl_seqcheck.specs.Judged.{fine};
ghost use Rattle.campl_seqcheck.specs.Fitting.{counted, item_type, pair_types};
ghost use Rattle.campl_seqcheck.specs.Judging as definition;
ghost use Rattle.campl_seqcheck.specs.Steps as steps;

use crate::fault::SeqFault;
use campl_matching::{item_of, parts_of};
use campl_names::same_seq;
use campl_shown::{Shown, type_text};
use campl_tree::{Place, SeqType};
use sqlite_items::Boxed;
use std::alloc::{AllocError, Global};

/// The refusal of a type where another is wanted.
pub(crate) fn type_differs(alloc: Global, at: Place, found: &SeqType, wanted: &SeqType) -> SeqFault
    ensures { Refuses (TypeDiffers at (type_text (view_seq found.now)) (type_text (view_seq wanted.now))) result }
{
    match two_texts(alloc, found, wanted) {
        Ok((found, wanted)) => SeqFault::TypeDiffers {
            place: at,
            found,
            wanted,
        },
        Err(_) => SeqFault::OutOfMemory,
    }
}

fn two_texts(alloc: Global, found: &SeqType, wanted: &SeqType) -> Result<(Shown, Shown), AllocError>
    ensures { IfOk result (λ texts. texts ≡ (type_text (view_seq found.now), type_text (view_seq wanted.now))) }
{
    let found = type_text(alloc, found)?;
    let wanted = type_text(alloc, wanted)?;
    Ok((found, wanted))
}

/// An expression of this type, compared with the type that is wanted.
pub(crate) fn meets(
    alloc: Global,
    at: Place,
    wanted: Option<&SeqType>,
    found: SeqType,
) -> Result<SeqType, SeqFault>
    ensures { IsVerdict view_seq (definition.meets at (view_wanted wanted.entry) (view_seq found)) result }
{
    match wanted {
        None => Ok(found),
        Some(t) => {
            if same_seq(&found, t) {
                Ok(found)
            } else {
                Err(type_differs(alloc, at, &found, t))
            }
        }
    }
}

/// The type of a list type's elements.
#[tactic(auto, using(crate::proofs::Answered::answering))]
pub(crate) fn item_type<'a>(
    alloc: Global,
    at: Place,
    t: &'a SeqType,
) -> Result<&'a SeqType, SeqFault>
    ensures { IsVerdict (λ u. view_seq u.now) (item_type at (view_seq t.now)) result }
{
    match item_of(t) {
        Some(item) => Ok(item),
        None => Err(differs_from(alloc, at, "[_]", t)),
    }
}

/// The refusal of a type where one of this form is wanted, or the other way round: what is found comes first.
fn differs_from(alloc: Global, at: Place, form: &str, t: &SeqType) -> SeqFault
    ensures { Refuses (TypeDiffers at (chars form.now) (type_text (view_seq t.now))) result }
{
    match form_and_text(alloc, form, t) {
        Ok((found, wanted)) => SeqFault::TypeDiffers {
            place: at,
            found,
            wanted,
        },
        Err(_) => SeqFault::OutOfMemory,
    }
}

fn form_and_text(alloc: Global, form: &str, t: &SeqType) -> Result<(Shown, Shown), AllocError>
    ensures { IfOk result (λ texts. texts ≡ (chars form.now, type_text (view_seq t.now))) }
{
    let form = Shown::of(alloc, form)?;
    let text = type_text(alloc, t)?;
    Ok((form, text))
}

/// The types of a pair type's parts.
pub(crate) fn pair_types<'a>(
    alloc: Global,
    at: Place,
    t: &'a SeqType,
) -> Result<(&'a SeqType, &'a SeqType), SeqFault>
    ensures { IsVerdict (λ u. (view_seq u.0.now, view_seq u.1.now)) (pair_types at (view_seq t.now)) result }
{
    match parts_of(t) {
        Some(parts) => Ok(parts),
        None => Err(differs_from(alloc, at, "(_, _)", t)),
    }
}

/// What is wanted of a list's elements.
pub(crate) fn wanted_item<'a>(
    alloc: Global,
    at: Place,
    wanted: Option<&'a SeqType>,
) -> Result<Option<&'a SeqType>, SeqFault>
    ensures { IsVerdict view_wanted (definition.wanted_item at (view_wanted wanted.entry)) result }
{
    match wanted {
        None => Ok(None),
        Some(t) => match item_type(alloc, at, t) {
            Ok(item) => Ok(Some(item)),
            Err(fault) => Err(fault),
        },
    }
}

/// What is wanted of a list, where only a list type may be.
pub(crate) fn wanted_list<'a>(
    alloc: Global,
    at: Place,
    wanted: Option<&'a SeqType>,
) -> Result<Option<&'a SeqType>, SeqFault>
    ensures { IsVerdict view_wanted (steps.wanted_list at (view_wanted wanted.entry)) result }
{
    match wanted {
        None => Ok(None),
        Some(t) => match item_type(alloc, at, t) {
            Ok(_) => Ok(Some(t)),
            Err(fault) => Err(fault),
        },
    }
}

/// What is wanted of a pair's parts.
pub(crate) fn wanted_parts<'a>(
    alloc: Global,
    at: Place,
    wanted: Option<&'a SeqType>,
) -> Result<(Option<&'a SeqType>, Option<&'a SeqType>), SeqFault>
    ensures { IsVerdict (λ parts. (view_wanted parts.0, view_wanted parts.1)) (definition.wanted_parts at (view_wanted wanted.entry)) result }
{
    match wanted {
        None => Ok((None, None)),
        Some(t) => match pair_types(alloc, at, t) {
            Ok((first, second)) => Ok((Some(first), Some(second))),
            Err(fault) => Err(fault),
        },
    }
}

/// The type of `[]`, which another tells.
pub(crate) fn empty_list(
    alloc: Global,
    at: Place,
    wanted: Option<&SeqType>,
) -> Result<SeqType, SeqFault>
    ensures { IsVerdict view_seq (definition.empty_list at (view_wanted wanted.entry)) result }
{
    match wanted {
        None => Err(SeqFault::NeedsType { place: at }),
        Some(t) => match item_type(alloc, at, t) {
            Ok(_) => Ok(t.copy(alloc)?),
            Err(fault) => Err(fault),
        },
    }
}

/// Refuses what stands before a `++`, unless it has a list type.
pub(crate) fn a_list(alloc: Global, at: Place, t: &SeqType) -> Result<(), SeqFault>
    ensures { IsVerdict (λ _. fine) (definition.a_list at (view_seq t.now)) result }
{
    match item_of(t) {
        Some(_) => Ok(()),
        None => Err(differs_to(alloc, at, t, "[_]")),
    }
}

/// The refusal of a type where one of this form is wanted.
fn differs_to(alloc: Global, at: Place, t: &SeqType, form: &str) -> SeqFault
    ensures { Refuses (TypeDiffers at (type_text (view_seq t.now)) (chars form.now)) result }
{
    match form_and_text(alloc, form, t) {
        Ok((wanted, found)) => SeqFault::TypeDiffers {
            place: at,
            found,
            wanted,
        },
        Err(_) => SeqFault::OutOfMemory,
    }
}

/// Refuses what stands before a comparison, unless values of its type can be compared.
pub(crate) fn a_comparable(alloc: Global, at: Place, t: &SeqType) -> Result<(), SeqFault>
    ensures { IsVerdict (λ _. fine) (definition.a_comparable at (view_seq t.now)) result }
{
    if is_comparable(t) {
        Ok(())
    } else {
        Err(differs_to(alloc, at, t, "Int, Char, Bool or [Char]"))
    }
}

#[tactic(auto, using(campl_tree::proofs::Views::seq_views))]
fn is_comparable(t: &SeqType) -> bool
    ensures { result ≡ steps.is_comparable (view_seq t.now) }
{
    match t {
        SeqType::Int | SeqType::Char | SeqType::Bool => true,
        SeqType::List(t) => is_char(t.get()),
        SeqType::Pair(_, _) => false,
        SeqType::Named(_, _, _) => false,
        SeqType::Variable(_, _) => false,
    }
}

#[tactic(auto, using(campl_tree::proofs::Views::seq_views))]
fn is_char(t: &SeqType) -> bool
    ensures { result ≡ steps.is_char (view_seq t.now) }
{
    match t {
        SeqType::Char => true,
        SeqType::Int | SeqType::Bool => false,
        SeqType::List(_) => false,
        SeqType::Pair(_, _) => false,
        SeqType::Named(_, _, _) => false,
        SeqType::Variable(_, _) => false,
    }
}
