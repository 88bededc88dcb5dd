//! What is called, and what its type parameters stand for.
ghost use Rattle.std.specs.Prelude.{◌≡◌, [], Some, None, IfOk, map, option_map};
ghost use Rattle.std.specs.Option.{option_copied};
ghost use Rattle.campl_tree.specs.View.{view_seq, view_decl, view_function};
ghost use Rattle.campl_names.specs.Filling.{view_filling};
ghost use Rattle.campl_types.specs.Names.{all_among};
ghost use Rattle.campl_types.specs.World.{function_named, variables_of_list};
ghost use Rattle.campl_shown.specs.Types.{type_text, type_text_at};
ghost use Rattle.campl_matching.specs.Matching.{bound_names, matched};
ghost use Rattle.campl_seqcheck.specs.declared.fault.SeqFault.TheVariants.{TypeDiffers};
ghost use Rattle.campl_seqcheck.specs.Answered.{Refuses, IsVerdict, view_wanted};
ghost use Rattle.campl_seqcheck.specs.Judged.{fine};
ghost use Rattle.campl_seqcheck.specs.Judging as definition;
ghost use Rattle.campl_seqcheck.specs.Steps.{parameters_of, types_of, result_of};

use crate::fault::SeqFault;
use campl_matching::{is_known, matched};
use campl_names::{Filling, LowerRef, World};
use campl_shown::{Shown, type_text, type_text_at};
use campl_tree::{DataConstructor, FunctionDecl, Name, Place, SeqType};
use std::alloc::{AllocError, Global};

/// What is called: a function, or a constructor of a data type that is the first of these types.
#[derive(Clone, Copy)]
pub(crate) enum Callee<'a> {
    Function(&'a FunctionDecl),
    Constructor(&'a SeqType, &'a DataConstructor),
}

/// The types of its parts.
pub(crate) fn types_of<'a>(callee: &Callee<'a>) -> &'a [SeqType]
    ensures { map view_seq result.now ≡ types_of callee.now }
{
    match callee {
        Callee::Function(f) => f.parameters.as_slice(),
        Callee::Constructor(_, k) => k.parts.as_slice(),
    }
}

/// The type of its result.
pub(crate) fn result_of<'a>(callee: &Callee<'a>) -> &'a SeqType
    ensures { view_seq result.now ≡ result_of callee.now }
{
    match callee {
        Callee::Function(f) => &f.result,
        Callee::Constructor(whole, _) => *whole,
    }
}

/// Whether each of its type parameters stands for something.
#[tactic(auto, using(crate::proofs::Callees::function_bound))]
fn is_bound(callee: &Callee<'_>, filling: &Filling) -> bool
    ensures { result ≡ all_among (parameters_of callee.now) (bound_names (view_filling filling.now)) }
{
    match callee {
        Callee::Function(f) => {
            are_known(filling, f.parameters.as_slice()) && is_known(filling, &f.result)
        }
        Callee::Constructor(whole, _) => is_known(filling, *whole),
    }
}

/// Whether each parameter of types stands for something.
fn are_known(filling: &Filling, types: &[SeqType]) -> bool
    ensures { result ≡ all_among (variables_of_list (map view_seq types.now)) (bound_names (view_filling filling.now)) }
{
    for i in 0..types.len() {
        if !is_known(filling, &types[i]) {
            return false;
        }
    }
    true
}

/// Refuses a call with a parameter that stands for nothing in the end.
pub(crate) fn all_bound(at: Place, callee: &Callee<'_>, filling: &Filling) -> Result<(), SeqFault>
    ensures { IsVerdict (λ _. fine) (definition.all_bound at (parameters_of callee.now) (view_filling filling.now)) result }
{
    if is_bound(callee, filling) {
        return Ok(());
    }
    Err(SeqFault::NeedsType { place: at })
}

/// What the parameters stand for before the parts are judged.
#[tactic(auto, using(crate::proofs::Callees::beginning))]
pub(crate) fn begun(
    alloc: Global,
    at: Place,
    callee: &Callee<'_>,
    wanted: Option<&SeqType>,
) -> Result<Filling, SeqFault>
    ensures { IsVerdict (λ f. view_filling f) (definition.begun at (parameters_of callee.now) (result_of callee.now) (view_wanted wanted.entry)) result }
{
    let none = Filling::new(alloc);
    if is_bound(callee, &none) {
        return Ok(none);
    }
    match wanted {
        None => Ok(none),
        Some(t) => begun_so(alloc, at, result_of(callee), t, none),
    }
}

/// What the parameters stand for, where the result is the type that is wanted.
fn begun_so(
    alloc: Global,
    at: Place,
    result_type: &SeqType,
    t: &SeqType,
    mut filling: Filling,
) -> Result<Filling, SeqFault>
    requires { filling ≡ [] }
    ensures { IsVerdict (λ f. view_filling f) (definition.begun_so at (view_seq result_type.now) (view_seq t.now) (matched [] (view_seq result_type.now) (view_seq t.now))) result }
{
    if matched(alloc, &mut filling, result_type, t)? {
        return Ok(filling);
    }
    let none = Filling::new(alloc);
    Err(no_match(alloc, at, &none, result_type, t))
}

/// The refusal of a type where a declared type is found, as far as its parameters are known.
fn no_match(
    alloc: Global,
    at: Place,
    filling: &Filling,
    declared: &SeqType,
    t: &SeqType,
) -> SeqFault
    ensures { Refuses (TypeDiffers at (type_text_at (view_filling filling.now) (view_seq declared.now)) (type_text (view_seq t.now))) result }
{
    match declared_texts(alloc, filling, declared, t) {
        Ok((found, wanted)) => SeqFault::TypeDiffers {
            place: at,
            found,
            wanted,
        },
        Err(_) => SeqFault::OutOfMemory,
    }
}

fn declared_texts(
    alloc: Global,
    filling: &Filling,
    declared: &SeqType,
    t: &SeqType,
) -> Result<(Shown, Shown), AllocError>
    ensures { IfOk result (λ texts. texts ≡ (type_text_at (view_filling filling.now) (view_seq declared.now), type_text (view_seq t.now))) }
{
    let declared = type_text_at(alloc, filling, declared)?;
    let text = type_text(alloc, t)?;
    Ok((declared, text))
}

/// A part's type that was found, matched against its declared type: it tells what parameters stand for.
pub(crate) fn found_so(
    alloc: Global,
    at: Place,
    filling: &mut Filling,
    declared: &SeqType,
    t: &SeqType,
) -> Result<(), SeqFault>
    ensures { IsVerdict (λ _. view_filling filling.new) (definition.found_so at (view_filling filling.old) (view_seq declared.now) (view_seq t.now) (matched (view_filling filling.old) (view_seq declared.now) (view_seq t.now))) result }
{
    if matched(alloc, filling, declared, t)? {
        return Ok(());
    }
    Err(no_part(alloc, at, filling, declared, t))
}

/// The refusal of a part's type where a declared type is wanted, as far as its parameters are known.
fn no_part(alloc: Global, at: Place, filling: &Filling, declared: &SeqType, t: &SeqType) -> SeqFault
    ensures { Refuses (TypeDiffers at (type_text (view_seq t.now)) (type_text_at (view_filling filling.now) (view_seq declared.now))) result }
{
    match declared_texts(alloc, filling, declared, t) {
        Ok((wanted, found)) => SeqFault::TypeDiffers {
            place: at,
            found,
            wanted,
        },
        Err(_) => SeqFault::OutOfMemory,
    }
}

/// The function of a name.
pub(crate) fn function_named<'a>(world: &'a World, name: &Name) -> Option<&'a FunctionDecl>
    ensures { option_map view_function (option_copied result) ≡ function_named (map view_decl world.now) name.now }
{
    match world.lower_named(name) {
        Some(LowerRef::Function(f)) => Some(f),
        Some(LowerRef::Process(_)) => None,
        None => None,
    }
}
