//! Patterns judged against types.
ghost use Rattle.std.specs.Prelude.{◌≡◌, ℕ, [], IfOk, Some, length, map};
ghost use Rattle.campl_tree.specs.View.{view_seq, seq_types, view_pattern, patterns, view_data, view_data_constructor, view_decl};
ghost use Rattle.campl_types.specs.Fits.{Vars as Seen};
ghost use Rattle.campl_types.specs.Sequential.{whole};
ghost use Rattle.campl_types.specs.Substitution.{types_of};
ghost use Rattle.campl_types.specs.World.{constructor_named, names_of, OfData};
ghost use Rattle.campl_types.specs.SameType.{nowhere};
ghost use Rattle.campl_tree.specs.Plain.SeqType as s;
ghost use Rattle.campl_shown.specs.Types.{type_text, type_text_at};
ghost use Rattle.campl_vars.specs.Variables.{view_vars};
ghost use Rattle.campl_seqcheck.specs.declared.fault.SeqFault.TheVariants.{TypeDiffers};
ghost use Rattle.campl_seqcheck.specs.Answered.{Refuses, IsVerdict};
ghost use Rattle.campl_seqcheck.specs.Fitting as definition;
ghost use Rattle.campl_seqcheck.specs.Judged.{fine};
ghost use Rattle.campl_seqcheck.specs.Fitting.{counted};
ghost use Rattle.campl_seqcheck.specs.Steps as steps;

use crate::fault::SeqFault;
use crate::meeting::{item_type, pair_types, type_differs};
use campl_matching::named_parts;
use campl_names::{ConstructorRef, Filling, World, parts_at, same_seq};
use campl_shown::{Shown, type_text, type_text_at};
use campl_tree::{DataConstructor, DataDecl, Ident, Name, Pattern, Place, SeqType};
use campl_vars::Vars;
use sqlite_items::{Boxed, Items};
use std::alloc::{AllocError, Global};

/// Judges a pattern against a type, and binds its variables.
#[cycle(fit)]
#[tactic(auto, using(crate::proofs::Nodes::fitting))]
pub(crate) fn fit(
    alloc: Global,
    world: &World,
    bound: &mut Vars,
    p: &Pattern,
    t: &SeqType,
) -> Result<(), SeqFault>
    ensures { IsVerdict (λ _. view_vars bound.new) (steps.fitted (map view_decl world.now) (view_vars bound.old) (view_pattern p.now) (view_seq t.now)) result }
{
    match p {
        Pattern::Wildcard(_) => Ok(()),
        Pattern::Variable(at, x) => bind(alloc, bound, *at, x, t),
        Pattern::Number(at, _) => of_type(alloc, *at, &SeqType::Int, t),
        Pattern::Negative(at, _) => of_type(alloc, *at, &SeqType::Int, t),
        Pattern::Character(at, _) => of_type(alloc, *at, &SeqType::Char, t),
        Pattern::Text(at, _) => is_text(alloc, *at, t),
        Pattern::True(at) => of_type(alloc, *at, &SeqType::Bool, t),
        Pattern::False(at) => of_type(alloc, *at, &SeqType::Bool, t),
        Pattern::List(at, ps) => match item_type(alloc, *at, t) {
            Ok(u) => fit_each(alloc, world, bound, ps.as_slice(), u),
            Err(fault) => Err(fault),
        },
        Pattern::Cons(at, p, q) => match item_type(alloc, *at, t) {
            Ok(u) => {
                fit(alloc, world, bound, p.get(), u)?;
                fit(alloc, world, bound, q.get(), t)
            }
            Err(fault) => Err(fault),
        },
        Pattern::Pair(at, p, q) => match pair_types(alloc, *at, t) {
            Ok((u, v)) => {
                fit(alloc, world, bound, p.get(), u)?;
                fit(alloc, world, bound, q.get(), v)
            }
            Err(fault) => Err(fault),
        },
        Pattern::Constructor(at, k, ps) => {
            match part_types(alloc, world, *at, k, ps.len(), t) {
                Ok(types) => fit_all(alloc, world, bound, ps.as_slice(), types.as_slice()),
                Err(fault) => Err(fault),
            }
        }
    }
}

/// Judges patterns of elements of one type.
#[cycle(fit)]
pub(crate) fn fit_each(
    alloc: Global,
    world: &World,
    bound: &mut Vars,
    ps: &[Pattern],
    t: &SeqType,
) -> Result<(), SeqFault>
    ensures { IsVerdict (λ _. view_vars bound.new) (steps.fitted_each (map view_decl world.now) (view_vars bound.old) (patterns (map view_pattern ps.now)) (view_seq t.now)) result }
{
    for i in 0..ps.len() {
        fit(alloc, world, bound, &ps[i], t)?;
    }
    Ok(())
}

/// Judges one pattern for each type, as long as there are both.
#[cycle(fit)]
pub(crate) fn fit_all(
    alloc: Global,
    world: &World,
    bound: &mut Vars,
    ps: &[Pattern],
    types: &[SeqType],
) -> Result<(), SeqFault>
    ensures { IsVerdict (λ _. view_vars bound.new) (steps.fitted_all (map view_decl world.now) (view_vars bound.old) (patterns (map view_pattern ps.now)) (map view_seq types.now)) result }
{
    for i in 0..ps.len().min(types.len()) {
        fit(alloc, world, bound, &ps[i], &types[i])?;
    }
    Ok(())
}

/// Binds a name that isn't bound yet.
fn bind(
    alloc: Global,
    bound: &mut Vars,
    at: Place,
    name: &Name,
    t: &SeqType,
) -> Result<(), SeqFault>
    ensures { IsVerdict (λ _. view_vars bound.new) (definition.variable_fits at name.now (view_vars bound.old) (view_seq t.now)) result }
{
    if bound.has(name) {
        let name = name.copy(alloc)?;
        return Err(SeqFault::NameTwiceInPattern { place: at, name });
    }
    bound.bind(alloc, name, t.copy(alloc)?)?;
    Ok(())
}

/// A pattern that fits one type alone.
fn of_type(alloc: Global, at: Place, own: &SeqType, t: &SeqType) -> Result<(), SeqFault>
    ensures { (xs : Seen) → IsVerdict (λ _. xs) (definition.of_type at (view_seq own.now) (view_seq t.now) xs) result }
{
    if same_seq(own, t) {
        Ok(())
    } else {
        Err(type_differs(alloc, at, own, t))
    }
}

/// A text as a pattern.
fn is_text(alloc: Global, at: Place, t: &SeqType) -> Result<(), SeqFault>
    ensures { (xs : Seen) → IsVerdict (λ _. xs) (definition.of_type at (s.List s.Char) (view_seq t.now) xs) result }
{
    let own = text_type(alloc)?;
    of_type(alloc, at, &own, t)
}

/// The type of texts.
#[tactic(auto, using(campl_tree::proofs::Views::seq_views))]
pub(crate) fn text_type(alloc: Global) -> Result<SeqType, AllocError>
    ensures { IfOk result (λ t. view_seq t ≡ s.List s.Char) }
{
    Ok(SeqType::List(Boxed::new(alloc, SeqType::Char)?))
}

/// The types of a constructor's parts, where so many parts stand and the whole has this type.
fn part_types(
    alloc: Global,
    world: &World,
    at: Place,
    constructor: &Name,
    parts: usize,
    t: &SeqType,
) -> Result<Items<SeqType>, SeqFault>
    ensures { IsVerdict (λ types. map view_seq types) (steps.part_types at (constructor_named (map view_decl world.now) constructor.now) parts (view_seq t.now)) result }
{
    match world.constructor_named(constructor) {
        Some(ConstructorRef::Data(d, _, k)) => data_part_types(alloc, at, d, k, parts, t),
        Some(ConstructorRef::Protocol(_, _, _)) => Err(SeqFault::NeedsType { place: at }),
        Some(ConstructorRef::Coprotocol(_, _, _)) => Err(SeqFault::NeedsType { place: at }),
        None => Err(SeqFault::NeedsType { place: at }),
    }
}

/// The same where its data type is known.
fn data_part_types(
    alloc: Global,
    at: Place,
    d: &DataDecl,
    k: &DataConstructor,
    parts: usize,
    t: &SeqType,
) -> Result<Items<SeqType>, SeqFault>
    ensures { (n : ℕ) → IsVerdict (λ types. map view_seq types) (steps.part_types at (Some (OfData (view_data d.now) n (view_data_constructor k.now))) parts (view_seq t.now)) result }
{
    counted(at, parts, k.parts.len())?;
    let arguments = arguments_of(alloc, at, d, t)?;
    Ok(parts_at(alloc, d, arguments, k)?)
}

/// Refuses another number than is wanted.
pub(crate) fn counted(at: Place, found: usize, wanted: usize) -> Result<(), SeqFault>
    ensures { IsVerdict (λ _. fine) (counted at found wanted) result }
{
    if found == wanted {
        return Ok(());
    }
    Err(SeqFault::ArgumentCount {
        place: at,
        found,
        wanted,
    })
}

/// The arguments of a data type at which a type stands.
fn arguments_of<'a>(
    alloc: Global,
    at: Place,
    d: &DataDecl,
    t: &'a SeqType,
) -> Result<&'a [SeqType], SeqFault>
    ensures { IsVerdict (λ ts. map view_seq ts.now) (definition.arguments_of at (view_data d.now) (view_seq t.now)) result }
{
    match named_parts(t) {
        Some((name, arguments)) => {
            if d.name.name == *name {
                Ok(arguments)
            } else {
                Err(another_type(alloc, at, d, t))
            }
        }
        None => Err(another_type(alloc, at, d, t)),
    }
}

/// The refusal of a type that isn't the data type.
fn another_type(alloc: Global, at: Place, d: &DataDecl, t: &SeqType) -> SeqFault
    ensures { Refuses (TypeDiffers at (type_text_at [] (whole (view_data d.now))) (type_text (view_seq t.now))) result }
{
    match data_texts(alloc, d, t) {
        Ok((found, wanted)) => SeqFault::TypeDiffers {
            place: at,
            found,
            wanted,
        },
        Err(_) => SeqFault::OutOfMemory,
    }
}

fn data_texts(alloc: Global, d: &DataDecl, t: &SeqType) -> Result<(Shown, Shown), AllocError>
    ensures { IfOk result (λ texts. texts ≡ (type_text_at [] (whole (view_data d.now)), type_text (view_seq t.now))) }
{
    let own = whole(alloc, d)?;
    let none = Filling::new(alloc);
    let found = type_text_at(alloc, &none, &own)?;
    let wanted = type_text(alloc, t)?;
    Ok((found, wanted))
}

/// What the constructors of a data type build.
#[tactic(auto, using(campl_tree::proofs::Views::seq_views))]
pub(crate) fn whole(alloc: Global, d: &DataDecl) -> Result<SeqType, AllocError>
    ensures { IfOk result (λ t. view_seq t ≡ whole (view_data d.now)) }
{
    let name = d.name.name.copy(alloc)?;
    let arguments = variables(alloc, d.parameters.as_slice())?;
    Ok(SeqType::Named(NOWHERE, name, arguments))
}

/// Where types stand that no source has.
const NOWHERE: Place = Place { line: 0, column: 0 };

/// Parameters as types.
#[tactic(auto, using(campl_tree::proofs::Views::seq_views))]
fn variables(alloc: Global, parameters: &[Ident]) -> Result<Items<SeqType>, AllocError>
    ensures { IfOk result (λ ts. map view_seq ts ≡ map (s.Variable nowhere) (names_of parameters.now)) }
{
    let mut types = Items::new(alloc);
    for parameter in parameters {
        let name = parameter.name.copy(alloc)?;
        types.push(SeqType::Variable(NOWHERE, name))?;
    }
    Ok(types)
}
