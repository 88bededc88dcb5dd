//! Type parameters bound by matching declared types against types that are known.
ghost use Rattle.std.specs.Prelude.{◌≡◌, IfOk, Some, length, map, option_map, take};
ghost use Rattle.std.specs.Option.{option_copied};
ghost use Rattle.campl_tree.specs.View.{view_seq, seq_types};
ghost use Rattle.campl_types.specs.Names.{found, is_among, all_among};
ghost use Rattle.campl_types.specs.Substitution.{variables_of_all};
ghost use Rattle.campl_matching.specs.Matching.{bound_names, is_known, bind, matched, all_matched, Matches, Stays};
ghost use Rattle.campl_names.specs.Filling.{view_filling};

use crate::parts::{item_of, named_parts, parts_of};
use campl_names::{Filling, same_seq};
use campl_tree::{Name, SeqType};
use std::alloc::{AllocError, Global};

/// Whether each parameter of a type stands for something.
#[cycle(known)]
#[tactic(auto, using(crate::proofs::Bindings::known))]
pub fn is_known(filling: &Filling, t: &SeqType) -> bool
    ensures { result ≡ is_known (view_filling filling.now) (view_seq t.now) }
{
    match t {
        SeqType::Int | SeqType::Char | SeqType::Bool => true,
        SeqType::List(t) => is_known(filling, t.get()),
        SeqType::Pair(t, u) => is_known(filling, t.get()) && is_known(filling, u.get()),
        SeqType::Named(_, _, ts) => are_known(filling, ts.as_slice()),
        SeqType::Variable(_, x) => is_bound(filling, x),
    }
}

/// Whether a parameter stands for something.
fn is_bound(filling: &Filling, name: &Name) -> bool
    ensures { result ≡ is_among name.now (bound_names (view_filling filling.now)) }
{
    match filling.find(name) {
        Some(_) => true,
        None => false,
    }
}

/// Whether each parameter of types stands for something.
#[cycle(known)]
#[tactic(auto, using(crate::proofs::Bindings::known))]
fn are_known(filling: &Filling, ts: &[SeqType]) -> bool
    ensures { result ≡ all_among (variables_of_all (seq_types (map view_seq ts.now))) (bound_names (view_filling filling.now)) }
{
    for i in 0..ts.len() {
        if !is_known(filling, &ts[i]) {
            return false;
        }
    }
    true
}

/// Matches a declared type against a type, from left to right: whether the parameters of the first can
/// stand for what makes it the second. Those that stand for nothing yet are bound. Where the types don't
/// match, the parameters stand for what they stood for.
///
/// # Errors
///
/// `AllocError` where memory wants: the parameters stand for what they stood for.
pub fn matched(
    alloc: Global,
    filling: &mut Filling,
    declared: &SeqType,
    t: &SeqType,
) -> Result<bool, AllocError>
    ensures matches { IfOk result (λ b. Matches b (matched (view_filling filling.old) (view_seq declared.now) (view_seq t.now)) (view_filling filling.new)) }
    ensures stays { Stays result filling.old filling.new }
{
    let len = filling.len();
    let answer = match_type(alloc, filling, declared, t);
    if !matches!(answer, Ok(true)) {
        filling.truncate(len);
    }
    answer
}

/// The same, but where the types don't match, some parameters may be bound all the same.
#[cycle(matched)]
#[tactic(auto, using(crate::proofs::Bindings::matching))]
fn match_type(
    alloc: Global,
    filling: &mut Filling,
    declared: &SeqType,
    t: &SeqType,
) -> Result<bool, AllocError>
    ensures matches { IfOk result (λ b. Matches b (matched (view_filling filling.old) (view_seq declared.now) (view_seq t.now)) (view_filling filling.new)) }
    ensures grows { take (length filling.old) filling.new ≡ filling.old }
{
    match declared {
        SeqType::Int | SeqType::Char | SeqType::Bool => Ok(same_seq(declared, t)),
        SeqType::List(d) => {
            let Some(item) = item_of(t) else {
                return Ok(false);
            };
            match_type(alloc, filling, d.get(), item)
        }
        SeqType::Pair(d, e) => {
            let Some((first, second)) = parts_of(t) else {
                return Ok(false);
            };
            if !match_type(alloc, filling, d.get(), first)? {
                return Ok(false);
            }
            match_type(alloc, filling, e.get(), second)
        }
        SeqType::Named(_, x, ds) => {
            let Some((y, ts)) = named_parts(t) else {
                return Ok(false);
            };
            if x == y {
                return match_types(alloc, filling, ds.as_slice(), ts);
            }
            Ok(false)
        }
        SeqType::Variable(_, x) => match_variable(alloc, filling, x, t),
    }
}

/// Matches declared types against types, in order.
#[cycle(matched)]
#[tactic(auto, using(crate::proofs::Bindings::matching))]
fn match_types(
    alloc: Global,
    filling: &mut Filling,
    declared: &[SeqType],
    ts: &[SeqType],
) -> Result<bool, AllocError>
    ensures matches { IfOk result (λ b. Matches b (all_matched (view_filling filling.old) (seq_types (map view_seq declared.now)) (seq_types (map view_seq ts.now))) (view_filling filling.new)) }
    ensures grows { take (length filling.old) filling.new ≡ filling.old }
{
    if declared.len() != ts.len() {
        return Ok(false);
    }
    for i in 0..declared.len() {
        if !match_type(alloc, filling, &declared[i], &ts[i])? {
            return Ok(false);
        }
    }
    Ok(true)
}

/// Binds a parameter that stands for nothing yet, or compares what it stands for.
#[tactic(auto, using(crate::proofs::Bindings::variables))]
fn match_variable(
    alloc: Global,
    filling: &mut Filling,
    name: &Name,
    t: &SeqType,
) -> Result<bool, AllocError>
    ensures matches { IfOk result (λ b. Matches b (bind (view_filling filling.old) name.now (found name.now (view_filling filling.old)) (view_seq t.now)) (view_filling filling.new)) }
    ensures grows { take (length filling.old) filling.new ≡ filling.old }
{
    if let Some(u) = filling.find(name) {
        return Ok(same_seq(u, t));
    }
    filling.bind(alloc, name, t.copy(alloc)?)?;
    Ok(true)
}
