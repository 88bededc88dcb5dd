//! The variables of patterns.
ghost use Rattle.std.specs.Prelude.{◌≡◌, OnOk, map};
ghost use Rattle.campl_tree.specs.View.{view_pattern, patterns};
ghost use Rattle.campl_gen_exprs.specs.Emission.{binding, binding_all};
ghost use Rattle.campl_gen_exprs.specs.View.{view_emitter};

use crate::emitter::Emitter;
use campl_tree::Pattern;
use std::alloc::{AllocError, Global};

/// Gives the variables of a pattern the next numbers, from left to right.
///
/// # Errors
///
/// `AllocError` where memory wants: some of them are bound.
#[cycle(bind)]
#[tactic(auto, using(crate::proofs::Bindings::names))]
pub fn bind_pattern(alloc: Global, code: &mut Emitter, p: &Pattern) -> Result<(), AllocError>
    ensures { OnOk result (view_emitter code.new ≡ binding (view_pattern p.now) (view_emitter code.old)) }
{
    match p {
        Pattern::Wildcard(_)
        | Pattern::Number(_, _)
        | Pattern::Negative(_, _)
        | Pattern::Character(_, _)
        | Pattern::Text(_, _)
        | Pattern::True(_)
        | Pattern::False(_) => Ok(()),
        Pattern::Variable(_, x) => code.bind(alloc, x),
        Pattern::Constructor(_, _, ps) => bind_patterns(alloc, code, ps.as_slice()),
        Pattern::List(_, ps) => bind_patterns(alloc, code, ps.as_slice()),
        Pattern::Pair(_, p, q) => {
            bind_pattern(alloc, code, p.get())?;
            bind_pattern(alloc, code, q.get())
        }
        Pattern::Cons(_, p, q) => {
            bind_pattern(alloc, code, p.get())?;
            bind_pattern(alloc, code, q.get())
        }
    }
}

/// Gives the variables of patterns the next numbers, from left to right.
///
/// # Errors
///
/// `AllocError` where memory wants: some of them are bound.
#[cycle(bind)]
#[tactic(auto, using(crate::proofs::Bindings::names))]
pub fn bind_patterns(alloc: Global, code: &mut Emitter, ps: &[Pattern]) -> Result<(), AllocError>
    ensures { OnOk result (view_emitter code.new ≡ binding_all (patterns (map view_pattern ps.now)) (view_emitter code.old)) }
{
    for i in 0..ps.len() {
        bind_pattern(alloc, code, &ps[i])?;
    }
    Ok(())
}
