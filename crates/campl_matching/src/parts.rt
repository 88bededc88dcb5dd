//! Parts of types.
ghost use Rattle.std.specs.Prelude.{◌≡◌, map, option_map};
ghost use Rattle.std.specs.Option.{option_copied};
ghost use Rattle.campl_tree.specs.View.{view_seq, seq_types};
ghost use Rattle.campl_matching.specs.Parts.{item_of, parts_of, named_parts};

use campl_tree::{Name, SeqType};

/// The type of the elements, where a type is a list type.
#[tactic(auto, using(campl_tree::proofs::Views::seq_views))]
pub fn item_of(t: &SeqType) -> Option<&SeqType>
    ensures { option_map view_seq (option_copied result) ≡ item_of (view_seq t.now) }
{
    match t {
        SeqType::List(t) => Some(t.get()),
        SeqType::Int | SeqType::Char | SeqType::Bool => None,
        SeqType::Pair(_, _) => None,
        SeqType::Named(_, _, _) => None,
        SeqType::Variable(_, _) => None,
    }
}

/// The types of the parts, where a type is a pair type.
#[tactic(auto, using(campl_tree::proofs::Views::seq_views))]
pub fn parts_of(t: &SeqType) -> Option<(&SeqType, &SeqType)>
    ensures { option_map (λ p. (view_seq p.0.now, view_seq p.1.now)) result ≡ parts_of (view_seq t.now) }
{
    match t {
        SeqType::Pair(t, u) => Some((t.get(), u.get())),
        SeqType::Int | SeqType::Char | SeqType::Bool => None,
        SeqType::List(_) => None,
        SeqType::Named(_, _, _) => None,
        SeqType::Variable(_, _) => None,
    }
}

/// The name and the arguments, where a type is a named type.
#[tactic(auto, using(campl_tree::proofs::Views::seq_views))]
pub fn named_parts(t: &SeqType) -> Option<(&Name, &[SeqType])>
    ensures { option_map (λ p. (p.0.now, seq_types (map view_seq p.1.now))) result ≡ named_parts (view_seq t.now) }
{
    match t {
        SeqType::Named(_, x, ts) => Some((x, ts.as_slice())),
        SeqType::Int | SeqType::Char | SeqType::Bool => None,
        SeqType::List(_) => None,
        SeqType::Pair(_, _) => None,
        SeqType::Variable(_, _) => None,
    }
}
