//! Each part has a label, which a link gives to all parts that it joins.
ghost use Rattle.std.specs.Prelude.{◌≡◌, ◌+◌, ◌<◌, ℕ, All, IfOk, IfErr, IfSome, IfNone, length, map, slice_index};
ghost use Rattle.campl_plug.specs.Links.{IsPart, IsWithin};
ghost use Rattle.campl_plug.specs.Tree.{HasNoCycle};
ghost use Rattle.campl_plug.specs.Faults.{IsFaultOf};
ghost use Rattle.campl_plug.specs.Labels.{AreLabels, relabel_of};

use crate::plug::{Link, PlugFault};
use std::alloc::{AllocError, Global};

/// The labels of the parts, at their numbers: two parts have the same one exactly where links join them.
/// `Cycle` names the first link whose parts have one label before it.
pub fn label_parts(alloc: Global, parts: u32, links: &[Link]) -> Result<Vec<u32>, PlugFault>
    requires { All (IsWithin parts) links.now }
    ensures labels { IfOk result (λ labels. AreLabels parts links.now labels.items) }
    ensures tree { IfOk result (λ _. HasNoCycle links.now) }
    ensures cycle { IfErr result (IsFaultOf parts links.now) }
{
    let mut labels = own_labels(alloc, parts)?;
    for (place, link) in links.iter().enumerate() {
        let from = labels[link.a as usize];
        let to = labels[link.b as usize];
        if from == to {
            return Err(PlugFault::Cycle { link: place as u32 });
        }
        relabel(&mut labels, from, to);
    }
    Ok(labels)
}

// The labels where there is no link: each part has its own number.
fn own_labels(alloc: Global, parts: u32) -> Result<Vec<u32>, AllocError>
    ensures size { IfOk result (λ labels. length labels.items ≡ parts + 1) }
    ensures own { IfOk result (λ labels. (p : ℕ) → p < parts + 1 → slice_index labels.items p ≡ p) }
{
    let mut labels = Vec::new(alloc);
    for part in 0..=parts {
        labels.push(part)?;
    }
    Ok(labels)
}

// Each label `from` becomes `to`.
fn relabel(labels: &mut [u32], from: u32, to: u32)
    ensures { labels.new ≡ map (relabel_of from to) labels.old }
{
    for label in labels.iter_mut() {
        *label = relabelled(*label, from, to);
    }
}

fn relabelled(label: u32, from: u32, to: u32) -> u32
    ensures { result ≡ relabel_of from to label }
{
    if label == from { to } else { label }
}

/// The least part whose label isn't that of part 1.
pub fn least_apart(parts: u32, labels: &[u32]) -> Option<u32>
    requires { length labels.now ≡ parts + 1 }
    ensures apart { IfSome result (λ p. IsPart parts p) }
    ensures some { IfSome result (λ p. ¬ (slice_index labels.now p ≡ slice_index labels.now 1)) }
    ensures least { IfSome result (λ p. (q : ℕ) → IsPart parts q → q < p → slice_index labels.now q ≡ slice_index labels.now 1) }
    ensures none { IfNone result ((q : ℕ) → IsPart parts q → slice_index labels.now q ≡ slice_index labels.now 1) }
{
    for part in 1..=parts {
        if labels[part as usize] != labels[1] {
            return Some(part);
        }
    }
    None
}
