//! The order in which a plug's parts are peeled: breadth first, from part 1.
//!
//! The parts have the numbers 1 to k, and each [`Link`] joins two of them. Where they form a tree,
//! [`tree_order`] gives them by their distance from part 1, then in order of their predecessor, then by number.
//! Otherwise [`PlugFault`] names the first link that closes a cycle or the least part that isn't reached. The
//! links 1-3 and 3-2 give
//!
//! ```text
//! tree_order(alloc, 3, &links) == Ok([1, 3, 2])
//! ```
//!
//! Links and faults stand in `plug`, the labels that tell joined parts in `labels`, the search in `search`,
//! and both come together in `tree`. `laws` says what the definitions have to do with one another: a tree is
//! the same as parts that are reached and links without a cycle, its order is the only one, and each part but
//! the first has exactly one link to the parts before it, so that the last can be peeled off. Order and first fault are also
//! functions that compute, in `specs/TreeOrder` and `specs/FirstFault`.
#![tactic(auto)]

mod labels;
mod laws;
mod plug;
mod search;
mod tree;

pub use laws::{
    law_fault_computes, law_faults_are_one, law_order_computes, law_orders_are_one,
    law_parts_have_one_link_back, law_trees_have_no_cycle, law_trees_have_no_fault,
};
pub use plug::{Link, PlugFault};
pub use tree::tree_order;
