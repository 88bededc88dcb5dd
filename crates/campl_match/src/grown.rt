//! The tree of a decision, as it grows.
ghost use Rattle.std.specs.Prelude.{◌≡◌, ◌+◌, ◌∷◌, ◌++◌, [], List, IfOk, OnOk, drop, reverse, suc};
ghost use Rattle.campl_code.specs.Decisions.{Choice, Fail, Row, Test};
ghost use Rattle.campl_instructions.specs.View.{view_head, root};
ghost use Rattle.campl_match.specs.Growing.{newest, trees};

use crate::asked::Asked;
use crate::flat::Flat;
use campl_instructions::{Node, Spot};
use sqlite_items::Items;
use std::alloc::{AllocError, Global};

/// Whole trees, each in a run of nodes with its root last, so that both of a test's trees stand before it.
#[derive(Drop)]
pub(crate) struct Grown {
    nodes: Vec<Node>,
    /// How many nodes each tree has.
    sizes: Items<u32>,
}

impl Grown {
    /// No tree.
    pub(crate) fn new(alloc: Global) -> Grown
        ensures { trees result ≡ [] }
    {
        Grown {
            nodes: Vec::new(alloc),
            sizes: Items::new(alloc),
        }
    }

    /// A tree that finds no row.
    pub(crate) fn fail(&mut self) -> Result<(), AllocError>
        ensures { OnOk result (trees self.new ≡ Fail ∷ trees self.old) }
    {
        self.add(Node::Fail, 1)
    }

    /// A tree that finds this row.
    pub(crate) fn row(&mut self, alloc: Global, row: &Flat) -> Result<(), AllocError>
        ensures { OnOk result (trees self.new ≡ Row row.now.number row.now.spots ∷ trees self.old) }
    {
        match copies(alloc, row.spots.as_slice()) {
            Ok(spots) => self.add(Node::Row(row.number, spots), 1),
            Err(error) => Err(error),
        }
    }

    /// A test whose trees, the newest two, become parts of its own: that for yes is the newest.
    pub(crate) fn join(&mut self, alloc: Global, asked: &Asked) -> Result<(), AllocError>
        ensures { OnOk result ((fit other : Choice) (more : List Choice) → trees self.old ≡ fit ∷ other ∷ more
            → trees self.new ≡ Test asked.now.spot (view_head asked.now.head) fit other ∷ more) }
    {
        let spot = Items::from_slice(alloc, asked.spot.as_slice())?;
        let fit = self.take_size();
        let other = self.take_size();
        let size = size_of_test(fit, other)?;
        self.add(Node::Test(spot, asked.head, 0, fit), size)?;
        Ok(())
    }

    /// The size of the newest tree, which is counted no longer; 0 where there is none.
    #[tactic(auto, using(crate::proofs::Trees::pushing))]
    fn take_size(&mut self) -> u32
        ensures size { result ≡ newest (reverse self.old.sizes) }
        ensures left { reverse self.new.sizes ≡ drop 1 (reverse self.old.sizes) }
        ensures nodes { self.new.nodes ≡ self.old.nodes }
    {
        match self.sizes.pop() {
            None => 0,
            Some(size) => size,
        }
    }

    /// A root, with the size of its tree.
    fn add(&mut self, node: Node, size: u32) -> Result<(), AllocError>
        ensures nodes { OnOk result (self.new.nodes.items ≡ self.old.nodes.items ++ node ∷ []) }
        ensures sizes { OnOk result (self.new.sizes ≡ self.old.sizes ++ size ∷ []) }
    {
        match self.nodes.push(node) {
            Ok(()) => self.sizes.push(size),
            Err(_) => Err(AllocError),
        }
    }

    /// The nodes of the only tree, its root first.
    pub(crate) fn into_nodes(self) -> Items<Node>
        ensures { (tree : Choice) → trees self ≡ tree ∷ [] → root result ≡ tree }
    {
        let mut nodes = self.nodes;
        nodes.reverse();
        Items::from_vec(nodes)
    }
}

/// How many nodes a test has with both of its trees.
fn size_of_test(fit: u32, other: u32) -> Result<u32, AllocError>
    ensures { IfOk result (λ size. size ≡ suc (fit + other)) }
{
    match u32::try_from(fit as u64 + other as u64 + 1) {
        Ok(size) => Ok(size),
        Err(_) => Err(AllocError),
    }
}

/// Second copies of places.
fn copies(alloc: Global, spots: &[Spot]) -> Result<Items<Spot>, AllocError>
    ensures { IfOk result (λ copies. copies ≡ spots.now) }
{
    let mut copies = Items::new(alloc);
    for spot in spots {
        let copy = Items::from_slice(alloc, spot.as_slice())?;
        copies.push(copy)?;
    }
    Ok(copies)
}
