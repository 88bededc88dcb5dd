//! What is open at a place of a source.
ghost use Rattle.std.specs.Prelude.{◌≡◌, [], ◌∷◌, drop, OnOk, OnErr, slice_get};
ghost use Rattle.campl_lex.specs.Enclosure.{nearest, has_bracket, is_block_from, tops};

use std::alloc::{AllocError, Global};
use std::marker::Model;

/// A block with its column, or a bracket with the column of the block in which it stands.
#[derive(Clone, Copy, Debug, PartialEq, Eq)]
pub enum Enclosure {
    Block(u32),
    Bracket(u32),
}

/// The open blocks and brackets. Contracts see them as a list, the last opened first.
#[derive(Drop)]
pub struct Stack {
    enclosures: Vec<Enclosure>,
    /// How many of them are brackets.
    brackets: usize,
}

impl Model for Stack {
    ghost use Rattle.std.specs.Prelude.{◌≡◌, List, reverse};
    ghost use Rattle.std.specs.List.{count_by};
    ghost use Rattle.campl_lex.specs.declared.stack.Enclosure.{Enclosure};
    ghost use Rattle.campl_lex.specs.Enclosure.{is_bracket};

    ghost Value = { List Enclosure };

    ghost view = { λ s. reverse s.enclosures.items };

    ghost invariant = { λ s. s.brackets ≡ count_by is_bracket (reverse s.enclosures.items) };
}

impl Stack {
    pub fn new(alloc: Global) -> Stack
        ensures { result ≡ [] }
    {
        Stack {
            enclosures: Vec::new(alloc),
            brackets: 0,
        }
    }

    pub fn push(&mut self, enclosure: Enclosure) -> Result<(), AllocError>
        ensures ok { OnOk result (self.new ≡ enclosure ∷ self.old) }
        ensures err { OnErr result (self.new ≡ self.old) }
    {
        self.enclosures.push(enclosure)?;
        if let Enclosure::Bracket(_) = enclosure {
            self.brackets += 1;
        }
        Ok(())
    }

    /// Takes the topmost off.
    pub fn pop(&mut self)
        ensures { self.new ≡ drop 1 self.old }
    {
        if let Some(Enclosure::Bracket(_)) = self.enclosures.pop() {
            self.brackets -= 1;
        }
    }

    pub fn top(&self) -> Option<Enclosure>
        ensures { result ≡ slice_get self.now 0 }
    {
        self.enclosures.last().copied()
    }

    pub fn has_bracket(&self) -> bool
        ensures { result ≡ has_bracket self.now }
    {
        self.brackets > 0
    }

    /// Whether a block of this column or a greater one is topmost.
    pub fn is_block_from(&self, column: u64) -> bool
        ensures { result ≡ tops (is_block_from column) (slice_get self.now 0) }
    {
        match self.top() {
            Some(Enclosure::Block(own)) => column <= u64::from(own),
            _ => false,
        }
    }

    /// The column of the nearest block.
    pub fn nearest(&self) -> u32
        ensures { result ≡ nearest self.now }
    {
        match self.top() {
            Some(Enclosure::Block(column) | Enclosure::Bracket(column)) => column,
            None => 0,
        }
    }
}
