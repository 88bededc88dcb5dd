// A value: a tree with its depth, whose parts are shared.
ghost use Rattle.std.specs.Prelude.{◌≡◌, ◌+◌, ◌<◌, ◌≤◌, IfOk, IfSome, SomeIff, length};
ghost use Rattle.campl_value.specs.Tree.{Tree, Int, Char, Truth, Nil, Cell, Pair, built, depth_of, trees_of, deepest_of};
ghost use Rattle.campl_value.specs.List.{letters};
ghost use Rattle.campl_value.specs.Made.{IsMade, Looks};
ghost use Rattle.campl_value.specs.View.{letters_from, HasLetterAt, IsRest};

use std::alloc::{AllocError, Global};
use std::marker::Model;
use std::sync::Arc;

/// The greatest depth of a value. Making a deeper one answers [`Made::TooDeep`].
pub const MAX_DEPTH: u32 = 4096;

/// A value that a program computes with. It never changes, may be used from any thread, and is dropped
/// within 2 MiB of stack however deep it is.
#[cycle(value)]
#[derive(Drop)]
pub struct Value {
    depth: u32,
    node: Node,
}

#[cycle(value)]
#[derive(Drop)]
enum Node {
    Int(i64),
    Char(char),
    Truth(bool),
    Nil,
    Cell(Arc<(Value, Value), Global>),
    // A cell for each character of the letters from this place on, of which there is one at least.
    Text(u32, Arc<Letters, Global>),
    Pair(Arc<(Value, Value), Global>),
    Built(u32, Arc<Vec<Value>, Global>),
}

// Characters in a row, and what is behind the last.
#[cycle(value)]
#[derive(Drop)]
struct Letters {
    characters: Vec<char>,
    behind: Value,
}

impl Model for Value {
    ghost use Rattle.std.specs.Prelude.{◌≡◌, ◌≤◌};
    ghost use Rattle.campl_value.specs.Tree.{Tree, tree_code, depth_of};
    ghost use Rattle.campl_value.specs.declared.value.TheConstants.{MAX_DEPTH};

    ghost Value = { Tree };

    ghost coded = { tree_code };

    ghost use Rattle.campl_value.specs.View.{tree_of, HasLetter};

    ghost view = { λ a. tree_of a.node };

    ghost invariant = { λ a. (a.depth ≡ depth_of (tree_of a.node)) × (a.depth ≤ MAX_DEPTH) × HasLetter a.node };

    ghost size = { depth_of };

    ghost use Rattle.campl_value.specs.Falls.{depth_falls};

    ghost size_decreases = { λ a h. depth_falls a.node h.2 };
}

/// What making a value gives: the value, or that it would be deeper than [`MAX_DEPTH`].
#[derive(Drop)]
pub enum Made {
    Is(Value),
    TooDeep,
}

/// The top of a value, with its parts.
#[derive(Drop)]
pub enum Look<'a> {
    Int(i64),
    Char(char),
    Truth(bool),
    Nil,
    /// A list's head and tail.
    Cell(Part<'a>, Part<'a>),
    Pair(&'a Value, &'a Value),
    /// A constructor's number and its parts, in order.
    Built(u32, &'a [Value]),
}

/// A value inside another, as contracts see it: a tree. It is lent, or it is a character or the rest of a text, which no
/// value of its own stands for.
#[derive(Drop)]
pub struct Part<'a> {
    place: Place<'a>,
}

#[derive(Drop)]
enum Place<'a> {
    Lent(&'a Value),
    Letter(char),
    // What has this depth, from this letter on.
    Rest(u32, u32, &'a Arc<Letters, Global>),
}

impl<'a> Model for Part<'a> {
    ghost use Rattle.campl_value.specs.Tree.{Tree, tree_code};

    ghost Value = { Tree };

    ghost coded = { tree_code };

    ghost use Rattle.campl_value.specs.View.{tree_at, IsPlace};

    ghost view = { λ a. tree_at a.place };

    ghost invariant = { λ a. IsPlace a.place };
}

impl<'a> Part<'a> {
    /// How many levels the part has, as `Value::depth` says.
    pub fn depth(&self) -> u32
        ensures same { result ≡ depth_of self.now }
        ensures at_most { result ≤ MAX_DEPTH }
    {
        match &self.place {
            Place::Lent(value) => value.depth(),
            Place::Letter(_) => 1,
            Place::Rest(depth, _, _) => *depth,
        }
    }

    /// The top of the part.
    pub fn look(&self) -> Look<'a>
        ensures { Looks self.now result }
    {
        match &self.place {
            Place::Lent(value) => value.look(),
            Place::Letter(c) => Look::Char(*c),
            Place::Rest(depth, from, text) => look_at(*depth, *from, text),
        }
    }

    // The letters that stand in one row at the front of a text, and what is behind them, where they do. `None` says
    // nothing: `look` tells what is there.
    pub(crate) fn row(&self) -> Option<(&'a [char], &'a Value)>
        ensures { IfSome result (λ row. (self.now ≡ letters row.0.now row.1.now) × (0 < length row.0.now)) }
    {
        match &self.place {
            Place::Lent(value) => value.row(),
            Place::Letter(_) => None,
            Place::Rest(_, from, text) => Some(row_at(*from, text)),
        }
    }

    /// An equal value, which shares its parts with this one. An error means that memory is out.
    pub fn copy(&self) -> Result<Value, AllocError>
        ensures { IfOk result (λ copy. copy ≡ self.now) }
    {
        match &self.place {
            Place::Lent(value) => value.copy(),
            Place::Letter(c) => Ok(Value::character(*c)),
            Place::Rest(depth, from, text) => {
                let text = Arc::try_clone(text)?;
                Ok(Value {
                    depth: *depth,
                    node: Node::Text(*from, text),
                })
            }
        }
    }
}

// What takes no memory.
impl Value {
    /// The integer `n`.
    pub fn int(n: i64) -> Value
        ensures { result ≡ Int n }
    {
        Value {
            depth: 1,
            node: Node::Int(n),
        }
    }

    /// The character `c`.
    pub fn character(c: char) -> Value
        ensures { result ≡ Char c }
    {
        Value {
            depth: 1,
            node: Node::Char(c),
        }
    }

    /// The truth `b`.
    pub fn truth(b: bool) -> Value
        ensures { result ≡ Truth b }
    {
        Value {
            depth: 1,
            node: Node::Truth(b),
        }
    }

    /// The empty list.
    pub fn nil() -> Value
        ensures { result ≡ Nil }
    {
        Value {
            depth: 1,
            node: Node::Nil,
        }
    }

    /// How many levels the value has: 1 for what has no parts, and at most [`MAX_DEPTH`].
    pub fn depth(&self) -> u32
        ensures same { result ≡ depth_of self.now }
        ensures at_most { result ≤ MAX_DEPTH }
    {
        self.depth
    }

    /// The whole value as a part.
    pub fn part(&self) -> Part<'_>
        ensures { result ≡ self.now }
    {
        Part {
            place: Place::Lent(self),
        }
    }

    /// The top of the value.
    pub fn look(&self) -> Look<'_>
        ensures { Looks self.now result }
    {
        match &self.node {
            Node::Int(n) => Look::Int(*n),
            Node::Char(c) => Look::Char(*c),
            Node::Truth(b) => Look::Truth(*b),
            Node::Nil => Look::Nil,
            Node::Cell(parts) => Look::Cell(parts.0.part(), parts.1.part()),
            Node::Text(from, text) => look_at(self.depth, *from, text),
            Node::Pair(parts) => Look::Pair(&parts.0, &parts.1),
            Node::Built(constructor, parts) => Look::Built(*constructor, parts.as_slice()),
        }
    }
}

impl Value {
    // The letters of a text in a row, as `Part::row` gives them.
    fn row(&self) -> Option<(&[char], &Value)>
        ensures { IfSome result (λ row. (self.now ≡ letters row.0.now row.1.now) × (0 < length row.0.now)) }
    {
        match &self.node {
            Node::Text(from, text) => Some(row_at(*from, text)),
            _ => None,
        }
    }
}

// What may want memory.
impl Value {
    /// An equal value, which shares its parts with this one. An error means that memory is out.
    #[inline]
    pub fn copy(&self) -> Result<Value, AllocError>
        ensures { IfOk result (λ copy. copy ≡ self.now) }
    {
        let node = match &self.node {
            Node::Int(n) => Node::Int(*n),
            Node::Char(c) => Node::Char(*c),
            Node::Truth(b) => Node::Truth(*b),
            Node::Nil => Node::Nil,
            Node::Cell(parts) => Node::Cell(Arc::try_clone(parts)?),
            Node::Text(from, text) => Node::Text(*from, Arc::try_clone(text)?),
            Node::Pair(parts) => Node::Pair(Arc::try_clone(parts)?),
            Node::Built(constructor, parts) => Node::Built(*constructor, Arc::try_clone(parts)?),
        };
        Ok(Value {
            depth: self.depth,
            node,
        })
    }

    /// A cell: the list of `head` and behind it `tail`. An error means that memory is out, and drops both.
    pub fn cell(alloc: Global, head: Value, tail: Value) -> Result<Made, AllocError>
        ensures { IfOk result (λ made. IsMade (Cell head tail) made) }
    {
        let Some(depth) = depth_above(head.depth().max(tail.depth())) else {
            return Ok(Made::TooDeep);
        };
        let parts = Arc::new(alloc, (head, tail))?;
        Ok(Made::Is(Value {
            depth,
            node: Node::Cell(parts),
        }))
    }

    /// These characters in front of `behind`, a cell for each, in one row. An error means that memory is out, and drops both.
    #[tactic(auto, using(crate::specs::Depth::depth_of_letters))]
    pub fn letters(alloc: Global, characters: Vec<char>, behind: Value) -> Result<Made, AllocError>
        ensures { IfOk result (λ made. IsMade (letters characters.items behind) made) }
    {
        if characters.is_empty() {
            return Ok(Made::Is(behind));
        }
        let Some(depth) = depth_in_front(characters.len(), behind.depth()) else {
            return Ok(Made::TooDeep);
        };
        let text = Arc::new(alloc, Letters { characters, behind })?;
        Ok(Made::Is(Value {
            depth,
            node: Node::Text(0, text),
        }))
    }

    /// The pair of `first` and `second`. An error means that memory is out, and drops both.
    pub fn pair(alloc: Global, first: Value, second: Value) -> Result<Made, AllocError>
        ensures { IfOk result (λ made. IsMade (Pair first second) made) }
    {
        let Some(depth) = depth_above(first.depth().max(second.depth())) else {
            return Ok(Made::TooDeep);
        };
        let parts = Arc::new(alloc, (first, second))?;
        Ok(Made::Is(Value {
            depth,
            node: Node::Pair(parts),
        }))
    }

    /// The value of the constructor of this number with these parts, in order. An error means that
    /// memory is out, and drops the parts.
    pub fn construct(alloc: Global, constructor: u32, parts: Vec<Value>) -> Result<Made, AllocError>
        ensures { IfOk result (λ made. IsMade (built constructor parts.items) made) }
    {
        let Some(depth) = depth_above(deepest(parts.as_slice())) else {
            return Ok(Made::TooDeep);
        };
        let parts = Arc::new(alloc, parts)?;
        Ok(Made::Is(Value {
            depth,
            node: Node::Built(constructor, parts),
        }))
    }
}

// The depth of a value whose deepest part has the depth `below`, unless that is too deep.
fn depth_above(below: u32) -> Option<u32>
    ensures { SomeIff result (below < MAX_DEPTH) (below + 1) }
{
    if below < MAX_DEPTH {
        Some(below + 1)
    } else {
        None
    }
}

// The depth of a value with so many characters in front, unless that is too deep.
fn depth_in_front(characters: usize, behind: u32) -> Option<u32>
    requires { behind ≤ MAX_DEPTH }
    ensures { SomeIff result (characters + behind ≤ MAX_DEPTH) (characters + behind) }
{
    if characters <= (MAX_DEPTH - behind) as usize {
        Some(characters as u32 + behind)
    } else {
        None
    }
}

// The first letter from this place on, and what is behind it. The whole has this depth.
#[tactic(auto, using(crate::specs::Depth::depth_of_letters, crate::specs::Depth::depth_pos, std::proofs::lemmas::List::drop_more))]
fn look_at(depth: u32, from: u32, text: &Arc<Letters, Global>) -> Look<'_>
    requires { IsRest depth from text.now.value }
    ensures { Looks (letters_from from text.now.value) result }
{
    let first = Part {
        place: Place::Letter(text.characters[from as usize]),
    };
    let next = from + 1;
    let behind = if (next as usize) < text.characters.len() {
        Part {
            place: Place::Rest(depth - 1, next, text),
        }
    } else {
        text.behind.part()
    };
    Look::Cell(first, behind)
}

// The letters from this place on, and what is behind them.
fn row_at(from: u32, text: &Arc<Letters, Global>) -> (&[char], &Value)
    requires { HasLetterAt from text.now.value }
    ensures same { letters_from from text.now.value ≡ letters result.0.now result.1.now }
    ensures some { 0 < length result.0.now }
{
    (&text.characters.as_slice()[from as usize..], &text.behind)
}

// The depth of the deepest of these, and 0 where there is none.
fn deepest(parts: &[Value]) -> u32
    ensures same { result ≡ deepest_of (trees_of parts.now) }
    ensures at_most { result ≤ MAX_DEPTH }
{
    let mut below = 0;
    for part in parts {
        below = part.depth().max(below);
    }
    below
}
