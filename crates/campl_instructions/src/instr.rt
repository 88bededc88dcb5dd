//! Instructions.
use campl_tree::{Arithmetic, Comparison, Side};
use sqlite_items::Items;

/// What an instruction `op` makes of the top values.
#[derive(Clone, Copy, Debug, PartialEq, Eq)]
pub enum Operation {
    Calculate(Arithmetic),
    Compare(Comparison),
    Negate,
    Append,
    /// A character's number.
    CodeOf,
    /// A number's character.
    CharOf,
}

/// An instruction. Variables, channels, blocks and decisions go by their numbers, and a place is that of an instruction in the
/// same block; each is below 2^32.
pub enum Instr {
    Int(i64),
    Char(char),
    Truth(bool),
    Nil,
    /// A text, by its characters.
    Text(Items<char>),
    /// A variable's value.
    Load(u32),
    Cons,
    Pair,
    /// A constructor's number and its number of parts.
    Build(u32, u32),
    Op(Operation),
    Jump(u32),
    /// Goes to the place where the top is False.
    Unless(u32),
    /// Calls a function with the top values.
    Call(u32),
    /// The decision, the first variable that the row sets, and a place for each row.
    Match(u32, u32, Items<u32>),
    /// Ends a function with the top value.
    Return,
    /// The same as `Match`, as a step of a process.
    Case(u32, u32, Items<u32>),
    /// Puts the top value on the channel.
    Put(u32),
    /// The channel, and the variable that it sets.
    Get(u32, u32),
    /// The channel, and a constructor's number.
    Pick(u32, u32),
    /// The channel, and the two new ones.
    Split(u32, u32, u32),
    Close(u32),
    /// The channel, and a place for each constructor.
    Offer(u32, Items<u32>),
    /// The channel, the new one of each of the two, and the child's place.
    Fork(u32, u32, u32, u32),
    /// The channel that ends with the process, where it has one.
    Halt(Option<u32>),
    Link(u32, u32),
    LinkNeg(u32, u32),
    /// A new channel, the side of the child's half, and the child's place.
    Peel(u32, Side, u32),
    /// A place for each branch.
    Race(Items<u32>),
    /// Calls a process with the channels for its inputs and then its outputs.
    Go(u32, Items<u32>),
}

impl Drop for Instr {
    fn drop(self) {
        match self {
            Instr::Text(text) => drop(text),
            Instr::Match(_, _, places) | Instr::Case(_, _, places) => drop(places),
            Instr::Offer(_, places) => drop(places),
            Instr::Race(places) => drop(places),
            Instr::Go(_, channels) => drop(channels),
            Instr::Int(_)
            | Instr::Char(_)
            | Instr::Truth(_)
            | Instr::Nil
            | Instr::Load(_)
            | Instr::Cons
            | Instr::Pair
            | Instr::Build(_, _)
            | Instr::Op(_)
            | Instr::Jump(_)
            | Instr::Unless(_)
            | Instr::Call(_)
            | Instr::Return
            | Instr::Put(_)
            | Instr::Get(_, _)
            | Instr::Pick(_, _)
            | Instr::Split(_, _, _)
            | Instr::Close(_)
            | Instr::Fork(_, _, _, _)
            | Instr::Halt(_)
            | Instr::Link(_, _)
            | Instr::LinkNeg(_, _)
            | Instr::Peel(_, _, _) => {}
        }
    }
}
