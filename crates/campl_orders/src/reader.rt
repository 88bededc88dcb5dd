//! Reads the words behind the first, one after another.
ghost use Rattle.std.specs.Prelude.{◌≡◌, option_map};
ghost use Rattle.campl_orders.specs.declared.reader.State.{State};
ghost use Rattle.campl_orders.specs.Reading.{fills, finished, given, met, nothing, read, stands};

use crate::found::{Found, Slot, option_named};

/// What the next word is read as.
#[derive(Clone, Copy)]
pub enum State {
    /// An operand, an option, or `--`.
    Open,
    /// The value of an option.
    Awaits(Slot),
    /// An operand, behind `--`.
    Closed,
}

/// What is found so far, and what the next word is read as.
#[derive(Clone, Copy)]
pub struct Reader<'a> {
    pub found: Found<'a>,
    pub state: State,
}

impl<'a> Reader<'a> {
    /// Nothing is read yet.
    pub fn new() -> Reader<'a>
        ensures { stands result ≡ (nothing, State.Open) }
    {
        Reader {
            found: Found {
                operand: None,
                script: None,
                steps: None,
                workers: None,
            },
            state: State::Open,
        }
    }

    /// Behind one more word.
    pub fn read(self, word: &'a str) -> Option<Reader<'a>>
        ensures { option_map stands result ≡ read self.entry.state word.entry.now (given self.entry.found) }
    {
        match self.state {
            State::Open => self.meet(word),
            State::Awaits(slot) => self.fill(slot, word, State::Open),
            State::Closed => self.fill(Slot::Operand, word, State::Closed),
        }
    }

    /// What is found, where no option awaits its value.
    pub fn finish(self) -> Option<Found<'a>>
        ensures { option_map given result ≡ finished (stands self.entry) }
    {
        match self.state {
            State::Open | State::Closed => Some(self.found),
            State::Awaits(_) => None,
        }
    }

    // Behind a word before any `--`, where no option awaits its value.
    fn meet(self, word: &'a str) -> Option<Reader<'a>>
        ensures { option_map stands result ≡ met word.entry.now (given self.entry.found) }
    {
        if word == "--" {
            return Some(self.turned(State::Closed));
        }
        match word.split_once('=') {
            Some((name, value)) => match option_named(name) {
                Some(slot) => self.fill(slot, value, State::Open),
                None => self.fill(Slot::Operand, word, State::Open),
            },
            None => match option_named(word) {
                Some(slot) => Some(self.turned(State::Awaits(slot))),
                None => self.fill(Slot::Operand, word, State::Open),
            },
        }
    }

    // With a value put in its slot, and in this state.
    fn fill(self, slot: Slot, value: &'a str, state: State) -> Option<Reader<'a>>
        ensures { option_map stands result ≡ fills slot value.entry.now state (given self.entry.found) }
    {
        match self.found.put(slot, value) {
            Some(found) => Some(Reader { found, state }),
            None => None,
        }
    }

    // The same in another state.
    fn turned(self, state: State) -> Reader<'a>
        ensures { stands result ≡ (given self.entry.found, state) }
    {
        Reader {
            found: self.found,
            state,
        }
    }
}
