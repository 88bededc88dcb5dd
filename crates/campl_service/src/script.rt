//! Scripts: the lines that services have still to send.
ghost use Rattle.std.specs.Prelude.{◌≡◌, ◌∷◌, ◌++◌, [], ◌<◌, ◌==◌, IfOk, OnOk, length, replicate, slice_index_or, slice_set};
ghost use Rattle.campl_service.specs.Scripts.{IsFirst, TakesFirst, put_behind};

use crate::text::TextValue;
use std::alloc::{AllocError, Global};
use std::collections::VecDeque;
use std::marker::Model;
use std::mem;

/// The lines that a service has still to send, the next one first. Contracts see the list of them.
#[derive(Drop)]
pub struct Script {
    lines: VecDeque<TextValue>,
}

impl Model for Script {
    ghost use Rattle.campl_service.specs.Scripts.{Lines};
    ghost use Rattle.std.specs.Coded.{coded_list, coded_ℕ};

    ghost Value = { Lines };

    ghost coded = { coded_list (coded_list coded_ℕ) };

    ghost view = { λ script. script.lines.items };
}

impl Script {
    // A script without lines, which takes no memory yet.
    pub(crate) fn empty(alloc: Global) -> Script
        ensures { result ≡ [] }
    {
        Script {
            lines: VecDeque::new(alloc),
        }
    }

    // Puts a line behind the others.
    pub(crate) fn push(&mut self, line: TextValue) -> Result<(), AllocError>
        ensures { OnOk result (self.new ≡ self.old ++ line ∷ []) }
    {
        match self.lines.push_back(line) {
            Ok(()) => Ok(()),
            Err(_) => Err(AllocError),
        }
    }

    // The next line, and `None` where the script is spent.
    pub(crate) fn first(&self) -> Option<&TextValue>
        ensures { IsFirst self.now result }
    {
        self.lines.front()
    }

    // Takes the next line off, and `None` where the script is spent.
    pub(crate) fn take_first(&mut self) -> Option<TextValue>
        ensures { TakesFirst self.old result self.new }
    {
        self.lines.pop_front()
    }
}

/// A script for each service, in the order of `run`'s heading. Contracts see the list of them.
#[derive(Drop)]
pub struct Scripts {
    scripts: Vec<Script>,
    alloc: Global,
}

impl Model for Scripts {
    ghost use Rattle.std.specs.Prelude.{List};
    ghost use Rattle.campl_service.specs.Scripts.{Lines};
    ghost use Rattle.std.specs.Coded.{coded_list, coded_ℕ};

    ghost Value = { List Lines };

    ghost coded = { coded_list (coded_list (coded_list coded_ℕ)) };

    ghost view = { λ s. s.scripts.items };
}

impl Scripts {
    /// So many empty scripts. An error means that memory is out.
    pub fn none(alloc: Global, count: u32) -> Result<Scripts, AllocError>
        ensures { IfOk result (λ scripts. scripts ≡ replicate count []) }
    {
        Scripts::empty(alloc, count as usize)
    }

    // The same of a number of names.
    pub(crate) fn empty(alloc: Global, count: usize) -> Result<Scripts, AllocError>
        ensures { IfOk result (λ scripts. scripts ≡ replicate count []) }
    {
        let mut scripts = Vec::new(alloc);
        for _ in 0..count {
            scripts.push(Script::empty(alloc))?;
        }
        Ok(Scripts { scripts, alloc })
    }

    // Puts a line behind the others of the script of this number, from 0.
    pub(crate) fn push_line(&mut self, i: usize, line: TextValue) -> Result<(), AllocError>
        requires { i < length self.old }
        ensures put { OnOk result (self.new ≡ put_behind i line self.old) }
        ensures all { length self.new ≡ length self.old }
    {
        self.scripts[i].push(line)
    }

    /// How many scripts there are.
    pub fn len(&self) -> usize
        ensures { result ≡ length self.now }
    {
        self.scripts.len()
    }

    /// Whether there is none.
    pub fn is_empty(&self) -> bool
        ensures { result ≡ (length self.now == 0) }
    {
        self.scripts.is_empty()
    }

    /// The script of this number, from 0. An empty one stands there afterwards. It takes no memory.
    pub fn take(&mut self, i: u32) -> Script
        requires { i < length self.old }
        ensures taken { result ≡ slice_index_or self.old i [] }
        ensures left { self.new ≡ slice_set self.old i [] }
    {
        mem::replace(&mut self.scripts[i as usize], Script::empty(self.alloc))
    }
}
