//! Frames that aren't used.
ghost use Rattle.std.specs.Prelude.{◌≡◌, []};

use crate::Frame;
use campl_operands::{Operands, Variables};
use std::alloc::{AllocError, Global};
use std::marker::Model;

/// Frames that aren't used, with their room, so that a call takes no memory after a while. Contracts don't see them.
#[derive(Drop)]
pub struct Spare {
    frames: Vec<Frame>,
}

impl Model for Spare {
    ghost Value = { Unit {0} };

    ghost view = { λ _. tt };
}

impl Spare {
    /// No frames. It takes no memory.
    pub(crate) fn new(alloc: Global) -> Spare {
        Spare {
            frames: Vec::new(alloc),
        }
    }

    /// A frame without variables and operands. It takes no memory.
    pub(crate) fn take(&mut self, alloc: Global) -> Frame
        ensures variables { result.variables ≡ [] }
        ensures operands { result.operands ≡ [] }
    {
        match self.frames.pop() {
            Some(mut frame) => {
                frame.variables.clear();
                frame.operands.clear();
                frame
            }
            None => Frame {
                block: 0,
                at: 0,
                variables: Variables::new(alloc),
                operands: Operands::new(alloc),
            },
        }
    }

    /// Keeps the room of a frame that is done with. An error means that memory is out.
    pub(crate) fn keep(&mut self, mut frame: Frame) -> Result<(), AllocError> {
        frame.variables.clear();
        frame.operands.clear();
        self.frames.push(frame)?;
        Ok(())
    }
}
