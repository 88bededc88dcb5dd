//! Frames on one another.
ghost use Rattle.std.specs.Prelude.{◌≡◌, ◌≤◌, ◌++◌, [], ◌∷◌, length, reverse, IfOk, IfSome, IsSome, OnOk, MatchOption};
ghost use Rattle.campl_eval.specs.Chunks.{under};
ghost use Rattle.campl_eval.specs.View.{has_none};

use crate::Frame;
use crate::chunk::{Chunk, are_empty, copies, parts, share};
use std::alloc::{AllocError, Global};
use std::marker::Model;
use std::sync::Arc;

// So many frames may be topmost, and a copy copies no more. Before one more comes, the lower `HALF` of them go below.
const MOST: usize = 64;

const HALF: usize = 32;

/// Frames on one another, of which copies share all but the topmost. Contracts see the top first.
#[derive(Drop)]
pub struct Stack {
    top: Vec<Frame>,
    below: Option<Arc<Chunk, Global>>,
}

impl Model for Stack {
    ghost use Rattle.std.specs.Prelude.{List, ◌++◌, reverse};
    ghost use Rattle.campl_eval.specs.declared.machine.Frame.{Frame};
    ghost use Rattle.campl_eval.specs.Chunks.{under};

    ghost Value = { List Frame };

    ghost use Rattle.campl_eval.specs.contracts.machine.Frame as frame;
    ghost use Rattle.std.specs.Coded.{coded_list};

    ghost coded = { coded_list frame.the_row.coded };

    ghost view = { λ stack. reverse stack.top.items ++ under stack.below };
}

impl Stack {
    /// An empty stack. It takes no memory.
    pub fn new(alloc: Global) -> Stack
        ensures { result ≡ [] }
    {
        Stack {
            top: Vec::new(alloc),
            below: None,
        }
    }

    /// Whether nothing is on it.
    pub fn is_empty(&self) -> bool
        ensures { result ≡ has_none self.now }
    {
        self.top.is_empty() && are_empty(&self.below)
    }

    /// The same frames. An error means that memory is out.
    pub fn copy(&self, alloc: Global) -> Result<Stack, AllocError>
        ensures { IfOk result (λ copy. copy ≡ self.now) }
    {
        let below = match share(&self.below) {
            Err(error) => return Err(error),
            Ok(below) => below,
        };
        match copies(alloc, self.top.as_slice()) {
            Err(error) => Err(error),
            Ok(top) => Ok(Stack { top, below }),
        }
    }

    /// Puts this on top. An error means that memory is out.
    #[inline]
    pub fn push(&mut self, frame: Frame) -> Result<(), AllocError>
        ensures { OnOk result (self.new ≡ frame ∷ self.old) }
    {
        self.top.push(frame)?;
        Ok(())
    }

    /// Keeps the topmost few, so that a copy takes little time: to be called before each push. An error means that memory is out.
    #[inline]
    pub fn stay_light(&mut self, alloc: Global) -> Result<(), AllocError>
        ensures { OnOk result (self.new ≡ self.old) }
    {
        if self.top.len() < MOST {
            return Ok(());
        }
        lower(alloc, &mut self.top, &mut self.below)
    }

    /// Takes the top, where it is one of the topmost. Without one, the stack is as it was.
    #[inline]
    pub fn pop_near(&mut self) -> Option<Frame>
        ensures { MatchOption result (self.new ≡ self.old) (λ top. self.old ≡ top ∷ self.new) }
    {
        self.top.pop()
    }

    /// Takes the top, where there is one. An error means that memory is out.
    pub fn pop(&mut self, alloc: Global) -> Result<Option<Frame>, AllocError>
        ensures { IfOk result (λ top. MatchOption top ((self.old ≡ []) × (self.new ≡ [])) (λ frame. self.old ≡ frame ∷ self.new)) }
    {
        match self.top.pop() {
            Some(frame) => Ok(Some(frame)),
            None => match self.below.take() {
                None => Ok(None),
                Some(chunk) => raise(alloc, chunk, &mut self.top, &mut self.below),
            },
        }
    }
}

// The lower `HALF` of the topmost go below. An error means that memory is out.
#[cold]
#[inline(never)]
fn lower(
    alloc: Global,
    top: &mut Vec<Frame>,
    below: &mut Option<Arc<Chunk, Global>>,
) -> Result<(), AllocError>
    requires { HALF ≤ length top.old.items }
    ensures { OnOk result (reverse top.new.items ++ under below.new ≡ reverse top.old.items ++ under below.old) }
{
    let kept = top.len() - HALF;
    top.rotate_left(HALF);
    let frames = top.split_off(kept)?;
    let chunk = Arc::new(alloc, Chunk::new(frames, below.take()))?;
    *below = Some(chunk);
    Ok(())
}

// A chunk's frames become the topmost, and the top is taken. An error means that memory is out.
fn raise(
    alloc: Global,
    chunk: Arc<Chunk, Global>,
    top: &mut Vec<Frame>,
    below: &mut Option<Arc<Chunk, Global>>,
) -> Result<Option<Frame>, AllocError>
    ensures same { IfOk result (λ frame. IfSome frame (λ frame. chunk.value ≡ frame ∷ reverse top.new.items ++ under below.new)) }
    ensures some { IfOk result (λ frame. IsSome frame) }
{
    let (frames, rest) = parts(alloc, chunk)?;
    *top = frames;
    *below = rest;
    Ok(top.pop())
}
