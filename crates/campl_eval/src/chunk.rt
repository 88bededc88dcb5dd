//! Callers below the topmost, in chunks that are shared.
ghost use Rattle.std.specs.Prelude.{◌≡◌, ◌<◌, ◌++◌, length, reverse, IfOk};
ghost use Rattle.campl_eval.specs.Chunks.{under, Parts};
ghost use Rattle.campl_eval.specs.View.{has_none};

use crate::Frame;
use std::alloc::{AllocError, Global};
use std::marker::Model;
use std::sync::Arc;

/// Some frames, and those below them. Contracts see all of them, the top first.
pub struct Chunk {
    frames: Vec<Frame>,
    below: Option<Arc<Chunk, Global>>,
}

impl Model for Chunk {
    ghost use Rattle.std.specs.Prelude.{List, ◌<◌, ◌++◌, length, reverse};
    ghost use Rattle.campl_eval.specs.declared.machine.Frame.{Frame};

    ghost Value = { List Frame };

    ghost use Rattle.campl_eval.specs.contracts.machine.Frame as frame;
    ghost use Rattle.std.specs.Coded.{coded_list};

    ghost coded = { coded_list frame.the_row.coded };

    ghost use Rattle.campl_eval.specs.Chunks.{under};

    ghost view = { λ chunk. reverse chunk.frames.items ++ under chunk.below };

    ghost invariant = { λ chunk. 0 < length chunk.frames.items };

    ghost size = { length };

    ghost use Rattle.std.proofs.Common.{arith, length-append};
    ghost use Rattle.std.proofs.lemmas.List.{length-reverse};

    ghost size_decreases = { λ chunk h. Prim.grind (arith, length-append, length-reverse) };
}

// Lets the chunks go one by one, since a recursion would be as deep as they are many.
impl Drop for Chunk {
    fn drop(mut self) {
        loop {
            let Chunk { frames, below } = self;
            drop(frames);
            let Some(shared) = below else { return };
            match Arc::into_inner(shared) {
                None => return,
                Some(chunk) => self = chunk,
            }
        }
    }
}

impl Chunk {
    /// These frames, of which there is one at least, on those below.
    pub(crate) fn new(frames: Vec<Frame>, below: Option<Arc<Chunk, Global>>) -> Chunk
        requires { 0 < length frames.items }
        ensures { result ≡ reverse frames.items ++ under below }
    {
        Chunk { frames, below }
    }

    // Whether no frame is in it, which is never so.
    fn is_empty(&self) -> bool
        ensures { result ≡ has_none self.now }
    {
        self.frames.is_empty()
    }

    // The frames, and what is below them.
    fn part(self) -> (Vec<Frame>, Option<Arc<Chunk, Global>>)
        ensures { Parts self result.0.items (under result.1) }
    {
        let Chunk { frames, below } = self;
        (frames, below)
    }

    // The same frames, and what is below them, which is shared. An error means that memory is out.
    fn part_copy(
        &self,
        alloc: Global,
    ) -> Result<(Vec<Frame>, Option<Arc<Chunk, Global>>), AllocError>
        ensures { IfOk result (λ parts. Parts self.now parts.0.items (under parts.1)) }
    {
        let below = share(&self.below)?;
        match copies(alloc, self.frames.as_slice()) {
            Err(error) => Err(error),
            Ok(frames) => Ok((frames, below)),
        }
    }
}

/// Whether no frame is in the chunks.
pub(crate) fn are_empty(chunks: &Option<Arc<Chunk, Global>>) -> bool
    ensures { result ≡ has_none (under chunks.now) }
{
    match chunks {
        None => true,
        Some(chunk) => chunk.is_empty(),
    }
}

/// The frames of a chunk, and what is below them: moved where it has one owner. An error means that memory is out.
pub(crate) fn parts(
    alloc: Global,
    chunk: Arc<Chunk, Global>,
) -> Result<(Vec<Frame>, Option<Arc<Chunk, Global>>), AllocError>
    ensures { IfOk result (λ parts. Parts chunk.value parts.0.items (under parts.1)) }
{
    match Arc::try_unwrap(chunk) {
        Ok(chunk) => Ok(chunk.part()),
        Err(shared) => shared.part_copy(alloc),
    }
}

/// The same chunks. An error means that memory is out.
pub(crate) fn share(
    chunks: &Option<Arc<Chunk, Global>>,
) -> Result<Option<Arc<Chunk, Global>>, AllocError>
    ensures { IfOk result (λ shared. under shared ≡ under chunks.now) }
{
    match chunks {
        None => Ok(None),
        Some(chunk) => match Arc::try_clone(chunk) {
            Err(error) => Err(error),
            Ok(shared) => Ok(Some(shared)),
        },
    }
}

/// The same frames. An error means that memory is out.
pub(crate) fn copies(alloc: Global, frames: &[Frame]) -> Result<Vec<Frame>, AllocError>
    ensures { IfOk result (λ copies. copies.items ≡ frames.now) }
{
    let mut copies = Vec::new(alloc);
    for frame in frames {
        match frame.copy(alloc) {
            Err(error) => return Err(error),
            Ok(copy) => copies.push(copy)?,
        }
    }
    Ok(copies)
}
