//! From a source to its world.
ghost use Rattle.std.specs.Prelude.{IfOk, map};
ghost use Rattle.campl_tree.specs.View.{view_decl};
ghost use Rattle.campl_cli.specs.Source.{IsAcceptedWorld};

use anyhow::{Result, bail};
use campl_cli::{SOURCE_LIMIT, judged, tree_of};
use campl_names::World;
use campl_text::Text;
use campl_tree::Program;
use std::alloc::Global;

/// The world of a source that is accepted.
pub fn world_of(alloc: Global, source: &str) -> Result<World>
    ensures { IfOk result (λ world. IsAcceptedWorld (map view_decl world)) }
{
    if source.len() as u64 > SOURCE_LIMIT {
        bail!("a source is too long");
    }
    let text = Text::of(alloc, source)?;
    match tree_of(alloc, &text) {
        Ok(program) => world_of_tree(alloc, program),
        Err(_) => bail!("a source has no tree"),
    }
}

fn world_of_tree(alloc: Global, program: Program) -> Result<World>
    ensures { IfOk result (λ world. IsAcceptedWorld (map view_decl world)) }
{
    match judged(alloc, program) {
        Ok(world) => Ok(world),
        Err(_) => bail!("a source isn't accepted"),
    }
}
