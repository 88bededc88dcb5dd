//! From a source to its world.
use anyhow::{Result, bail};
use campl_lex::{end_of, layout, lex};
use campl_names::{World, declare};
use campl_parse::parse;
use campl_text::Text;
use campl_tree::Program;
use std::alloc::Global;

/// The longest source that the command takes, in bytes.
const SOURCE_LIMIT: u64 = 1_048_576;

/// The world of a source that is well declared.
pub fn world_of(alloc: Global, source: &str) -> Result<World> {
    let program = tree_of(alloc, source)?;
    match declare(alloc, program) {
        Ok(world) => Ok(world),
        Err(_) => bail!("a source isn't well declared"),
    }
}

// The tree of a source that has one.
#[tactic(auto, using(campl_terminals::proofs::Cuts::laid_cut))]
fn tree_of(alloc: Global, source: &str) -> Result<Program> {
    if source.len() as u64 > SOURCE_LIMIT {
        bail!("a source is too long");
    }
    let text = Text::of(alloc, source)?;
    // What the proof knows of a text's bytes is that of its `&str`.
    let _known = text.as_str();
    let Ok(tokens) = lex(alloc, &text) else {
        bail!("a source has no tokens");
    };
    let Ok(laid) = layout(alloc, &text, &tokens, end_of(&text)) else {
        bail!("a source has no layout");
    };
    match parse(alloc, &text, &laid) {
        Ok(program) => Ok(program),
        Err(_) => bail!("a source has no tree"),
    }
}
