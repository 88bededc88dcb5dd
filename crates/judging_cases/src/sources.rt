//! Sources and their worlds.
use crate::ends::print_ends;
use crate::trees::tree_of;
use anyhow::{Context, Result};
use campl_names::{World, declare};
use campl_shown::chan_text;
use campl_text::Text;
use campl_tree::{Decl, Ident, Name, SeqType};
use std::alloc::{AllocError, Global};
use std::io::Write;

// So many declarations are the prelude's.
const PRELUDE: usize = 2;

/// Prints what is answered of each source of a text.
pub fn print_sources(alloc: Global, text: &Text, out: &mut impl Write) -> Result<()> {
    let cases = text.as_str().strip_prefix("== ").context("no case")?;
    for case in cases.split("\n== ") {
        let (name, source) = case.split_once('\n').context("a case has no source")?;
        writeln!(out, "== {name}")?;
        print_source(alloc, source, out)?;
    }
    Ok(())
}

fn print_source(alloc: Global, source: &str, out: &mut impl Write) -> Result<()> {
    match declare(alloc, tree_of(alloc, source)?) {
        Ok(world) => print_world(alloc, &world, out),
        Err(fault) => Ok(writeln!(out, "{fault:?}")?),
    }
}

fn print_world(alloc: Global, world: &World, out: &mut impl Write) -> Result<()> {
    let services = world.services();
    print_names("inputs", services.inputs, out)?;
    print_names("outputs", services.outputs, out)?;
    for declaration in world.declarations().iter().skip(PRELUDE) {
        print_declaration(alloc, world, declaration, out)?;
    }
    for name in ["ConsolePut", "StringTerminalClose", "Unknown"] {
        print_rest(alloc, world, &Name::of(alloc, name)?, 0, out)?;
    }
    Ok(())
}

// The services of one side.
fn print_names(side: &str, names: &[Ident], out: &mut impl Write) -> Result<()> {
    write!(out, "{side}:")?;
    for ident in names {
        write!(out, " {}", ident.name)?;
    }
    Ok(writeln!(out)?)
}

fn print_declaration(
    alloc: Global,
    world: &World,
    declaration: &Decl,
    out: &mut impl Write,
) -> Result<()> {
    match declaration {
        Decl::Data(d) => {
            for line in d.constructors.as_slice() {
                print_rest(alloc, world, &line.name.name, d.parameters.len(), out)?;
            }
            Ok(())
        }
        Decl::Protocol(d) => {
            for line in d.constructors.as_slice() {
                print_rest(alloc, world, &line.name.name, d.parameters.len(), out)?;
            }
            Ok(())
        }
        Decl::Coprotocol(d) => {
            for line in d.constructors.as_slice() {
                print_rest(alloc, world, &line.name.name, d.parameters.len(), out)?;
            }
            Ok(())
        }
        Decl::Function(_) => Ok(()),
        Decl::Process(d) => print_ends(alloc, world, d, out),
    }
}

// What remains behind a constructor.
fn print_rest(
    alloc: Global,
    world: &World,
    constructor: &Name,
    parameters: usize,
    out: &mut impl Write,
) -> Result<()> {
    let arguments = integers(alloc, parameters)?;
    match world.after(alloc, constructor, &arguments)? {
        Some(t) => Ok(writeln!(out, "behind {constructor}: {}", chan_text(alloc, &t)?)?),
        None => Ok(writeln!(out, "behind {constructor}: nothing")?),
    }
}

fn integers(alloc: Global, count: usize) -> Result<Vec<SeqType>, AllocError> {
    let mut types = Vec::new(alloc);
    for _ in 0..count {
        types.push(SeqType::Int)?;
    }
    Ok(types)
}
