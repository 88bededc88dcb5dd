//! Rows, and what their decision finds.
use crate::values::values_of;
use anyhow::{Context, Result, bail};
use campl_instructions::{Decision, Spot};
use campl_match::compile_match;
use campl_names::{LowerRef, World};
use campl_tree::{FunctionDecl, Name};
use campl_value::Value;
use std::alloc::Global;
use std::io::Write;

/// Prints what the decision of the rows of a world's function `rows` finds for each row of its function `values`.
pub fn print_rows(alloc: Global, world: &World, out: &mut impl Write) -> Result<()> {
    let rows = function_named(alloc, world, "rows")?;
    let values = function_named(alloc, world, "values")?;
    let decision = decision_of(alloc, world, rows)?;
    print_decision(alloc, world, &decision, values, out)
}

fn function_named<'w>(alloc: Global, world: &'w World, name: &str) -> Result<&'w FunctionDecl> {
    let name = Name::of(alloc, name)?;
    match world.lower_named(&name) {
        Some(LowerRef::Function(f)) => Ok(f),
        _ => bail!("a case has no such function"),
    }
}

// The decision of a function's rows.
fn decision_of(alloc: Global, world: &World, f: &FunctionDecl) -> Result<Decision> {
    let Ok(width) = u32::try_from(f.parameters.len()) else {
        bail!("too many parameters");
    };
    Ok(compile_match(alloc, world, width, f.rows.as_slice())?)
}

fn print_decision(
    alloc: Global,
    world: &World,
    decision: &Decision,
    values: &FunctionDecl,
    out: &mut impl Write,
) -> Result<()> {
    writeln!(out, "{} nodes", decision.nodes.len())?;
    for row in values.rows.as_slice() {
        match values_of(alloc, world, row.patterns.as_slice()) {
            Some(values) => print_found(decision, &values, out)?,
            None => bail!("a row is no list of values"),
        }
    }
    Ok(())
}

fn print_found(decision: &Decision, values: &[Value], out: &mut impl Write) -> Result<()> {
    match decision.find(values) {
        None => Ok(writeln!(out, "no row")?),
        Some((row, spots)) => print_row(row, spots, out),
    }
}

// A row's number, and the places of its variables.
fn print_row(row: u32, spots: &[Spot], out: &mut impl Write) -> Result<()> {
    write!(out, "row {row}")?;
    for spot in spots {
        print_spot(spot.as_slice(), out)?;
    }
    Ok(writeln!(out)?)
}

// A value's number, and then numbers of parts.
fn print_spot(spot: &[u32], out: &mut impl Write) -> Result<()> {
    let mut before = ' ';
    for n in spot {
        write!(out, "{before}{n}")?;
        before = '.';
    }
    Ok(())
}
