//! The ends that a process holds.
use anyhow::Result;
use campl_names::{World, partners};
use campl_tree::{ChanType, Ident, ProcessDecl, Side};
use std::alloc::{AllocError, Global};
use std::io::Write;

/// A channel of a process, as it holds it.
#[derive(Clone, Copy)]
struct End<'a> {
    name: &'a Ident,
    channel_type: &'a ChanType,
    side: Side,
}

/// Prints what the channels of a process allow, and which two of them fit together.
pub fn print_ends(
    alloc: Global,
    world: &World,
    process: &ProcessDecl,
    out: &mut impl Write,
) -> Result<()> {
    let ends = ends_of(alloc, process)?;
    for (i, end) in ends.iter().enumerate() {
        let act = world.allowed(end.channel_type, end.side);
        writeln!(out, "{} {}: {act:?}", process.name.name, end.name.name)?;
        print_partners(end, &ends[..i], out)?;
    }
    Ok(())
}

// Which of these ends fit together with one.
fn print_partners(end: &End<'_>, others: &[End<'_>], out: &mut impl Write) -> Result<()> {
    for other in others {
        if partners(other.channel_type, other.side, end.channel_type, end.side) {
            writeln!(out, "{} fits {}", other.name.name, end.name.name)?;
        }
    }
    Ok(())
}

fn ends_of(alloc: Global, process: &ProcessDecl) -> Result<Vec<End<'_>>, AllocError> {
    let mut ends = Vec::new(alloc);
    add_ends(
        &mut ends,
        Side::Input,
        process.row.inputs.as_slice(),
        process.inputs.as_slice(),
    )?;
    add_ends(
        &mut ends,
        Side::Output,
        process.row.outputs.as_slice(),
        process.outputs.as_slice(),
    )?;
    Ok(ends)
}

fn add_ends<'a>(
    ends: &mut Vec<End<'a>>,
    side: Side,
    names: &'a [Ident],
    types: &'a [ChanType],
) -> Result<(), AllocError> {
    for (name, channel_type) in names.iter().zip(types.iter()) {
        ends.push(End {
            name,
            channel_type,
            side,
        })?;
    }
    Ok(())
}
