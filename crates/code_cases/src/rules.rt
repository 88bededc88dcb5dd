//! The rules of code, and its listing.
use anyhow::{Result, bail};
use campl_assembly::listing;
use campl_instructions::RawCode;
use campl_rules::{CodeFault, first_fault};
use std::alloc::Global;
use std::io::Write;

/// Prints the first instruction that breaks a rule, and the listing.
pub fn print_code(alloc: Global, code: &RawCode, out: &mut impl Write) -> Result<()> {
    print_fault(alloc, code, out)?;
    let listing = listing(alloc, code)?;
    Ok(write!(out, "{listing}")?)
}

fn print_fault(alloc: Global, code: &RawCode, out: &mut impl Write) -> Result<()> {
    match first_fault(alloc, code) {
        Ok(()) => Ok(writeln!(out, "keeps the rules")?),
        Err(CodeFault::Bad { block, at }) => {
            Ok(writeln!(out, "block {block} breaks a rule at {at}")?)
        }
        Err(CodeFault::OutOfMemory) => bail!("memory is out"),
    }
}
