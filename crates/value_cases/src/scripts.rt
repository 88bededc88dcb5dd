//! Scripts, each as what a service sends of it, or as its fault.
use crate::services::print_lines;
use anyhow::{Context, Result, bail};
use campl_service::{Script, ScriptFault, Scripts, ServiceKind, read_script};
use campl_text::Text;
use campl_tree::{Name, ServiceName, Side};
use std::alloc::{AllocError, Global};
use std::io::Write;

fn named(alloc: Global, name: &str, side: Side) -> std::result::Result<ServiceName, AllocError> {
    Ok(ServiceName {
        name: Name::of(alloc, name)?,
        side,
    })
}

// The names of a console and a terminal.
fn names(alloc: Global) -> std::result::Result<Vec<ServiceName>, AllocError> {
    let mut names = Vec::new(alloc);
    names.push(named(alloc, "console", Side::Input)?)?;
    names.push(named(alloc, "terminal", Side::Output)?)?;
    Ok(names)
}

// The scripts of the two that a text gives.
fn scripts_in(alloc: Global, text: &str) -> Result<std::result::Result<Scripts, ScriptFault>> {
    if text.len() > 4_000_000 {
        bail!("a script is too long");
    }
    let names = names(alloc)?;
    let text = Text::of(alloc, text)?;
    Ok(read_script(alloc, &text, names.as_slice()))
}

// The script of the console.
pub fn script_of(alloc: Global, text: &str) -> Result<Script> {
    match scripts_in(alloc, text)? {
        Ok(mut scripts) if scripts.len() > 0 => Ok(scripts.take(0)),
        _ => bail!("it is no script"),
    }
}

// Prints what the console and the terminal send.
fn print_both(alloc: Global, out: &mut impl Write, mut scripts: Scripts) -> Result<()> {
    if scripts.len() != 2 {
        bail!("there are not two scripts");
    }
    let (console, terminal) = (scripts.take(0), scripts.take(1));
    print_lines(alloc, out, ServiceKind::Console, 1, console)?;
    print_lines(alloc, out, ServiceKind::Terminal, 0, terminal)
}

// Prints what the console and the terminal send of a script, or its fault.
fn print_script(alloc: Global, out: &mut impl Write, name: &str, text: &str) -> Result<()> {
    match scripts_in(alloc, text)? {
        Ok(scripts) => {
            writeln!(out, "{name}:")?;
            print_both(alloc, out, scripts)
        }
        Err(fault) => Ok(writeln!(out, "{name}: {fault:?}")?),
    }
}

// Prints the scripts of a file of cases.
pub fn print_scripts(alloc: Global, cases: &str, out: &mut impl Write) -> Result<()> {
    let content = cases.strip_prefix("== ").context("no case")?;
    let content = content
        .strip_suffix('\n')
        .context("the last line has no end")?;
    for case in content.split("\n== ") {
        let (name, script) = case.split_once('\n').context("a case has no script")?;
        let script = script.replace(alloc, "␍", "\r")?;
        print_script(alloc, out, name, script.as_str())?;
    }
    Ok(())
}

// Prints the fault of a piece that is repeated.
fn print_repeated(
    alloc: Global,
    out: &mut impl Write,
    name: &str,
    first: &str,
    piece: &str,
    count: usize,
) -> Result<()> {
    let mut text = String::from_str(alloc, first)?;
    text.push_str(piece.repeat(alloc, count)?.as_str())?;
    print_script(alloc, out, name, text.as_str())
}

pub fn print_long_scripts(alloc: Global, out: &mut impl Write) -> Result<()> {
    let second = "campl script 2\n";
    let text = "campl script 2\nconsole: ";
    let line = "console: x\n";
    print_repeated(alloc, out, "a line too many", "", line, 100_001)?;
    print_repeated(
        alloc,
        out,
        "a line of 1,025 with its name",
        "console: ",
        "x",
        1_016,
    )?;
    print_repeated(alloc, out, "a line of 1,025", "", "x", 1_025)?;
    print_repeated(alloc, out, "an empty line too many", second, "\n", 100_001)?;
    print_repeated(alloc, out, "a text of 1,025", text, "x", 1_025)?;
    print_repeated(alloc, out, "a line of 8,192", second, "x", 8_192)?;
    print_repeated(alloc, out, "a line of 8,193", second, "x", 8_193)
}
