//! Does what scripts say with the command and with texts, over memory and over the system's files, and prints what came out.
//!
//! The words name files of scripts. Each script begins with a line `== NAME`, has a shelf and two sinks of its own, and goes on with
//! steps, one a line: `desk` has those that gather bytes and furnish shelf and sinks, `acts` those that print something. The scripts
//! of `data/runs.txt`, and what is printed of them, are made by `tests/run_cases.py`.
#![tactic(auto)]

mod acts;
mod desk;
mod system;

use anyhow::{Context, Result, bail};
use campl_text::{FileShelf, Text, read_text};
use desk::Desk;
use std::alloc::Global;
use std::env;
use std::rt::{Env, Files};
use std::thread::Threads;

const FILE_LIMIT: u64 = 1_048_576;

// The text of a file.
fn text_of_file(rt: &impl Files, alloc: Global, file: &str) -> Result<Text> {
    let mut shelf = FileShelf::new(rt, alloc);
    match read_text(alloc, &mut shelf, file, FILE_LIMIT) {
        Ok(text) => Ok(text),
        Err(_) => bail!("a file of scripts is no text within the limit"),
    }
}

// Does one step.
fn do_step<R: Threads + Sync + Files + AllocGlobal + Print>(
    rt: &R,
    desk: &mut Desk,
    line: &str,
) -> Result<()> {
    let (step, rest) = line.split_once(' ').unwrap_or((line, ""));
    match step {
        "line" => desk.gather_line(rest),
        "lines" => desk.gather_lines(rest),
        "piece" => desk.gather(rest),
        "times" => desk.gather_times(rest),
        "byte" => desk.gather_byte(rest),
        "put" => desk.put(rest),
        "fail" => desk.fail_read(rest),
        "out" => desk.furnish_out(rest),
        "err" => desk.furnish_err(rest),
        "campl" => acts::command(rt, desk, rest),
        "read" => acts::read(rt, desk, rest),
        "write" => acts::write(rt, desk),
        "system-campl" => system::command(rt, desk, rest),
        "full-campl" => system::command_to_full(rt, desk, rest),
        "system-read" => system::read(rt, desk, rest),
        "writer" => system::write(rt, desk, rest),
        "stdout" => system::write_to_stdout(rt, desk),
        "replaced" => system::read_replaced(rt, desk, rest),
        _ => bail!("a script has a step that is none"),
    }
}

// Does the steps of a script.
fn do_script<R: Threads + Sync + Files + AllocGlobal + Print>(rt: &R, steps: &str) -> Result<()> {
    let mut desk = Desk::new(rt.alloc())?;
    for line in steps.lines() {
        do_step(rt, &mut desk, line)?;
    }
    Ok(())
}

// Does the scripts of a text.
fn do_scripts<R: Threads + Sync + Files + AllocGlobal + Print>(rt: &R, text: &Text) -> Result<()> {
    let scripts = text.as_str().strip_prefix("== ").context("no script")?;
    for script in scripts.split("\n== ") {
        let (name, steps) = script.split_once('\n').context("a script has no step")?;
        println!(rt; "== {name}")?;
        do_script(rt, steps)?;
    }
    Ok(())
}

fn do_files<R: Threads + Sync + Files + Env + AllocGlobal + Print>(rt: &R) -> Result<()> {
    for file in env::args(rt)?.skip(1) {
        let text = text_of_file(rt, rt.alloc(), file.as_str())?;
        do_scripts(rt, &text)?;
    }
    Ok(())
}

fn main(rt: HostRuntime) -> Result<()> {
    do_files(&rt)
}
