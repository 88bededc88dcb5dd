//! Reads files of cases, and prints for each case how far its source is accepted, or its first fault.
//!
//! The words are pairs of a phase and a file. `grammar FILE` prints `tree` where a source has a tree, `names FILE` prints `well
//! declared` where its names are so too, `functions FILE` prints `typed` where its functions are, and `check FILE` prints
//! `accepted` where its processes are too. Each case begins with a line `== NAME` and its source goes to the next such line; the
//! last line feed before that line, or before the end, belongs to no source. `tests/` makes the files and the answers.
#![tactic(auto)]

use anyhow::{Context, Result, bail};
use campl_cli::{Refusal, SOURCE_LIMIT, judge, judge_functions, judge_names, tree_of};
use campl_text::{FileShelf, Text, read_text};
use std::alloc::Global;
use std::env;
use std::io::Write;
use std::rt::{Env, Files};

// The last phase by which sources are judged.
#[derive(Clone, Copy)]
enum Phase {
    Grammar,
    Names,
    Functions,
    Processes,
}

fn phase_of(word: &str) -> Result<Phase> {
    match word {
        "grammar" => Ok(Phase::Grammar),
        "names" => Ok(Phase::Names),
        "functions" => Ok(Phase::Functions),
        "check" => Ok(Phase::Processes),
        _ => bail!("the phases are grammar, names, functions and check"),
    }
}

// The text of a file.
fn text_of(rt: &impl Files, alloc: Global, file: &str) -> Result<Text> {
    let mut shelf = FileShelf::new(rt, alloc);
    match read_text(alloc, &mut shelf, file, SOURCE_LIMIT) {
        Ok(text) => Ok(text),
        Err(_) => bail!("the file is no text within the limit"),
    }
}

// The source of a case.
fn source_of(alloc: Global, case: &str) -> Result<Text> {
    if case.len() as u64 > SOURCE_LIMIT {
        bail!("a source is too long");
    }
    Ok(Text::of(alloc, case)?)
}

// What is said of an accepted source, or why it is refused.
fn judge_source(
    alloc: Global,
    phase: Phase,
    source: &Text,
) -> std::result::Result<&'static str, Refusal> {
    let program = match tree_of(alloc, source) {
        Ok(program) => program,
        Err(fault) => return Err(Refusal::of_text(fault)),
    };
    match phase {
        Phase::Grammar => Ok("tree"),
        Phase::Names => {
            judge_names(alloc, program)?;
            Ok("well declared")
        }
        Phase::Functions => {
            judge_functions(alloc, &judge_names(alloc, program)?)?;
            Ok("typed")
        }
        Phase::Processes => {
            judge(alloc, program)?;
            Ok("accepted")
        }
    }
}

// Prints a line for each case of a text.
fn print_answers(alloc: Global, phase: Phase, text: &Text, out: &mut impl Write) -> Result<()> {
    let content = text.as_str().strip_prefix("== ").context("no case")?;
    let content = content
        .strip_suffix('\n')
        .context("the last line has no end")?;
    for case in content.split("\n== ") {
        let (name, source) = case.split_once('\n').context("a case has no source")?;
        match judge_source(alloc, phase, &source_of(alloc, source)?) {
            Ok(accepted) => writeln!(out, "{name}: {accepted}")?,
            Err(refusal) => writeln!(out, "{name}: {refusal}")?,
        }
    }
    Ok(())
}

// The words after the program's name.
fn words(rt: &(impl Env + AllocGlobal)) -> Result<Vec<String>> {
    let mut words = Vec::new(rt.alloc());
    for word in env::args(rt)?.skip(1) {
        words.push(word)?;
    }
    Ok(words)
}

fn main(rt: HostRuntime) -> Result<()> {
    let words = words(&rt)?;
    let mut out = rt.stdout();
    for pair in words.chunks(2) {
        let [phase, file] = pair else {
            bail!("give a file behind each phase");
        };
        let phase = phase_of(phase.as_str())?;
        let text = text_of(&rt, rt.alloc(), file.as_str())?;
        print_answers(rt.alloc(), phase, &text, &mut out)?;
    }
    Ok(())
}
