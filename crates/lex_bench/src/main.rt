//! Lexes and lays out a source, and prints how many tokens there are before and after, so that the time can be compared.
//!
//! `lex_bench FILE` reads FILE within the limit of a source.
#![tactic(auto)]

use anyhow::{Context, Result, bail};
use campl_lex::{end_of, layout, lex};
use campl_text::{FileShelf, Text, read_text};
use std::alloc::Global;
use std::env;
use std::rt::Files;

const SOURCE_LIMIT: u64 = 1_048_576;

// The text of a file.
fn text_of(rt: &impl Files, alloc: Global, file: &str) -> Result<Text> {
    let mut shelf = FileShelf::new(rt, alloc);
    match read_text(alloc, &mut shelf, file, SOURCE_LIMIT) {
        Ok(text) => Ok(text),
        Err(_) => bail!("the file is no text within the limit"),
    }
}

// The numbers of tokens before and after layout.
fn count(alloc: Global, text: &Text) -> Result<(usize, usize)> {
    let Ok(tokens) = lex(alloc, text) else {
        bail!("the text has a fault");
    };
    let Ok(laid) = layout(alloc, text, &tokens, end_of(text)) else {
        bail!("the layout has a fault");
    };
    Ok((tokens.len(), laid.len()))
}

fn main(rt: HostRuntime) -> Result<()> {
    let file = env::args(&rt)?.nth(1).context("give a file")?;
    let text = text_of(&rt, rt.alloc(), file.as_str())?;
    let (tokens, laid) = count(rt.alloc(), &text)?;
    println!(rt; "{tokens} tokens, {laid} laid out")?;
    Ok(())
}
