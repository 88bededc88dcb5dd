//! Reads files of cases, and prints for each case what the judges of names, ends and plugs answer.
//!
//! The words are the two files. The first has sources, each behind a line `== NAME`. Of one that is well declared
//! the services are printed, what each channel of its processes allows and which of them fit together, and what
//! remains behind each constructor at arguments `Int`. The second has a line for each plug: the number of its
//! parts, and its links. Its order is printed, or its fault.
#![tactic(auto)]

mod ends;
mod files;
mod plugs;
mod sources;
mod trees;

use crate::files::text_of;
use crate::plugs::print_plugs;
use crate::sources::print_sources;
use anyhow::{Context, Result};
use std::env;

fn main(rt: HostRuntime) -> Result<()> {
    let alloc = rt.alloc();
    let mut out = rt.stdout();
    let mut words = env::args(&rt)?.skip(1);
    let sources = words.next().context("no file of sources")?;
    let plugs = words.next().context("no file of plugs")?;
    print_sources(alloc, &text_of(&rt, alloc, sources.as_str())?, &mut out)?;
    print_plugs(alloc, &text_of(&rt, alloc, plugs.as_str())?, &mut out)
}
