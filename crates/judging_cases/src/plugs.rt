//! Plugs, by the numbers of their parts.
ghost use Rattle.std.specs.Prelude.{All, IsTrue};
ghost use Rattle.campl_plug.specs.Links.{IsWithin};

use anyhow::{Context, Result, bail};
use campl_plug::{Link, tree_order};
use campl_text::Text;
use std::alloc::Global;
use std::io::Write;

fn is_within(parts: u32, link: &Link) -> bool
    ensures { IsTrue result → IsWithin parts link.now }
{
    1 <= link.a && link.a <= parts && 1 <= link.b && link.b <= parts
}

fn are_within(parts: u32, links: &[Link]) -> bool
    ensures { IsTrue result → All (IsWithin parts) links.now }
{
    links.iter().all(|link| is_within(parts, link))
}

/// Prints for each plug of a text the order of its parts, or its fault.
pub fn print_plugs(alloc: Global, text: &Text, out: &mut impl Write) -> Result<()> {
    for line in text.as_str().lines() {
        let (parts, links) = line.split_once(':').context("a plug has no parts")?;
        let parts: u32 = parts.parse()?;
        let links = links_of(alloc, links)?;
        write!(out, "{line} ->")?;
        print_order(alloc, parts, &links, out)?;
    }
    Ok(())
}

// The links of a line.
fn links_of(alloc: Global, text: &str) -> Result<Vec<Link>> {
    let mut links = Vec::new(alloc);
    for word in text.split_whitespace() {
        let (a, b) = word.split_once('-').context("a link has no two parts")?;
        links.push(Link {
            a: a.parse()?,
            b: b.parse()?,
        })?;
    }
    Ok(links)
}

fn print_order(alloc: Global, parts: u32, links: &[Link], out: &mut impl Write) -> Result<()> {
    if parts == 0 || !are_within(parts, links) {
        bail!("a link joins a part that isn't there");
    }
    match tree_order(alloc, parts, links) {
        Ok(order) => {
            for part in &order {
                write!(out, " {part}")?;
            }
            Ok(writeln!(out)?)
        }
        Err(fault) => Ok(writeln!(out, " {fault:?}")?),
    }
}
