//! Journals.
ghost use Rattle.std.specs.Prelude.{◌≤◌, OnOk};
ghost use Rattle.campl_parts.specs.Journal.{weight_of};

use anyhow::{Result, bail};
use campl_parts::{Brief, Entry, Journal, Kind};
use campl_value::{Message, Value};
use std::alloc::Global;
use std::io::Write;

// What the journals here weigh at most before their last entry.
const MOST: u64 = 1_000_000;

// An entry of this weight at end 0.
fn entry(kind: Kind, weight: u32, message: Option<Message>) -> Entry {
    Entry {
        process: 0,
        kind,
        weight,
        end: Some(0),
        second: None,
        message,
        child: None,
        channel: None,
        channel2: None,
    }
}

// Makes room for one more, where the journal isn't too heavy.
fn open(journal: &mut Journal) -> Result<()>
    ensures { OnOk result ((1 ≤ journal.new.spare) × (1 ≤ journal.new.spare_full) × (weight_of journal.new.entries ≤ MOST)) }
{
    if journal.weight() > MOST {
        bail!("the journal is too heavy");
    }
    journal.make_room(1)?;
    Ok(())
}

fn push(journal: &mut Journal, entry: Entry) -> Result<()> {
    open(journal)?;
    journal.record(entry);
    Ok(())
}

fn note(journal: &mut Journal, process: u32, brief: Brief) -> Result<()> {
    open(journal)?;
    journal.note(process, brief);
    Ok(())
}

fn print_entry(out: &mut impl Write, entry: &Entry) -> Result<()> {
    write!(
        out,
        "process {}: {:?}, {}",
        entry.process, entry.kind, entry.weight
    )?;
    match &entry.message {
        Some(Message::Pick(number)) => writeln!(out, ", constructor {number}")?,
        Some(_) => writeln!(out, ", another message")?,
        None => writeln!(out, ", no message")?,
    }
    Ok(())
}

pub fn print_journals(alloc: Global, out: &mut impl Write) -> Result<()> {
    let mut journal = Journal::new(alloc);
    push(&mut journal, entry(Kind::Work, 40, None))?;
    push(&mut journal, entry(Kind::Pick, 2, Some(Message::Pick(7))))?;
    note(&mut journal, 1, Brief::Offer(3, 8))?;
    note(&mut journal, 2, Brief::Put(4, Value::int(5)))?;
    note(&mut journal, 3, Brief::Call)?;
    for at in 0..journal.len() {
        if let Some(entry) = journal.entry(at)? {
            print_entry(out, &entry)?;
        }
    }
    writeln!(out, "{} steps in all", journal.weight())?;
    Ok(())
}
