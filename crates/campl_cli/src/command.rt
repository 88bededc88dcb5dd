//! The command: its words, and what each order comes to.
ghost use Rattle.std.specs.Prelude.{◌≡◌, ℕ, List, MatchResult, map, string_bytes};
ghost use Rattle.campl_cli.specs.Answer.{stream, IsAnswer};
ghost use Rattle.campl_cli.specs.Performance.{IsDone, IsTelling};
ghost use Rattle.campl_cli.specs.Refusals.{files, IsAcceptedFile, IsDue, IsRefusedMigration, IsRefusedOrder, IsRefusedSource};
ghost use Rattle.campl_cli.specs.Told.{ListsFile, ListsText, MigratesFile, accepted_line};
ghost use Rattle.campl_cli.specs.Source.{IsAcceptedText, IsRefusedFor, IsSourceFault};
ghost use Rattle.campl_orders.specs.Orders.{IsOrder, PlainOrder};
ghost use Rattle.campl_orders.specs.Reading.{view};

use crate::acceptance::judge_text;
use crate::code::listing_of;
use crate::gate::Gate;
use crate::performance::{Performance, accept, print, tell_alone, tell_text};
use crate::reading::read_source;
use crate::refusal::Refusal;
use crate::report::Report;
use crate::running::{run_file, run_generated};
use crate::script::migrated_of;
use crate::telling::refuse;
use campl_orders::{Order, read_words};
use campl_text::{Shelf, Sink, Text};
use std::alloc::Global;
use std::thread::Threads;

/// Does what the words order, which are those after the program's name; `campl_orders` lists the orders.
///
/// It reads the source FILE from the shelf, checks it, lists its code or runs it with the script of another file; or it makes a source
/// and runs it, or migrates the script FILE. It writes the output onto `out`; where it is refused it writes one line onto `err` instead.
/// `docs/LANGUAGE.md` lists the statuses. A run is that of one at a time, whatever the number of workers; the runtime and the gate serve
/// runs of several.
pub fn campl<R: Threads + Sync, F: Shelf, O: Sink, E: Sink, G: Gate>(
    rt: &R,
    alloc: Global,
    words: &[String],
    shelf: &mut F,
    out: &mut O,
    err: &mut E,
    gate: &G,
) -> Report
    ensures { IsAnswer (map string_bytes words.now)
        (files F.holds F.faults shelf.old shelf.new)
        (stream O.written O.faults out.old out.new)
        (stream E.written E.faults err.old err.new)
        result }
{
    let _ = rt;
    let _ = gate;
    match perform_words(alloc, words, shelf) {
        Ok(performance) => print(performance, out, err),
        Err(refusal) => refuse(alloc, refusal, err),
    }
}

// Does what the words order.
fn perform_words<F: Shelf>(
    alloc: Global,
    words: &[String],
    shelf: &mut F,
) -> Result<Performance, Refusal>
    ensures { MatchResult result
        (λ performance. (order : PlainOrder) × IsOrder (map string_bytes words.now) order × IsDone order (files F.holds F.faults shelf.old shelf.new) performance)
        (IsDue (map string_bytes words.now) (files F.holds F.faults shelf.old shelf.new)) }
{
    match read_words(words) {
        Some(order) => perform_order(alloc, order, shelf),
        None => Err(Refusal::BadCommandLine),
    }
}

// Does what is ordered.
fn perform_order<F: Shelf>(
    alloc: Global,
    order: Order<'_>,
    shelf: &mut F,
) -> Result<Performance, Refusal>
    ensures { MatchResult result
        (IsDone (view order.entry) (files F.holds F.faults shelf.old shelf.new))
        (IsRefusedOrder (view order.entry) (files F.holds F.faults shelf.old shelf.new)) }
{
    match order {
        Order::Run {
            file,
            script,
            steps,
            workers: _,
        } => run_file(alloc, file, script, u64::from(steps), shelf),
        Order::Check { file } => check_file(alloc, file, shelf),
        Order::Code { file } => list_file(alloc, file, shelf),
        Order::Generate { stages, workers: _ } => run_generated(alloc, stages),
        Order::Migrate { file } => migrate_file(alloc, file, shelf),
    }
}

// Checks the source of a file.
fn check_file<F: Shelf>(alloc: Global, file: &str, shelf: &mut F) -> Result<Performance, Refusal>
    ensures { MatchResult result
        (λ performance. IsAcceptedFile (files F.holds F.faults shelf.old shelf.new) file.now × IsTelling accepted_line performance)
        (IsRefusedSource (files F.holds F.faults shelf.old shelf.new) file.now) }
{
    match read_source(alloc, file, shelf) {
        Ok(text) => check_text(alloc, &text),
        Err(refusal) => Err(refusal),
    }
}

// Lists the code of the source of a file.
fn list_file<F: Shelf>(alloc: Global, file: &str, shelf: &mut F) -> Result<Performance, Refusal>
    ensures { MatchResult result
        (λ performance. (output : List ℕ) × ListsFile (files F.holds F.faults shelf.old shelf.new) file.now output × IsTelling output performance)
        (IsRefusedSource (files F.holds F.faults shelf.old shelf.new) file.now) }
{
    match read_source(alloc, file, shelf) {
        Ok(text) => list_text(alloc, &text),
        Err(refusal) => Err(refusal),
    }
}

// Migrates the script of a file.
fn migrate_file<F: Shelf>(alloc: Global, file: &str, shelf: &mut F) -> Result<Performance, Refusal>
    ensures { MatchResult result
        (λ performance. (output : List ℕ) × MigratesFile (files F.holds F.faults shelf.old shelf.new) file.now output × IsTelling output performance)
        (IsRefusedMigration (files F.holds F.faults shelf.old shelf.new) file.now) }
{
    let script = match migrated_of(alloc, file, shelf) {
        Ok(script) => script,
        Err(refusal) => return Err(refusal),
    };
    match tell_text(alloc, script.as_str()) {
        Ok(performance) => Ok(performance),
        Err(_) => Err(Refusal::OutOfMemory),
    }
}

// Checks a text.
fn check_text(alloc: Global, text: &Text) -> Result<Performance, Refusal>
    ensures { MatchResult result (λ performance. IsAcceptedText text.now × IsTelling accepted_line performance) (IsRefusedFor (IsSourceFault text.now)) }
{
    match judge_text(alloc, text) {
        Ok(()) => {}
        Err(refusal) => return Err(refusal),
    }
    match accept(alloc) {
        Ok(performance) => Ok(performance),
        Err(_) => Err(Refusal::OutOfMemory),
    }
}

// Lists the code of a text.
fn list_text(alloc: Global, text: &Text) -> Result<Performance, Refusal>
    ensures { MatchResult result (λ performance. (output : List ℕ) × ListsText text.now output × IsTelling output performance) (IsRefusedFor (IsSourceFault text.now)) }
{
    match listing_of(alloc, text) {
        Ok(listing) => Ok(tell_alone(alloc, listing.into_bytes())),
        Err(refusal) => Err(refusal),
    }
}
