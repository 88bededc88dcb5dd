//! Reads a command line.
ghost use Rattle.std.specs.Prelude.{◌≡◌, MatchOption, map, string_bytes, option_and_then, option_map};
ghost use Rattle.campl_orders.specs.Orders.{IsOrder, PlainOrder, check, code, migrate};
ghost use Rattle.campl_orders.specs.Reading.{gathered, generate_of, given, nothing, only_operand, order_of, ordered, read, run_of, stands, view};
ghost use Rattle.campl_orders.specs.declared.reader.State.{State};

use crate::found::Found;
use crate::number::{number_in, number_or};
use crate::order::{Order, STAGES_MAX, STEPS, STEPS_MAX, WORKERS, WORKERS_MAX};
use crate::reader::Reader;

/// What the words after the program's name order, where they order anything.
pub fn read_words(words: &[String]) -> Option<Order<'_>>
    ensures { MatchOption result
        ((order : PlainOrder) → ¬ (IsOrder (map string_bytes words.now) order))
        (λ order. IsOrder (map string_bytes words.now) (view order)) }
{
    read_order(words)
}

// The same, as it is computed.
fn read_order(words: &[String]) -> Option<Order<'_>>
    ensures { option_map view result ≡ order_of (map string_bytes words.now) }
{
    let Some((first, rest)) = words.split_first() else {
        return None;
    };
    match gathered(rest) {
        Some(found) => ordered(first.as_str(), found),
        None => None,
    }
}

// What is found in the words behind the first.
fn gathered(words: &[String]) -> Option<Found<'_>>
    ensures { option_map given result ≡ gathered nothing State.Open (map string_bytes words.now) }
{
    let mut reader = Some(Reader::new());
    for word in words {
        reader = read_on(reader, word.as_str());
    }
    match reader {
        Some(reader) => reader.finish(),
        None => None,
    }
}

// Behind one more word, where all before it were read.
fn read_on<'a>(reader: Option<Reader<'a>>, word: &'a str) -> Option<Reader<'a>>
    ensures { option_map stands result ≡ option_and_then (λ p. read p.1 word.entry.now p.0) (option_map stands reader.entry) }
{
    match reader {
        Some(reader) => reader.read(word),
        None => None,
    }
}

// What the first word orders with what is found behind it.
fn ordered<'a>(first: &str, found: Found<'a>) -> Option<Order<'a>>
    ensures { option_map view result ≡ ordered first.now (given found.entry) }
{
    if first == "run" {
        run_of(found)
    } else if first == "check" {
        check_of(found)
    } else if first == "code" {
        code_of(found)
    } else if first == "generate" {
        generate_of(found)
    } else if first == "migrate" {
        migrate_of(found)
    } else {
        None
    }
}

fn run_of<'a>(found: Found<'a>) -> Option<Order<'a>>
    ensures { option_map view result ≡ run_of (given found.entry) }
{
    let Some(file) = found.operand else {
        return None;
    };
    let Some(steps) = number_or(found.steps, 0, STEPS_MAX, STEPS) else {
        return None;
    };
    match number_or(found.workers, 1, WORKERS_MAX, WORKERS) {
        Some(workers) => Some(Order::Run {
            file,
            script: found.script,
            steps,
            workers,
        }),
        None => None,
    }
}

fn check_of<'a>(found: Found<'a>) -> Option<Order<'a>>
    ensures { option_map view result ≡ option_map check (only_operand (given found.entry)) }
{
    match only_operand(found) {
        Some(file) => Some(Order::Check { file }),
        None => None,
    }
}

fn code_of<'a>(found: Found<'a>) -> Option<Order<'a>>
    ensures { option_map view result ≡ option_map code (only_operand (given found.entry)) }
{
    match only_operand(found) {
        Some(file) => Some(Order::Code { file }),
        None => None,
    }
}

fn migrate_of<'a>(found: Found<'a>) -> Option<Order<'a>>
    ensures { option_map view result ≡ option_map migrate (only_operand (given found.entry)) }
{
    match only_operand(found) {
        Some(file) => Some(Order::Migrate { file }),
        None => None,
    }
}

fn generate_of<'a>(found: Found<'a>) -> Option<Order<'a>>
    ensures { option_map view result ≡ generate_of (given found.entry) }
{
    if found.script.is_some() || found.steps.is_some() {
        return None;
    }
    let Some(word) = found.operand else {
        return None;
    };
    let Some(stages) = number_in(word, 1, STAGES_MAX) else {
        return None;
    };
    match number_or(found.workers, 1, WORKERS_MAX, WORKERS) {
        Some(workers) => Some(Order::Generate { stages, workers }),
        None => None,
    }
}

// The operand, where there is no option.
fn only_operand<'a>(found: Found<'a>) -> Option<&'a str>
    ensures { option_map (λ file. file.now) result ≡ only_operand (given found.entry) }
{
    if found.script.is_some() || found.steps.is_some() || found.workers.is_some() {
        None
    } else {
        found.operand
    }
}
