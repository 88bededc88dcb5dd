//! Runs sources.
ghost use Rattle.std.specs.Prelude.{◌≡◌, IfOk, MatchResult, length, map};
ghost use Rattle.campl_tree.specs.declared.decl.Program.{Program};
ghost use Rattle.campl_tree.specs.View.{view_decl, view_program};
ghost use Rattle.campl_tree.specs.Plain.Decl.{Program as Source};
ghost use Rattle.campl_types.specs.Run.{services_of};
ghost use Rattle.campl_types.specs.World.{world_of};
ghost use Rattle.campl_meaning.specs.Lawful.{IsAccepted};
ghost use Rattle.campl_orders.specs.Reading.{texts};
ghost use Rattle.campl_pipeline.specs.Source.{generated_source};
ghost use Rattle.campl_cli.specs.Performance.{report_of};
ghost use Rattle.campl_cli.specs.Refusals.{files, IsRefusedRun, IsRefusedScripts, IsRefusedText};
ghost use Rattle.campl_cli.specs.Runs.{HasRun, HasScripts, HaveNoLines, RunsFile, RunsGenerated, RunsText, RunsTree};
ghost use Rattle.campl_cli.specs.Source.{IsAcceptedWorld, IsRefusedFor, IsSourceFault, heading_of};

use crate::acceptance::world_of_text;
use crate::performance::{Performance, headed, performed};
use crate::reading::read_source;
use crate::refusal::Refusal;
use crate::scripts::{scripts_for, scripts_without_lines};
use campl_gen::generate;
use campl_names::World;
use campl_pipeline::generated_source;
use campl_run::run;
use campl_service::Scripts;
use campl_text::{Shelf, Text};
use std::alloc::{AllocError, Global};

/// How many steps a generated pipeline may make for each stage. It finishes within 58 and some 95 more in all.
const STEPS_OF_A_STAGE: u64 = 60;

/// How many more it may make.
const STEPS_BESIDE: u64 = 200;

/// Runs the source of a file, with the script of another where one is named, for at most so many steps.
///
/// # Errors
///
/// The refusal of the source, or else of the script, or `OutOfMemory` where memory wants.
pub fn run_file<F: Shelf>(
    alloc: Global,
    file: &str,
    script: Option<&str>,
    budget: u64,
    shelf: &mut F,
) -> Result<Performance, Refusal>
    ensures { MatchResult result
        (λ p. RunsFile (files F.holds F.faults shelf.old shelf.new) file.now (texts script.entry) budget (report_of p) p.output.items)
        (IsRefusedRun (files F.holds F.faults shelf.old shelf.new) file.now (texts script.entry)) }
{
    match read_source(alloc, file, shelf) {
        Ok(text) => run_text(alloc, text, script, budget, shelf),
        Err(refusal) => Err(refusal),
    }
}

// Runs a text, with the script of a file where one is named.
fn run_text<F: Shelf>(
    alloc: Global,
    text: Text,
    script: Option<&str>,
    budget: u64,
    shelf: &mut F,
) -> Result<Performance, Refusal>
    ensures { MatchResult result
        (λ p. RunsText text (HasScripts (files F.holds F.faults shelf.old shelf.new) (texts script.entry)) budget (report_of p) p.output.items)
        (IsRefusedText text (IsRefusedScripts (files F.holds F.faults shelf.old shelf.new) (texts script.entry))) }
{
    let judged = world_of_text(alloc, &text);
    drop(text);
    match judged {
        Ok(world) => run_world(alloc, world, script, budget, shelf),
        Err(refusal) => Err(refusal),
    }
}

// Runs a source, with the script of a file where one is named.
fn run_world<F: Shelf>(
    alloc: Global,
    world: World,
    script: Option<&str>,
    budget: u64,
    shelf: &mut F,
) -> Result<Performance, Refusal>
    requires { IsAcceptedWorld (map view_decl world) }
    ensures { (tree : Program) → IsAccepted (view_program tree) → map view_decl world ≡ world_of (view_program tree)
        → MatchResult result
        (λ p. RunsTree tree (HasScripts (files F.holds F.faults shelf.old shelf.new) (texts script.entry)) budget (report_of p) p.output.items)
        (IsRefusedScripts (files F.holds F.faults shelf.old shelf.new) (texts script.entry) (heading_of tree)) }
{
    let scripts = match scripts_for(alloc, &world, script, shelf) {
        Ok(scripts) => scripts,
        Err(refusal) => return Err(refusal),
    };
    match run_with(alloc, world, scripts, budget) {
        Ok(performance) => Ok(performance),
        Err(_) => Err(Refusal::OutOfMemory),
    }
}

// Runs a source with these scripts.
fn run_with(
    alloc: Global,
    world: World,
    scripts: Scripts,
    budget: u64,
) -> Result<Performance, AllocError>
    requires scripts { length scripts ≡ length (services_of (map view_decl world)) }
    requires accepted { IsAcceptedWorld (map view_decl world) }
    ensures { (source : Source) → IsAccepted source → map view_decl world ≡ world_of source
        → IfOk result (λ p. HasRun source scripts budget (report_of p) p.output.items) }
{
    let code = match generate(alloc, &world) {
        Ok(code) => code,
        Err(error) => return Err(error),
    };
    match run(alloc, world, code, scripts, budget) {
        Ok(ran) => Ok(performed(ran)),
        Err(error) => Err(error),
    }
}

/// Runs the pipeline of so many stages, whose output a line with their number begins.
///
/// # Errors
///
/// The refusal of its source, or `OutOfMemory` where memory wants.
pub fn run_generated(alloc: Global, stages: u32) -> Result<Performance, Refusal>
    ensures { MatchResult result (λ p. RunsGenerated stages (report_of p) p.output.items) (IsRefusedFor (IsSourceFault (generated_source stages))) }
{
    let text = match generated_source(alloc, stages) {
        Ok(text) => text,
        Err(_) => return Err(Refusal::OutOfMemory),
    };
    let budget = STEPS_OF_A_STAGE * u64::from(stages) + STEPS_BESIDE;
    let performance = match run_alone(alloc, text, budget) {
        Ok(performance) => performance,
        Err(refusal) => return Err(refusal),
    };
    match headed(alloc, stages, performance) {
        Ok(performance) => Ok(performance),
        Err(_) => Err(Refusal::OutOfMemory),
    }
}

// Runs a text without lines of scripts.
fn run_alone(alloc: Global, text: Text, budget: u64) -> Result<Performance, Refusal>
    ensures { MatchResult result (λ p. RunsText text HaveNoLines budget (report_of p) p.output.items) (IsRefusedFor (IsSourceFault text)) }
{
    let judged = world_of_text(alloc, &text);
    drop(text);
    let world = match judged {
        Ok(world) => world,
        Err(refusal) => return Err(refusal),
    };
    match run_world_alone(alloc, world, budget) {
        Ok(performance) => Ok(performance),
        Err(_) => Err(Refusal::OutOfMemory),
    }
}

// Runs a source without lines of scripts.
fn run_world_alone(alloc: Global, world: World, budget: u64) -> Result<Performance, AllocError>
    requires { IsAcceptedWorld (map view_decl world) }
    ensures { (tree : Program) → IsAccepted (view_program tree) → map view_decl world ≡ world_of (view_program tree)
        → IfOk result (λ p. RunsTree tree HaveNoLines budget (report_of p) p.output.items) }
{
    let scripts = match scripts_without_lines(alloc, &world) {
        Ok(scripts) => scripts,
        Err(error) => return Err(error),
    };
    run_with(alloc, world, scripts, budget)
}
