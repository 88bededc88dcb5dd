//! The scripts of a run.
ghost use Rattle.std.specs.Prelude.{◌≡◌, IfOk, MatchResult, chars, length, map};
ghost use Rattle.campl_tree.specs.View.{view_decl};
ghost use Rattle.campl_types.specs.Run.{services_of};
ghost use Rattle.campl_orders.specs.Reading.{texts};
ghost use Rattle.campl_service.specs.Reading.{scripts_of};
ghost use Rattle.campl_cli.specs.Refusals.{files, IsRefusedLines, IsRefusedScripts};
ghost use Rattle.campl_cli.specs.Runs.{HasScripts, no_scripts};

use crate::reading::read_script;
use crate::refusal::Refusal;
use crate::script::ScriptRefusal;
use campl_names::World;
use campl_run::services_of;
use campl_service::{ScriptFault, Scripts, read_script as scripts_in};
use campl_text::{Shelf, Text};
use campl_tree::ServiceName;
use std::alloc::{AllocError, Global};

/// The script of each service of a source, in the order of its heading: the lines of the script in this file, or none where no file is
/// named.
///
/// # Errors
///
/// The refusal of the script, or `OutOfMemory` where memory wants.
pub fn scripts_for<F: Shelf>(
    alloc: Global,
    world: &World,
    script: Option<&str>,
    shelf: &mut F,
) -> Result<Scripts, Refusal>
    ensures scripts { MatchResult result
        (HasScripts (files F.holds F.faults shelf.old shelf.new) (texts script.entry) (services_of (map view_decl world.now)))
        (IsRefusedScripts (files F.holds F.faults shelf.old shelf.new) (texts script.entry) (services_of (map view_decl world.now))) }
    ensures each { IfOk result (λ scripts. length scripts ≡ length (services_of (map view_decl world.now))) }
{
    match script {
        Some(file) => scripts_of_file(alloc, world, file, shelf),
        None => match scripts_without_lines(alloc, world) {
            Ok(scripts) => Ok(scripts),
            Err(_) => Err(Refusal::OutOfMemory),
        },
    }
}

/// The scripts of a source's services without lines. An error means that memory is out.
pub fn scripts_without_lines(alloc: Global, world: &World) -> Result<Scripts, AllocError>
    ensures { IfOk result (λ scripts. scripts ≡ no_scripts (services_of (map view_decl world.now))) }
{
    let names = match services_of(alloc, world) {
        Ok(names) => names,
        Err(error) => return Err(error),
    };
    match u32::try_from(names.len()) {
        Ok(count) => Scripts::none(alloc, count),
        Err(_) => Err(AllocError),
    }
}

// The scripts of a source's services in this file.
fn scripts_of_file<F: Shelf>(
    alloc: Global,
    world: &World,
    file: &str,
    shelf: &mut F,
) -> Result<Scripts, Refusal>
    ensures scripts { MatchResult result
        (HasScripts (files F.holds F.faults shelf.old shelf.new) (Some file.now) (services_of (map view_decl world.now)))
        (IsRefusedScripts (files F.holds F.faults shelf.old shelf.new) (Some file.now) (services_of (map view_decl world.now))) }
    ensures each { IfOk result (λ scripts. length scripts ≡ length (services_of (map view_decl world.now))) }
{
    match read_script(alloc, file, shelf) {
        Ok(text) => scripts_of_text(alloc, world, &text),
        Err(refusal) => Err(refusal),
    }
}

// The scripts of a source's services in this text.
fn scripts_of_text(alloc: Global, world: &World, text: &Text) -> Result<Scripts, Refusal>
    ensures scripts { MatchResult result
        (λ scripts. scripts_of (services_of (map view_decl world.now)) (chars text.now) ≡ Ok scripts)
        (IsRefusedLines (services_of (map view_decl world.now)) text.now) }
    ensures each { IfOk result (λ scripts. length scripts ≡ length (services_of (map view_decl world.now))) }
{
    match services_of(alloc, world) {
        Ok(names) => scripts_under(alloc, names.as_slice(), text),
        Err(_) => Err(Refusal::OutOfMemory),
    }
}

// The scripts of the channels of these names in this text.
fn scripts_under(alloc: Global, names: &[ServiceName], text: &Text) -> Result<Scripts, Refusal>
    ensures scripts { MatchResult result (λ scripts. scripts_of names.now (chars text.now) ≡ Ok scripts) (IsRefusedLines names.now text.now) }
    ensures each { IfOk result (λ scripts. length scripts ≡ length names.now) }
{
    match scripts_in(alloc, text, names) {
        Ok(scripts) => Ok(scripts),
        Err(ScriptFault::OutOfMemory) => Err(Refusal::OutOfMemory),
        Err(fault) => Err(Refusal::Script(ScriptRefusal::Line(fault))),
    }
}
