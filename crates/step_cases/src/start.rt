//! The start of a run.
ghost use Rattle.std.specs.Prelude.{IfOk, map};
ghost use Rattle.campl_tree.specs.View.{view_decl};
ghost use Rattle.campl_cli.specs.Source.{IsAcceptedWorld};
ghost use Rattle.step_cases.specs.Begun.{AreServices, IsRunning};

use crate::code::program_of;
use anyhow::{Result, bail};
use campl_names::World;
use campl_program::Program;
use campl_run::{number_of_run, services_at_start, services_of};
use campl_service::{Scripts, Service, read_script};
use campl_solo::Solo;
use campl_text::Text;
use campl_tree::ServiceName;
use std::alloc::Global;

/// The longest script that is read, in bytes.
const SCRIPT_LIMIT: usize = 1_048_576;

/// A program, and its run at the start.
#[derive(Drop)]
pub struct Begun {
    pub program: Program,
    pub solo: Solo,
}

/// The run of an accepted source at its start, with the lines of this script.
pub fn begin(alloc: Global, world: &World, script: &str) -> Result<Begun>
    requires { IsAcceptedWorld (map view_decl world.now) }
    ensures { IfOk result (λ begun. IsRunning begun.program begun.solo) }
{
    let services = services_for(alloc, world, script)?;
    begin_with(alloc, world, services)
}

fn begin_with(alloc: Global, world: &World, services: Vec<Service>) -> Result<Begun>
    requires accepted { IsAcceptedWorld (map view_decl world.now) }
    requires services { AreServices (map view_decl world.now) services.items }
    ensures { IfOk result (λ begun. IsRunning begun.program begun.solo) }
{
    let Ok(number) = number_of_run(alloc, world) else {
        bail!("`run` has no number");
    };
    let Ok(program) = program_of(alloc, world) else {
        bail!("the code can't be made");
    };
    match Solo::start(alloc, &program, number, services) {
        Ok(solo) => Ok(Begun { program, solo }),
        Err(_) => bail!("the run can't start"),
    }
}

fn services_for(alloc: Global, world: &World, script: &str) -> Result<Vec<Service>>
    ensures { IfOk result (λ services. AreServices (map view_decl world.now) services.items) }
{
    let names = services_of(alloc, world)?;
    let scripts = scripts_for(alloc, names.as_slice(), script)?;
    if scripts.len() != names.len() {
        bail!("a service has no script");
    }
    Ok(services_at_start(alloc, names.as_slice(), scripts)?)
}

fn scripts_for(alloc: Global, names: &[ServiceName], script: &str) -> Result<Scripts> {
    if script.len() > SCRIPT_LIMIT {
        bail!("a script is too long");
    }
    let text = Text::of(alloc, script)?;
    match read_script(alloc, &text, names) {
        Ok(scripts) => Ok(scripts),
        Err(_) => bail!("a script isn't well made"),
    }
}
