//! A whole run.
ghost use Rattle.std.specs.Prelude.{◌≡◌, List, IfOk, length, map};
ghost use Rattle.campl_tree.specs.Plain.Decl.{Program as Source};
ghost use Rattle.campl_tree.specs.View.{view_decl};
ghost use Rattle.campl_types.specs.World.{world_of};
ghost use Rattle.campl_types.specs.Run.{services_of};
ghost use Rattle.campl_service.specs.Scripts.{Lines};
ghost use Rattle.campl_meaning.specs.Lawful.{IsAccepted};
ghost use Rattle.campl_code.specs.Forward.{IsForward};
ghost use Rattle.campl_code_bodies.specs.Bodies.{StandsFor};
ghost use Rattle.campl_instructions.specs.View.{view_code};
ghost use Rattle.campl_eval.specs.View.{code_of};
ghost use Rattle.campl_solo.specs.Solos.{IsAtStart};
ghost use Rattle.campl_run.specs.Endings.{IsToldOf};
ghost use Rattle.campl_run.specs.Runs.{IsRunThrough};

use crate::ended::{Ended, ended_by};
use crate::number::number_of_run;
use crate::output::output;
use crate::services::{services_at_start, services_of};
use campl_instructions::RawCode;
use campl_names::World;
use campl_parts::Journal;
use campl_program::Program;
use campl_service::Scripts;
use campl_solo::{Solo, Stop};
use campl_steps::Config;
use campl_tree::ServiceName;
use std::alloc::{AllocError, Global};

/// What a run did, how it ended, and what it prints.
#[derive(Drop)]
pub struct Ran {
    /// The steps that were made, the oldest first.
    pub journal: Journal,
    pub ended: Ended,
    /// The lines of each service channel in the order of the heading, and the last line.
    pub output: Vec<u8>,
}

/// Runs the code of a source with these scripts, one for each service in the order of the heading, until it ends or as many steps
/// are made as the budget allows. It is the run of one at a time: again and again the first process or service, in the order of
/// their names, that has a step makes it. The source is accepted, the code stands for it, and the code's jumps lead onward. The world
/// goes before the first step, and the code after the last.
///
/// # Errors
///
/// `AllocError` where memory wants, or where there are 2^31 processes or channels.
pub fn run(
    alloc: Global,
    world: World,
    code: RawCode,
    scripts: Scripts,
    budget: u64,
) -> Result<Ran, AllocError>
    requires accepted { (source : Source) × IsAccepted source × (map view_decl world ≡ world_of source) × StandsFor (world_of source) (view_code code) }
    requires onward { IsForward (view_code code) }
    requires scripts { length scripts ≡ length (services_of (map view_decl world)) }
    ensures { (source : Source) → IsAccepted source → map view_decl world ≡ world_of source → StandsFor (world_of source) (view_code code)
        → IfOk result (IsRunThrough source scripts budget) }
{
    let Ok(names) = services_of(alloc, &world) else {
        return Err(AllocError);
    };
    let Ok(number) = number_of_run(alloc, &world) else {
        return Err(AllocError);
    };
    drop(world);
    let Ok(services) = services_at_start(alloc, names.as_slice(), scripts) else {
        return Err(AllocError);
    };
    let Ok(program) = Program::assemble(alloc, code) else {
        return Err(AllocError);
    };
    match Solo::start(alloc, &program, number, services) {
        Err(error) => Err(error),
        Ok(mut solo) => run_on(alloc, program, names.as_slice(), &mut solo, budget),
    }
}

// Runs on from the start of a source whose services have these names.
fn run_on(
    alloc: Global,
    program: Program,
    names: &[ServiceName],
    solo: &mut Solo,
    budget: u64,
) -> Result<Ran, AllocError>
    requires { (source : Source) × (scripts : List Lines) × IsAtStart source (code_of program) scripts solo.old }
    ensures { (source : Source) (scripts : List Lines) → IsAtStart source (code_of program) scripts solo.old
        → names.now ≡ services_of (world_of source) → IfOk result (IsRunThrough source scripts budget) }
{
    let mut journal = Journal::new(alloc);
    let stopped = solo.run(alloc, &program, &mut journal, budget);
    drop(program);
    match stopped {
        Err(error) => Err(error),
        Ok(stop) => tell(alloc, stop, &solo.config, journal, names),
    }
}

// What is told of a run that stopped here.
fn tell(
    alloc: Global,
    stop: Stop,
    config: &Config,
    journal: Journal,
    names: &[ServiceName],
) -> Result<Ran, AllocError>
    ensures { IfOk result (IsToldOf stop config.now journal.entries names.now) }
{
    let ended = ended_by(stop, config);
    let steps = journal.weight();
    match output(alloc, names, config.processes.as_slice(), ended, steps) {
        Err(error) => Err(error),
        Ok(output) => Ok(Ran {
            journal,
            ended,
            output,
        }),
    }
}
