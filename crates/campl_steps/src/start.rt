//! The configuration at the start: a process and, at the far ends of its channels, services.
ghost use Rattle.std.specs.Prelude.{◌≡◌, ◌<◌, ◌≤◌, ◌+◌, ◌*◌, ◌^◌, ◌-◌, ◌∷◌, Some, IfOk, length, map, slice_get, vec_len};
ghost use Rattle.campl_code.specs.Instructions.{Block};
ghost use Rattle.campl_code.specs.Frames.{frame_size};
ghost use Rattle.campl_eval.specs.View.{code_of};
ghost use Rattle.campl_cells.specs.Parts.{Serves, written};
ghost use Rattle.campl_cells.specs.Steps.{borne};
ghost use Rattle.campl_cells.specs.Starts.{first_ends, unborn};
ghost use Rattle.campl_parts.specs.Ends.{ends_of};
ghost use Rattle.campl_parts.specs.Tables.{tips};
ghost use Rattle.campl_parts.specs.Views.{life_of, proc_of};
ghost use Rattle.campl_steps.specs.Begins.{IsFirstLife, IsStart, attending, channels_from};

use crate::config::Config;
use campl_operands::Variables;
use campl_parts::{Begun, EndPart, Ends, Life, ProcPart, channel};
use campl_program::Program;
use campl_service::Service;
use std::alloc::{AllocError, Global};

/// How many services there may be.
const MOST_SERVICES: usize = 0x3fff_ffff;

impl Config {
    /// The configuration at the start: the process with this number of the code, with the near ends of as many channels as there
    /// are services, and the services at their far ends.
    ///
    /// # Errors
    ///
    /// `AllocError` where memory wants, or where there are 2^30 services or more.
    pub fn start(
        alloc: Global,
        program: &Program,
        number: u32,
        services: Vec<Service>,
    ) -> Result<Config, AllocError>
        ensures { IfOk result (IsStart (code_of program.now) number (map (λ s. s.serving) services.items)) }
    {
        let count = services.len();
        if MOST_SERVICES < count {
            return Err(AllocError);
        }
        let ends = open(alloc, count)?;
        let life = first(alloc, program, number, count)?;
        let processes = people(alloc, life, services)?;
        Ok(Config { processes, ends })
    }
}

// The ends of so many channels.
#[tactic(auto, using(crate::proofs::Starting::open_more))]
fn open(alloc: Global, count: usize) -> Result<Vec<EndPart>, AllocError>
    requires { count < 2 ^ 30 }
    ensures { IfOk result (λ ends. (vec_len ends ≡ 2 * count) × (tips ends.items ≡ written (borne (channels_from 0 count)) (λ e. None))) }
{
    let mut ends = Vec::new(alloc);
    ends.reserve(2 * count)?;
    for _ in 0..count {
        channel(alloc, &mut ends);
    }
    Ok(ends)
}

// The process with this number, with the near ends of so many channels.
#[tactic(auto, using(crate::proofs::Starting::first_life))]
fn first(alloc: Global, program: &Program, number: u32, count: usize) -> Result<Life, AllocError>
    requires { count < 2 ^ 30 }
    ensures { IfOk result (λ life. IsFirstLife (code_of program.now) number count (life_of life)) }
{
    let ends = near_ends(alloc, count)?;
    let mut variables = Variables::new(alloc);
    variables.pad(missing(program, number))?;
    let begun = Begun {
        block: block_of(program, number),
        at: 0,
        variables,
        ends,
    };
    begun.begin(alloc, program)
}

// The number of this process's block: functions are numbered first.
fn block_of(program: &Program, number: u32) -> usize
    ensures { result ≡ length (code_of program.now).functions + number }
{
    let functions = program.raw().functions.as_slice();
    functions.len() + number as usize
}

// How many variables the frame of this process has behind its parameters.
fn missing(program: &Program, number: u32) -> usize
    ensures { (b : Block) → slice_get (code_of program.now).processes number ≡ Some b → result ≡ frame_size (code_of program.now).decisions b - b.variables }
{
    match program.process_entry(number) {
        None => 0,
        Some((parameters, size)) => size.saturating_sub(parameters as usize),
    }
}

// The near ends of the first channels, so many.
#[tactic(auto, using(crate::proofs::Starting::first_more))]
fn near_ends(alloc: Global, count: usize) -> Result<Ends, AllocError>
    requires { count < 2 ^ 30 }
    ensures { IfOk result (λ ends. ends_of ends ≡ first_ends count) }
{
    let mut ends = Ends::new(alloc);
    for channel in 0..count {
        ends.set(channel as u32, 2 * channel as u32)?;
    }
    Ok(ends)
}

// The process and the services.
#[tactic(auto, using(crate::proofs::Starting::attend_more))]
fn people(alloc: Global, life: Life, services: Vec<Service>) -> Result<Vec<ProcPart>, AllocError>
    requires { vec_len services < 2 ^ 30 }
    ensures { IfOk result (λ processes. map proc_of processes.items ≡ unborn (life_of life) ∷ attending 0 (map (λ s. s.serving) services.items)) }
{
    let mut processes = Vec::new(alloc);
    processes.push(unborn(life))?;
    let mut far = 1;
    for service in services {
        processes.push(attending(alloc, far, service)?)?;
        far += 2;
    }
    Ok(processes)
}

// A service at this end.
fn attending(alloc: Global, end: u32, service: Service) -> Result<ProcPart, AllocError>
    ensures { IfOk result (λ part. proc_of part ≡ unborn (Serves end service.serving)) }
{
    match Box::new(alloc, service) {
        Ok(service) => Ok(unborn(Life::Serves(end, service))),
        Err(_) => Err(AllocError),
    }
}

// A process or service that was there from the start.
fn unborn(life: Life) -> ProcPart
    ensures { proc_of result ≡ unborn (life_of life) }
{
    ProcPart {
        life,
        parent: 0,
        born: 0,
        steps: 0,
    }
}
