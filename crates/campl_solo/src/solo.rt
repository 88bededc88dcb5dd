//! The run of one at a time.
ghost use Rattle.std.specs.Prelude.{◌≡◌, ◌≤◌, ◌^◌, ◌<◌, ◌+◌, Some, IfOk, List, codes, map};
ghost use Rattle.campl_tree.specs.Plain.Decl.{Program as Source};
ghost use Rattle.campl_types.specs.World.{world_of};
ghost use Rattle.campl_types.specs.Run.{services_of};
ghost use Rattle.campl_service.specs.Scripts.{Lines};
ghost use Rattle.campl_meaning.specs.Lawful.{IsAccepted};
ghost use Rattle.campl_meaning.specs.Reductions.{Configuration};
ghost use Rattle.campl_code_bodies.specs.BodyCode.{process_number};
ghost use Rattle.campl_code_bodies.specs.Bodies.{StandsFor};
ghost use Rattle.campl_cells.specs.Stands.{Naming};
ghost use Rattle.campl_eval.specs.View.{code_of};
ghost use Rattle.campl_parts.specs.Journal.{weight_of};
ghost use Rattle.campl_solo.specs.Asking.{Searched};
ghost use Rattle.campl_solo.specs.Beginning.{servings_at_start};
ghost use Rattle.campl_solo.specs.Solos.{IsAtStart, IsRun, Ran, Written};

use campl_order::Schedule;
use campl_parts::Journal;
use campl_program::Program;
use campl_service::Service;
use campl_steps::Config;
use std::alloc::{AllocError, Global};

/// Why a run stopped.
#[derive(Clone, Copy, Debug, PartialEq, Eq)]
pub enum Stop {
    /// Nobody has a step.
    Rested,
    /// The budget is spent, and somebody has a step.
    Spent,
}

/// A run of one at a time: where it has come to, and the tables that say who may step.
#[derive(Drop)]
pub struct Solo {
    pub config: Config,
    pub(crate) schedule: Schedule,
}

impl Solo {
    /// The run of a source at its start: the process `run`, which has this number of the code, and the services of its heading.
    ///
    /// # Errors
    ///
    /// `AllocError` where memory or numbers are out.
    pub fn start(
        alloc: Global,
        program: &Program,
        number: u32,
        services: Vec<Service>,
    ) -> Result<Solo, AllocError>
        ensures { (source : Source) (scripts : List Lines) → IsAccepted source → StandsFor (world_of source) (code_of program.now)
            → process_number (world_of source) (codes "run") ≡ Some number
            → map (λ s. s.serving) services.items ≡ servings_at_start (services_of (world_of source)) scripts
            → IfOk result (IsAtStart source (code_of program.now) scripts) }
    {
        let channels = services.len();
        let config = match Config::start(alloc, program, number, services) {
            Ok(config) => config,
            Err(error) => return Err(error),
        };
        match Schedule::start(alloc, channels, channels) {
            Ok(schedule) => Ok(Solo { config, schedule }),
            Err(error) => Err(error),
        }
    }

    /// A step of the first who has one, with its entry in the journal; whether somebody had one.
    ///
    /// # Errors
    ///
    /// `AllocError` where memory or numbers are out. Run and journal stand where they stood then.
    pub fn step(
        &mut self,
        alloc: Global,
        program: &Program,
        journal: &mut Journal,
    ) -> Result<bool, AllocError>
        requires run { (source : Source) × (n : Naming) × (c : Configuration) × IsRun source (code_of program.now) n c self.old }
        requires within { weight_of journal.old.entries + 1 < 2 ^ 64 }
        ensures { (source : Source) (n : Naming) (c : Configuration) → IsRun source (code_of program.now) n c self.old
            → Written source (code_of program.now) n c self.old self.new journal.old.entries journal.new.entries result }
    {
        match journal.make_room(1) {
            Ok(()) => {}
            Err(error) => return Err(error),
        }
        while let Some(number) = self.schedule.first() {
            match self.ask(alloc, program, number, journal) {
                Ok(false) => {}
                Ok(true) => return Ok(true),
                Err(error) => return Err(error),
            }
        }
        Ok(false)
    }

    /// Steps until nobody has one, or until the journal's weight is the budget; the journal gets an entry for each.
    ///
    /// # Errors
    ///
    /// `AllocError` where memory or numbers are out. The journal has the steps then that were made.
    pub fn run(
        &mut self,
        alloc: Global,
        program: &Program,
        journal: &mut Journal,
        budget: u64,
    ) -> Result<Stop, AllocError>
        requires run { (source : Source) × (n : Naming) × (c : Configuration) × IsRun source (code_of program.now) n c self.old }
        requires within { weight_of journal.old.entries ≤ budget }
        ensures { (source : Source) (n : Naming) (c : Configuration) → IsRun source (code_of program.now) n c self.old
            → Ran source (code_of program.now) budget n c self.old self.new journal.old.entries journal.new.entries result }
    {
        while journal.weight() < budget {
            match self.step(alloc, program, journal) {
                Ok(true) => {}
                Ok(false) => return Ok(Stop::Rested),
                Err(error) => return Err(error),
            }
        }
        match self.has_step(alloc, program) {
            Ok(true) => Ok(Stop::Spent),
            Ok(false) => Ok(Stop::Rested),
            Err(error) => Err(error),
        }
    }

    // Whether somebody has a step. Whoever is asked and has none is no longer flagged.
    fn has_step(&mut self, alloc: Global, program: &Program) -> Result<bool, AllocError>
        requires { (source : Source) × (n : Naming) × (c : Configuration) × IsRun source (code_of program.now) n c self.old }
        ensures { (source : Source) (n : Naming) (c : Configuration) → IsRun source (code_of program.now) n c self.old
            → Searched source (code_of program.now) n c self.old self.new result }
    {
        while let Some(number) = self.schedule.first() {
            match self.look(alloc, program, number) {
                Ok(false) => {}
                Ok(true) => return Ok(true),
                Err(error) => return Err(error),
            }
        }
        Ok(false)
    }
}
