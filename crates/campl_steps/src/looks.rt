//! What one sees of a configuration. Nothing here takes memory.
ghost use Rattle.std.specs.Prelude.{◌≡◌, ◌+◌, Some, length, option_map};
ghost use Rattle.std.specs.Option.{option_copied};
ghost use Rattle.campl_cells.specs.Parts.{or_bare};
ghost use Rattle.campl_parts.specs.Tables.{procs, tips};
ghost use Rattle.campl_parts.specs.Views.{life_of, proc_of};
ghost use Rattle.campl_service.specs.Services.{want};
ghost use Rattle.campl_steps.specs.Looks.{birth_of, is_asked, is_spent, serving_at, serving_of, written_down};

use crate::config::Config;
use campl_parts::{Life, ProcPart, peer};
use campl_service::{Service, Transcript, Want};

/// The process that bore a process, and at which of its steps.
#[derive(Clone, Copy, Debug)]
pub struct Birth {
    pub parent: u32,
    pub step: u64,
}

impl Config {
    /// Where a process was born: None of process 0, of services, and of a number that isn't in use.
    pub fn birth_of(&self, number: u32) -> Option<Birth>
        ensures { result ≡ birth_of number (procs self.now.processes.items number) }
    {
        match self.processes.get(number as usize) {
            None => None,
            Some(part) => born(number, part),
        }
    }

    /// What the service with this number among the services, from 0, wrote down; None where there is no such service.
    pub fn transcript(&self, service: u32) -> Option<&Transcript>
        ensures { option_copied result ≡ written_down (serving_at (procs self.now.processes.items (service + 1))) }
    {
        match self.service(service) {
            None => None,
            Some(service) => Some(service.transcript()),
        }
    }

    /// Whether the service with this number among the services, from 0, was asked for a line that its script doesn't have.
    pub fn asked(&self, service: u32) -> bool
        ensures { result ≡ is_asked (serving_at (procs self.now.processes.items (service + 1))) }
    {
        match self.service(service) {
            None => false,
            Some(service) => is_spent(service.wants()),
        }
    }

    // The service with this number among the services.
    fn service(&self, service: u32) -> Option<&Service>
        ensures { option_map (λ s. s.serving) (option_copied result) ≡ serving_at (procs self.now.processes.items (service + 1)) }
    {
        match self.processes.get(service as usize + 1) {
            None => None,
            Some(part) => serving(&part.life),
        }
    }

    /// The other end of an end's channel, where the end is there and has one.
    pub fn peer_of(&self, end: u32) -> Option<u32>
        ensures { result ≡ (or_bare (tips self.now.ends.items end)).peer }
    {
        peer(self.ends.as_slice(), end)
    }

    /// How many messages lie at an end; 0 of an end that isn't there.
    pub fn inbox_len(&self, end: u32) -> usize
        ensures { result ≡ length (or_bare (tips self.now.ends.items end)).inbox }
    {
        match self.ends.get(end as usize) {
            None => 0,
            Some(part) => part.inbox.len(),
        }
    }
}

fn born(number: u32, part: &ProcPart) -> Option<Birth>
    ensures { result ≡ birth_of number (Some (proc_of part.now)) }
{
    if number == 0 {
        return None;
    }
    match &part.life {
        Life::Ended => Some(Birth {
            parent: part.parent,
            step: part.born,
        }),
        Life::Runs(_) => Some(Birth {
            parent: part.parent,
            step: part.born,
        }),
        Life::Serves(_, _) => None,
    }
}

// The service that one is.
fn serving(life: &Life) -> Option<&Service>
    ensures { option_map (λ s. s.serving) (option_copied result) ≡ serving_of (life_of life.now) }
{
    match life {
        Life::Ended => None,
        Life::Runs(_) => None,
        Life::Serves(_, service) => Some(service.as_ref()),
    }
}

fn is_spent(want: Want) -> bool
    ensures { result ≡ is_spent want }
{
    match want {
        Want::Spent => true,
        Want::Pick => false,
        Want::Text => false,
        Want::Send => false,
        Want::Closed => false,
    }
}
