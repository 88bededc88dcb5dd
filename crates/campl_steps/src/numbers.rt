//! How much there is of a configuration, and the numbers of what a step bears.
ghost use Rattle.std.specs.Prelude.{◌≡◌, ◌<◌, ◌+◌, ◌^◌, ⊤, MatchOption, length};
ghost use Rattle.campl_parts.specs.Views.{drawn_of};
ghost use Rattle.campl_parts.specs.Tables.{procs};
ghost use Rattle.campl_steps.specs.Configs.{drawn, steps_of};

use crate::config::Config;
use campl_parts::Drawn;

/// How many processes and services, and how many channels, there may be.
const MOST_NUMBERS: usize = 0x7fff_fffe;

/// How many steps a process or service may make.
pub(crate) const MOST_STEPS: u64 = 1 << 62;

impl Config {
    /// How many processes and services there are.
    pub fn len(&self) -> usize
        ensures { result ≡ length self.now.processes.items }
    {
        self.processes.len()
    }

    /// How many ends there are.
    pub fn ends(&self) -> usize
        ensures { result ≡ length self.now.ends.items }
    {
        self.ends.len()
    }

    /// How many steps a process or service made, and 0 of one that isn't there.
    pub fn steps(&self, number: u32) -> u64
        ensures { result ≡ steps_of (procs self.now.processes.items number) }
    {
        match self.processes.get(number as usize) {
            None => 0,
            Some(part) => part.steps,
        }
    }

    // The numbers of what a step bears, where there are any left.
    pub(crate) fn drawn(&self) -> Option<Drawn>
        ensures { MatchOption result ⊤ (λ d. (drawn_of d ≡ drawn self.now) × (d.channel + 2 < 2 ^ 31) × (d.channel2 < 2 ^ 31)) }
    {
        let channel = self.ends.len() / 2;
        if MOST_NUMBERS <= self.processes.len() || MOST_NUMBERS <= channel {
            return None;
        }
        Some(Drawn {
            child: self.processes.len() as u32,
            channel: channel as u32,
            channel2: channel as u32 + 1,
        })
    }
}
