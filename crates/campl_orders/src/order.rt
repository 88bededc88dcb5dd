//! The orders and their limits.

/// The most steps that may be asked for.
pub const STEPS_MAX: u32 = 1_000_000;

/// How many steps a run may make where nothing is asked for.
pub const STEPS: u32 = 100_000;

/// The most workers.
pub const WORKERS_MAX: u32 = 16;

/// How many workers there are where nothing is asked for.
pub const WORKERS: u32 = 4;

/// The most stages that are generated.
pub const STAGES_MAX: u32 = 10_000;

/// What a command line orders.
#[derive(Clone, Copy, Debug)]
pub enum Order<'a> {
    /// `run FILE [--script FILE] [--steps N] [--workers N]`
    Run {
        file: &'a str,
        script: Option<&'a str>,
        steps: u32,
        workers: u32,
    },
    /// `check FILE`
    Check {
        file: &'a str,
    },
    /// `code FILE`
    Code {
        file: &'a str,
    },
    /// `generate N [--workers N]`
    Generate {
        stages: u32,
        workers: u32,
    },
    /// `migrate FILE`
    Migrate {
        file: &'a str,
    },
}
