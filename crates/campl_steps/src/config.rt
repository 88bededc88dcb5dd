//! Configurations.
ghost use Rattle.std.specs.Prelude.{◌≡◌, ◌%◌, vec_len};

use campl_parts::{EndPart, ProcPart};

/// Processes and services, and the ends of channels, by number. Channel `c` has the ends `2 * c` and `2 * c + 1`.
#[derive(Drop)]
pub struct Config {
    pub processes: Vec<ProcPart>,
    pub ends: Vec<EndPart>,
    ghost paired: { vec_len ends % 2 ≡ 0 },
}
