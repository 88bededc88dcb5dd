//! A gate that may hold workers back.
ghost use Rattle.std.specs.Prelude.{◌≡◌, true};

/// What a run's workers pass before each step, and tell of each step that they made.
pub trait Gate: Sync {
    /// Whether the worker of this number may go on. A worker that may not stops.
    fn pass(&self, worker: u32) -> bool;

    /// The worker of this number has made a step.
    fn committed(&self, worker: u32);
}

/// A gate that lets everyone pass.
#[derive(Clone, Copy, Debug)]
pub struct OpenGate;

impl Gate for OpenGate {
    fn pass(&self, worker: u32) -> bool
        ensures { result ≡ true }
    {
        let _ = worker;
        true
    }

    fn committed(&self, worker: u32) {
        let _ = worker;
    }
}
