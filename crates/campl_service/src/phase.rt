//! Kinds of services, and what they wait for.
ghost use Rattle.std.specs.Prelude.{◌≡◌, ◌<◌, Some};
ghost use Rattle.campl_service.specs.Services.{request};

/// What stands at the far end of a channel of `run`.
#[derive(Clone, Copy, Debug, PartialEq, Eq)]
pub enum ServiceKind {
    /// At an input of `run`, which takes `ConsolePut`, `ConsoleGet` and `ConsoleClose`, numbered from 0.
    Console,
    /// At an output of `run`, which takes `StringTerminalGet`, `StringTerminalPut` and `StringTerminalClose`, numbered from 0.
    Terminal,
}

/// What a service wants.
#[derive(Clone, Copy, Debug, PartialEq, Eq)]
pub enum Want {
    /// A constructor.
    Pick,
    /// A text.
    Text,
    /// To send the next line of its script.
    Send,
    /// To send a line where its script is spent: it stands.
    Spent,
    /// Nothing more.
    Closed,
}

// What a service does next.
#[derive(Clone, Copy)]
pub enum Phase {
    Pick,
    Text,
    Send,
    Closed,
}

// What a constructor asks of a service.
#[derive(Clone, Copy)]
pub enum Request {
    Put,
    Get,
    Close,
}

// What the constructor of this number asks.
pub fn request_of(kind: ServiceKind, number: u32) -> Request
    requires { number < 3 }
    ensures { request kind number ≡ Some result }
{
    if number == 2 {
        return Request::Close;
    }
    match (kind, number == 0) {
        (ServiceKind::Console, true) | (ServiceKind::Terminal, false) => Request::Put,
        (ServiceKind::Console, false) | (ServiceKind::Terminal, true) => Request::Get,
    }
}
