//! What is told of a step.
ghost use Rattle.std.specs.Prelude.{◌≡◌, Some, None, option_map};
ghost use Rattle.campl_cells.specs.Steps.{first_of, second_of};
ghost use Rattle.campl_meaning.specs.States as k;
ghost use Rattle.campl_parts.specs.Views.{drawn_of, entry_of, kind_of};
ghost use Rattle.campl_steps.specs.Readiness.{borne_channels};

use crate::plan::Borne;
use campl_parts::{Drawn, Entry, Kind, Life};
use campl_value::Message;

// A step at an end, and the message that was taken there or sent, if one was.
pub(crate) fn at_end(process: u32, kind: Kind, end: u32, message: Option<Message>) -> Entry
    ensures { entry_of result ≡ record { process = process; kind = kind_of kind; weight = 1; end = Some end; second = None; message = message; child = None; channel = None; channel2 = None } }
{
    Entry {
        process,
        kind,
        weight: 1,
        end: Some(end),
        second: None,
        message,
        child: None,
        channel: None,
        channel2: None,
    }
}

// A step at no end.
pub(crate) fn at_none(process: u32, kind: Kind) -> Entry
    ensures { entry_of result ≡ record { process = process; kind = kind_of kind; weight = 1; end = None; second = None; message = None; child = None; channel = None; channel2 = None } }
{
    Entry {
        process,
        kind,
        weight: 1,
        end: None,
        second: None,
        message: None,
        child: None,
        channel: None,
        channel2: None,
    }
}

// An identity of two ends.
pub(crate) fn of_link(process: u32, end: u32, second: u32) -> Entry
    ensures { entry_of result ≡ record { process = process; kind = k.Link; weight = 1; end = Some end; second = Some second; message = None; child = None; channel = None; channel2 = None } }
{
    Entry {
        process,
        kind: Kind::Link,
        weight: 1,
        end: Some(end),
        second: Some(second),
        message: None,
        child: None,
        channel: None,
        channel2: None,
    }
}

// A step that waited for nothing: the message that was sent, the child and the channels that were born, if there are such.
pub(crate) fn of_move(
    process: u32,
    kind: Kind,
    end: Option<u32>,
    message: Option<Message>,
    child: &Option<Life>,
    channels: Borne,
    drawn: Drawn,
) -> Entry
    ensures { entry_of result ≡ record {
      process = process;
      kind = kind_of kind;
      weight = 1;
      end = end;
      second = None;
      message = message;
      child = option_map (λ life. drawn.child) child.now;
      channel = first_of (borne_channels (drawn_of drawn) channels);
      channel2 = second_of (borne_channels (drawn_of drawn) channels);
    } }
{
    Entry {
        process,
        kind,
        weight: 1,
        end,
        second: None,
        message,
        child: child_number(child, drawn),
        channel: first_channel(channels, drawn),
        channel2: second_channel(channels, drawn),
    }
}

fn child_number(child: &Option<Life>, drawn: Drawn) -> Option<u32>
    ensures { result ≡ option_map (λ life. drawn.child) child.now }
{
    match child {
        None => None,
        Some(_) => Some(drawn.child),
    }
}

fn first_channel(channels: Borne, drawn: Drawn) -> Option<u32>
    ensures { result ≡ first_of (borne_channels (drawn_of drawn) channels) }
{
    match channels {
        Borne::None => None,
        Borne::One => Some(drawn.channel),
        Borne::Two => Some(drawn.channel),
    }
}

fn second_channel(channels: Borne, drawn: Drawn) -> Option<u32>
    ensures { result ≡ second_of (borne_channels (drawn_of drawn) channels) }
{
    match channels {
        Borne::None => None,
        Borne::One => None,
        Borne::Two => Some(drawn.channel2),
    }
}
