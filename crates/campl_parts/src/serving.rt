//! Steps of services.
ghost use Rattle.std.specs.Prelude.{◌≡◌, ◌<◌, ◌≤◌, ◌^◌, Some, None, IfOk, OnOk, is_some, option_map};
ghost use Rattle.campl_value.specs.Text.{chars_of};
ghost use Rattle.campl_service.specs.Services as services;
ghost use Rattle.campl_cells.specs.Wants.{serving_want};
ghost use Rattle.campl_parts.specs.Serving.{Goes, Hears, IsReady, IsRoomy, IsSuited, Says, is_request, is_text};
ghost use Rattle.campl_parts.specs.Views.{life_of, proc_of};
ghost use Rattle.campl_parts.specs.Wanted.{want_of};

use crate::entry::Kind;
use crate::part::{Life, ProcPart};
use crate::want::Want;
use campl_service::{Service, Want as Waits};
use campl_value::{Message, Value};
use std::alloc::{AllocError, Global};

// What a service at this end does next.
pub(crate) fn serve(end: u32, service: &Service) -> Want<'_>
    ensures { want_of result ≡ serving_want end service.now.serving (services.want service.now.serving) }
{
    match service.wants() {
        Waits::Pick => Want::Hears {
            kind: Kind::ServePick,
            end,
            service,
        },
        Waits::Text => Want::Hears {
            kind: Kind::ServeText,
            end,
            service,
        },
        Waits::Send => Want::Says { end, service },
        Waits::Spent => Want::Rests,
        Waits::Closed => Want::Rests,
    }
}

/// Whether a message is such as the service waits for. An error means that memory is out.
pub fn suits(alloc: Global, service: &Service, message: &Message) -> Result<bool, AllocError>
    ensures { IfOk result (λ suits. IsSuited suits service.now.serving message.now) }
{
    match service.wants() {
        Waits::Pick => Ok(is_request(message)),
        Waits::Text => match is_text(alloc, message) {
            Ok(is) => Ok(is),
            Err(error) => Err(error),
        },
        Waits::Send => Ok(false),
        Waits::Spent => Ok(false),
        Waits::Closed => Ok(false),
    }
}

// Whether a message is one of the three constructors of a service.
fn is_request(message: &Message) -> bool
    ensures { result ≡ is_request message.now }
{
    match message {
        Message::Pick(number) => *number < 3,
        Message::Word(_) => false,
        Message::Ends(_, _) => false,
    }
}

fn is_text(alloc: Global, message: &Message) -> Result<bool, AllocError>
    ensures { IfOk result (λ is. is ≡ is_text message.now) }
{
    match message {
        Message::Word(value) => is_text_value(alloc, value),
        Message::Pick(_) => Ok(false),
        Message::Ends(_, _) => Ok(false),
    }
}

fn is_text_value(alloc: Global, value: &Value) -> Result<bool, AllocError>
    ensures { IfOk result (λ is. is ≡ is_some (chars_of value.now)) }
{
    match value.characters(alloc) {
        Ok(Some(_)) => Ok(true),
        Ok(None) => Ok(false),
        Err(error) => Err(error),
    }
}

impl ProcPart {
    /// Takes the memory of a service's next step, and changes nothing else. An error means that memory is out.
    pub fn make_room(&mut self) -> Result<(), AllocError>
        ensures same { proc_of self.new ≡ proc_of self.old }
        ensures room { OnOk result (IsRoomy self.new.life) }
    {
        match &mut self.life {
            Life::Serves(_, service) => service.as_mut().make_room(),
            Life::Ended => Ok(()),
            Life::Runs(_) => Ok(()),
        }
    }

    /// A service takes a message, one step later. It takes no memory.
    pub fn hear(&mut self, message: Message)
        requires few { self.old.steps < 2 ^ 62 }
        requires ready { IsReady self.old.life (Some message) }
        ensures { Goes (proc_of self.old) (proc_of self.new) × Hears message (life_of self.old.life) (life_of self.new.life) }
    {
        self.steps += 1;
        self.life.hear(message);
    }

    /// A service sends the next line of its script, one step later. It takes no memory.
    pub fn say(&mut self) -> Option<Message>
        requires few { self.old.steps < 2 ^ 62 }
        requires ready { IsReady self.old.life None }
        ensures { Goes (proc_of self.old) (proc_of self.new) × Says result (life_of self.old.life) (life_of self.new.life) }
    {
        self.steps += 1;
        self.life.say()
    }
}

impl Life {
    fn hear(&mut self, message: Message)
        requires { IsReady self.old (Some message) }
        ensures { Hears message (life_of self.old) (life_of self.new) }
    {
        match self {
            Life::Serves(_, service) => hear(service.as_mut(), message),
            Life::Ended => drop(message),
            Life::Runs(_) => drop(message),
        }
    }

    fn say(&mut self) -> Option<Message>
        requires { IsReady self.old None }
        ensures { Says result (life_of self.old) (life_of self.new) }
    {
        match self {
            Life::Serves(_, service) => say(service.as_mut()),
            Life::Ended => None,
            Life::Runs(_) => None,
        }
    }
}

fn hear(service: &mut Service, message: Message)
    requires suits { services.Suits (services.want service.old.serving) (Some message) }
    requires room { 1 ≤ service.old.spare }
    ensures { option_map (λ a. a.0) (services.action service.old.serving (Some message)) ≡ Some service.new.serving }
{
    match service.act(Some(message)) {
        Ok(_) => {}
        Err(_) => unreachable!(),
    }
}

fn say(service: &mut Service) -> Option<Message>
    requires suits { services.Suits (services.want service.old.serving) None }
    requires room { 1 ≤ service.old.spare }
    ensures { services.action service.old.serving None ≡ Some (service.new.serving, result) }
{
    match service.act(None) {
        Ok(message) => message,
        Err(_) => unreachable!(),
    }
}
