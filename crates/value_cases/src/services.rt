//! Services: what they want, what they send, and what they write down.
use crate::lists::text;
use crate::scripts::script_of;
use anyhow::{Result, bail};
use campl_service::{Script, Service, ServiceKind, ServiceRefused, Want};
use campl_value::{Message, Value};
use std::alloc::Global;
use std::io::Write;

// What is given to a service: a constructor, a text, or nothing, so that it sends a line.
#[derive(Clone, Copy)]
enum Given {
    Pick(u32),
    Text(&'static str),
    Nothing,
}

// What was sent, and how deep its value is.
fn depth_sent(answer: std::result::Result<Option<Message>, ServiceRefused>) -> Result<Option<u32>> {
    match answer {
        Ok(Some(message)) => Ok(message.into_word().map(|value| value.depth())),
        Ok(None) => Ok(None),
        Err(_) => bail!("memory is out"),
    }
}

// The service takes the constructor of this number.
fn pick(service: &mut Service, number: u32) -> Result<Option<u32>> {
    match service.wants() {
        Want::Pick if number < 3 => depth_sent(service.act(Some(Message::Pick(number)))),
        _ => bail!("it wants no constructor"),
    }
}

// The service takes a text.
fn take(alloc: Global, service: &mut Service, text: Value) -> Result<Option<u32>> {
    if text.characters(alloc)?.is_none() {
        bail!("it is no text");
    }
    match service.wants() {
        Want::Text => depth_sent(service.act(Some(Message::Word(text)))),
        _ => bail!("it wants no text"),
    }
}

fn send(service: &mut Service) -> Result<Option<u32>> {
    match service.wants() {
        Want::Send => depth_sent(service.act(None)),
        _ => bail!("it sends no line"),
    }
}

fn act(alloc: Global, service: &mut Service, given: &Given) -> Result<Option<u32>> {
    match given {
        Given::Pick(number) => pick(service, *number),
        Given::Text(s) => take(alloc, service, text(alloc, s)?),
        Given::Nothing => send(service),
    }
}

// Prints what the service wants, and what it sends then.
fn print_action(
    alloc: Global,
    out: &mut impl Write,
    service: &mut Service,
    given: &Given,
) -> Result<()> {
    writeln!(out, "it wants {:?}", service.wants())?;
    if let Some(depth) = act(alloc, service, given)? {
        writeln!(out, "it sends a value that is {depth} deep")?;
    }
    Ok(())
}

// Prints what a copy of its transcript tells.
fn print_transcript(alloc: Global, out: &mut impl Write, service: &Service) -> Result<()> {
    let mut bytes = Vec::new(alloc);
    service.transcript().copy()?.append_to(&mut bytes)?;
    out.write_all(bytes.as_slice())?;
    Ok(())
}

fn print_service(
    alloc: Global,
    out: &mut impl Write,
    kind: ServiceKind,
    script: Script,
    given: &[Given],
) -> Result<()> {
    let mut service = Service::new(alloc, kind, script);
    for action in given {
        print_action(alloc, out, &mut service, action)?;
    }
    writeln!(out, "in the end it wants {:?}", service.wants())?;
    print_transcript(alloc, out, &service)
}

pub fn print_services(alloc: Global, out: &mut impl Write) -> Result<()> {
    let console = [Given::Pick(0), Given::Text("a\tb\\"), Given::Pick(2)];
    let script = script_of(alloc, "")?;
    print_service(alloc, out, ServiceKind::Console, script, console.as_slice())?;
    let terminal = [Given::Pick(0), Given::Nothing, Given::Pick(0)];
    let script = script_of(alloc, "console: h\u{1}\u{7f}é\n")?;
    print_service(
        alloc,
        out,
        ServiceKind::Terminal,
        script,
        terminal.as_slice(),
    )
}

// Lets a service send the lines of its script, four at most. `get` is the constructor that asks for one.
fn send_lines(service: &mut Service, get: u32) -> Result<()> {
    for _ in 0..4 {
        pick(service, get)?;
        if service.wants() == Want::Spent {
            return Ok(());
        }
        send(service)?;
    }
    Ok(())
}

// Prints what a service sends of its script.
pub fn print_lines(
    alloc: Global,
    out: &mut impl Write,
    kind: ServiceKind,
    get: u32,
    script: Script,
) -> Result<()> {
    let mut service = Service::new(alloc, kind, script);
    send_lines(&mut service, get)?;
    print_transcript(alloc, out, &service)
}
