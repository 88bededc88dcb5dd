//! What one sees of a configuration.
use anyhow::Result;
use campl_program::Program;
use campl_service::Transcript;
use campl_steps::Config;
use std::alloc::Global;
use std::io::Write;

/// Prints what one sees behind so many steps.
pub fn print_seen(
    alloc: Global,
    program: &Program,
    config: &Config,
    steps: u32,
    out: &mut impl Write,
) -> Result<()> {
    writeln!(out, "at {steps}")?;
    for number in 0..=config.len() as u64 {
        if let Ok(number) = u32::try_from(number) {
            print_process(program, config, number, out)?;
        }
    }
    print_services(alloc, config, out)?;
    print_ends(config, out)
}

fn print_process(
    program: &Program,
    config: &Config,
    number: u32,
    out: &mut impl Write,
) -> Result<()> {
    let next = config.next_of(program, number);
    write!(out, "{number} {next:?} ")?;
    match config.birth_of(number) {
        Some(birth) => write!(out, "{}.{} on", birth.parent, birth.step)?,
        None => write!(out, "- on")?,
    }
    for i in 0..u32::MAX {
        match config.waits_on(program, number, i) {
            Some(end) => write!(out, " {end}")?,
            None => break,
        }
    }
    Ok(writeln!(out)?)
}

fn print_services(alloc: Global, config: &Config, out: &mut impl Write) -> Result<()> {
    for service in 0..u32::MAX {
        let Some(transcript) = config.transcript(service) else {
            break;
        };
        let asked = if config.asked(service) { "asked" } else { "-" };
        writeln!(out, "service {asked}")?;
        print_transcript(alloc, transcript, out)?;
    }
    Ok(())
}

fn print_transcript(alloc: Global, transcript: &Transcript, out: &mut impl Write) -> Result<()> {
    let mut lines = Vec::new(alloc);
    transcript.append_to(&mut lines)?;
    Ok(out.write_all(lines.as_slice())?)
}

fn print_ends(config: &Config, out: &mut impl Write) -> Result<()> {
    write!(out, "ends")?;
    for end in 0..=config.ends() as u64 {
        if let Ok(end) = u32::try_from(end) {
            print_end(config, end, out)?;
        }
    }
    Ok(writeln!(out)?)
}

fn print_end(config: &Config, end: u32, out: &mut impl Write) -> Result<()> {
    let lying = config.inbox_len(end);
    match config.peer_of(end) {
        Some(peer) => write!(out, " {peer}/{lying}")?,
        None => write!(out, " -/{lying}")?,
    }
    Ok(())
}
