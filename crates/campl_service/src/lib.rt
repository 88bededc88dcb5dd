//! Services, which stand at the far ends of `run`'s channels, and the scripts that they send.
//!
//! A service takes constructors and texts and sends the lines of its script, one action at a time (`service`, `phase`). It
//! writes each text, each line and its end down in a transcript, whose lines are printed with escapes (`transcript`, `record`).
//! What it has still to send is a list of lines (`script`), each of which is a value already (`text`). Scripts of both versions are read out of a text
//! (`reading`) line by line (`entry`), with their escapes (`escapes`, `characters`), limits (`limits`) and faults (`fault`).
//! A script is written anew in version 2 by `migration`. What holds of every action stands in `laws`.
//!
//! ```text
//! let mut scripts = read_script(alloc, &text, &names)?; // or Scripts::none(alloc, 1)?
//! let mut console = Service::new(alloc, ServiceKind::Console, scripts.take(0));
//! console.act(Some(Message::Pick(0)))?; // ConsolePut
//! console.act(Some(Message::Word(hello)))?;
//! console.transcript().append_to(&mut bytes)?; // > Hello
//! ```
#![tactic(auto)]

mod characters;
mod entry;
mod escapes;
mod fault;
mod laws;
mod limits;
mod migration;
mod phase;
mod reading;
mod record;
mod script;
mod service;
mod text;
mod transcript;

pub use fault::{MigrateFault, ScriptFault};
pub use laws::law_actions;
pub use limits::{
    LINE_MAX, LINES_MAX, NAME_MAX, SCRIPT_BYTES_MAX, TEXT_MAX, VERSION_2_LINE_MAX,
    VERSION_2_LINES_MAX,
};
pub use migration::migrate_script;
pub use phase::{ServiceKind, Want};
pub use reading::read_script;
pub use script::{Script, Scripts};
pub use service::{Service, ServiceRefused};
pub use transcript::Transcript;
