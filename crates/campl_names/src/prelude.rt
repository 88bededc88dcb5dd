//! The declarations that stand before every source.
ghost use Rattle.std.specs.Prelude.{◌≡◌, IfOk, codes, map};
ghost use Rattle.std.specs.Str.{chars};
ghost use Rattle.campl_tree.specs.Plain.SeqType as s;
ghost use Rattle.campl_tree.specs.Plain.ChanType as c;
ghost use Rattle.campl_tree.specs.View.{view_seq, view_chan, view_protocol, view_protocol_constructor, view_coprotocol, view_coprotocol_constructor, view_decl, view_program};
ghost use Rattle.campl_types.specs.Prelude.{ident, own_type, letters, answer, offer, console, string_terminal};
ghost use Rattle.campl_types.specs.World.{world_of};

use campl_tree::{
    ChanType, CoprotocolConstructor, CoprotocolDecl, Decl, Ident, Name, Place, Program,
    ProtocolConstructor, ProtocolDecl, SeqType,
};
use sqlite_items::{Boxed, Items};
use std::alloc::{AllocError, Global};

/// The place of what stands in no source.
pub(crate) const NOWHERE: Place = Place { line: 0, column: 0 };

/// The declarations of a program behind those of the prelude.
#[tactic(auto, using(crate::proofs::Preludes::whole))]
pub(crate) fn with_prelude(alloc: Global, program: Program) -> Result<Items<Decl>, AllocError>
    ensures { IfOk result (λ ds. map view_decl ds ≡ world_of (view_program program)) }
{
    let Program { declarations } = program;
    let mut all = Items::new(alloc);
    all.push(Decl::Coprotocol(console(alloc)?))?;
    all.push(Decl::Protocol(string_terminal(alloc)?))?;
    all.append(declarations)?;
    Ok(all)
}

/// A name of the prelude.
fn ident(alloc: Global, text: &str) -> Result<Ident, AllocError>
    ensures { IfOk result (λ x. x ≡ ident (chars text.now)) }
{
    Ok(Ident {
        place: NOWHERE,
        name: Name::of(alloc, text)?,
    })
}

/// `S`, the name that in a line stands for the protocol itself.
#[tactic(auto, using(crate::proofs::Letters::spelled))]
fn own(alloc: Global) -> Result<Ident, AllocError>
    ensures { IfOk result (λ x. x ≡ ident (codes "S")) }
{
    ident(alloc, "S")
}

/// The protocol itself.
#[tactic(auto, using(crate::proofs::Letters::spelled, crate::proofs::Trees::chan_views))]
fn own_type(alloc: Global) -> Result<ChanType, AllocError>
    ensures { IfOk result (λ t. view_chan t ≡ own_type) }
{
    Ok(ChanType::Named(NOWHERE, Name::of(alloc, "S")?, Items::new(alloc)))
}

/// `[Char]`
#[tactic(auto, using(crate::proofs::Trees::seq_views))]
fn letters(alloc: Global) -> Result<SeqType, AllocError>
    ensures { IfOk result (λ t. view_seq t ≡ letters) }
{
    Ok(SeqType::List(Boxed::new(alloc, SeqType::Char)?))
}

/// `Get([Char] | S)`
#[tactic(auto, using(crate::proofs::Trees::chan_views))]
fn gets(alloc: Global) -> Result<ChanType, AllocError>
    ensures { IfOk result (λ t. view_chan t ≡ c.Get letters own_type) }
{
    let text = letters(alloc)?;
    Ok(ChanType::Get(text, Boxed::new(alloc, own_type(alloc)?)?))
}

/// `Put([Char] | S)`
#[tactic(auto, using(crate::proofs::Trees::chan_views))]
fn puts(alloc: Global) -> Result<ChanType, AllocError>
    ensures { IfOk result (λ t. view_chan t ≡ c.Put letters own_type) }
{
    let text = letters(alloc)?;
    Ok(ChanType::Put(text, Boxed::new(alloc, own_type(alloc)?)?))
}

/// `name :: S => channel_type`
fn answer(
    alloc: Global,
    name: &str,
    channel_type: ChanType,
) -> Result<CoprotocolConstructor, AllocError>
    ensures { IfOk result (λ k. view_coprotocol_constructor k ≡ answer (chars name.now) (view_chan channel_type)) }
{
    Ok(CoprotocolConstructor {
        name: ident(alloc, name)?,
        local: own(alloc)?,
        channel_type,
    })
}

/// `name :: channel_type => S`
fn offer(
    alloc: Global,
    name: &str,
    channel_type: ChanType,
) -> Result<ProtocolConstructor, AllocError>
    ensures { IfOk result (λ k. view_protocol_constructor k ≡ offer (chars name.now) (view_chan channel_type)) }
{
    Ok(ProtocolConstructor {
        name: ident(alloc, name)?,
        channel_type,
        local: own(alloc)?,
    })
}

/// `coprotocol S => Console`
#[tactic(auto, using(crate::proofs::Letters::spelled, crate::proofs::Trees::chan_views))]
fn console(alloc: Global) -> Result<CoprotocolDecl, AllocError>
    ensures { IfOk result (λ d. view_coprotocol d ≡ console) }
{
    Ok(CoprotocolDecl {
        place: NOWHERE,
        local: own(alloc)?,
        name: ident(alloc, "Console")?,
        parameters: Items::new(alloc),
        constructors: console_lines(alloc)?,
    })
}

/// The lines of `Console`.
#[tactic(auto, using(crate::proofs::Letters::spelled, crate::proofs::Trees::chan_views))]
fn console_lines(alloc: Global) -> Result<Items<CoprotocolConstructor>, AllocError>
    ensures { IfOk result (λ ks. map view_coprotocol_constructor ks ≡ console.constructors) }
{
    let mut constructors = Items::new(alloc);
    constructors.push(console_put(alloc)?)?;
    constructors.push(console_get(alloc)?)?;
    constructors.push(console_close(alloc)?)?;
    Ok(constructors)
}

/// `protocol StringTerminal => S`
#[tactic(auto, using(crate::proofs::Letters::spelled, crate::proofs::Trees::chan_views))]
fn string_terminal(alloc: Global) -> Result<ProtocolDecl, AllocError>
    ensures { IfOk result (λ d. view_protocol d ≡ string_terminal) }
{
    Ok(ProtocolDecl {
        place: NOWHERE,
        name: ident(alloc, "StringTerminal")?,
        parameters: Items::new(alloc),
        local: own(alloc)?,
        constructors: terminal_lines(alloc)?,
    })
}

/// The lines of `StringTerminal`.
#[tactic(auto, using(crate::proofs::Letters::spelled, crate::proofs::Trees::chan_views))]
fn terminal_lines(alloc: Global) -> Result<Items<ProtocolConstructor>, AllocError>
    ensures { IfOk result (λ ks. map view_protocol_constructor ks ≡ string_terminal.constructors) }
{
    let mut constructors = Items::new(alloc);
    constructors.push(terminal_get(alloc)?)?;
    constructors.push(terminal_put(alloc)?)?;
    constructors.push(terminal_close(alloc)?)?;
    Ok(constructors)
}

/// The line `ConsolePut`.
#[tactic(auto, using(crate::proofs::Letters::spelled, crate::proofs::Trees::chan_views))]
fn console_put(alloc: Global) -> Result<CoprotocolConstructor, AllocError>
    ensures { IfOk result (λ k. view_coprotocol_constructor k ≡ answer (codes "ConsolePut") (c.Get letters own_type)) }
{
    answer(alloc, "ConsolePut", gets(alloc)?)
}

/// The line `ConsoleGet`.
#[tactic(auto, using(crate::proofs::Letters::spelled, crate::proofs::Trees::chan_views))]
fn console_get(alloc: Global) -> Result<CoprotocolConstructor, AllocError>
    ensures { IfOk result (λ k. view_coprotocol_constructor k ≡ answer (codes "ConsoleGet") (c.Put letters own_type)) }
{
    answer(alloc, "ConsoleGet", puts(alloc)?)
}

/// The line `ConsoleClose`.
#[tactic(auto, using(crate::proofs::Letters::spelled, crate::proofs::Trees::chan_views))]
fn console_close(alloc: Global) -> Result<CoprotocolConstructor, AllocError>
    ensures { IfOk result (λ k. view_coprotocol_constructor k ≡ answer (codes "ConsoleClose") (c.TopBot)) }
{
    answer(alloc, "ConsoleClose", ChanType::TopBot)
}

/// The line `StringTerminalGet`.
#[tactic(auto, using(crate::proofs::Letters::spelled, crate::proofs::Trees::chan_views))]
fn terminal_get(alloc: Global) -> Result<ProtocolConstructor, AllocError>
    ensures { IfOk result (λ k. view_protocol_constructor k ≡ offer (codes "StringTerminalGet") (c.Get letters own_type)) }
{
    offer(alloc, "StringTerminalGet", gets(alloc)?)
}

/// The line `StringTerminalPut`.
#[tactic(auto, using(crate::proofs::Letters::spelled, crate::proofs::Trees::chan_views))]
fn terminal_put(alloc: Global) -> Result<ProtocolConstructor, AllocError>
    ensures { IfOk result (λ k. view_protocol_constructor k ≡ offer (codes "StringTerminalPut") (c.Put letters own_type)) }
{
    offer(alloc, "StringTerminalPut", puts(alloc)?)
}

/// The line `StringTerminalClose`.
#[tactic(auto, using(crate::proofs::Letters::spelled, crate::proofs::Trees::chan_views))]
fn terminal_close(alloc: Global) -> Result<ProtocolConstructor, AllocError>
    ensures { IfOk result (λ k. view_protocol_constructor k ≡ offer (codes "StringTerminalClose") (c.TopBot)) }
{
    offer(alloc, "StringTerminalClose", ChanType::TopBot)
}
