//! The code of a source's functions, and for each a process that calls it.
use anyhow::{Result, bail};
use campl_gen_functions::generate_functions;
use campl_instructions::{Block, Instr, RawCode};
use campl_names::World;
use campl_program::Program;
use campl_tree::Name;
use sqlite_items::Items;
use std::alloc::{AllocError, Global};

/// The program of a source's functions: each process calls the function of its number, and closes.
pub fn program_of(alloc: Global, world: &World) -> Result<Program> {
    let (functions, decisions) = generate_functions(alloc, world)?;
    let processes = callers(alloc, functions.as_slice())?;
    let raw = RawCode {
        functions,
        processes,
        decisions,
    };
    match Program::new(alloc, raw) {
        Ok(program) => Ok(program),
        Err(_) => bail!("the code can't be run"),
    }
}

fn callers(alloc: Global, functions: &[Block]) -> Result<Items<Block>> {
    let mut callers = Items::new(alloc);
    for n in 0..functions.len() {
        let Ok(n) = u32::try_from(n) else {
            bail!("too many functions");
        };
        callers.push(caller(alloc, n)?)?;
    }
    Ok(callers)
}

// A process that calls a function, and closes with its value.
fn caller(alloc: Global, n: u32) -> std::result::Result<Block, AllocError> {
    let name = Name::of(alloc, "caller")?;
    let mut code = Items::new(alloc);
    code.push(Instr::Call(n))?;
    code.push(Instr::Close(0))?;
    Ok(Block {
        name,
        variables: 0,
        inputs: 0,
        outputs: 0,
        code,
    })
}
