//! Processes judged, each by its row.
ghost use Rattle.std.specs.Prelude.{map};
ghost use Rattle.campl_tree.specs.View.{view_decl, view_process, view_program};
ghost use Rattle.campl_seqcheck.specs.Judged.{fine};
ghost use Rattle.campl_linear.specs.Processes as definition;
ghost use Rattle.campl_held.specs.Answered.{Answers};
ghost use Rattle.campl_held.specs.Chosen.{ChoicesAreDeclared};

use crate::judging::judge;
use campl_calls::heading;
use campl_held::LinFault;
use campl_names::World;
use campl_tree::{Decl, ProcessDecl, Program};
use std::alloc::Global;

/// The first fault of the processes of a program, in source order, if they have one. The names of the program
/// are judged before, and the world is the program's.
///
/// # Errors
///
/// The fault (E30 to E34, E40 to E51), or `OutOfMemory` where memory wants.
pub fn check(alloc: Global, world: &World, program: &Program) -> Result<(), LinFault>
    requires { ChoicesAreDeclared (map view_decl world.now) }
    ensures { Answers (λ _. fine) (definition.judge_processes (map view_decl world.now) (view_program program.now)) result }
{
    check_processes(alloc, world, program.declarations.as_slice())
}

/// The same for the processes among declarations.
///
/// # Errors
///
/// The fault (E30 to E34, E40 to E51), or `OutOfMemory` where memory wants.
pub fn check_processes(alloc: Global, world: &World, declarations: &[Decl]) -> Result<(), LinFault>
    requires { ChoicesAreDeclared (map view_decl world.now) }
    ensures { Answers (λ _. fine) (definition.judge_processes (map view_decl world.now) (map view_decl declarations.now)) result }
{
    for i in 0..declarations.len() {
        match check_declaration(alloc, world, &declarations[i]) {
            Ok(()) => {}
            Err(fault) => return Err(fault),
        }
    }
    Ok(())
}

/// Judges a declaration, of which only processes are looked at.
fn check_declaration(alloc: Global, world: &World, declaration: &Decl) -> Result<(), LinFault>
    requires { ChoicesAreDeclared (map view_decl world.now) }
    ensures { Answers (λ _. fine) (definition.judge_decl (map view_decl world.now) (view_decl declaration.now)) result }
{
    match declaration {
        Decl::Process(p) => check_process(alloc, world, p),
        Decl::Data(_) => Ok(()),
        Decl::Protocol(_) => Ok(()),
        Decl::Coprotocol(_) => Ok(()),
        Decl::Function(_) => Ok(()),
    }
}

/// Judges a process: its row's names and their numbers, and then the body.
fn check_process(alloc: Global, world: &World, p: &ProcessDecl) -> Result<(), LinFault>
    requires { ChoicesAreDeclared (map view_decl world.now) }
    ensures { Answers (λ _. fine) (definition.judge_process (map view_decl world.now) (view_process p.now)) result }
{
    let (mut vars, held) = match heading(alloc, p) {
        Ok(first) => first,
        Err(fault) => return Err(fault),
    };
    judge(alloc, world, &mut vars, held, &p.row.body)
}
