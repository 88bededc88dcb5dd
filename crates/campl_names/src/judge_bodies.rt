//! Whether the names in processes are known and of their kind.
ghost use Rattle.std.specs.Prelude.{◌≡◌, ◌++◌, None, OnOk, map};
ghost use Rattle.campl_tree.specs.View.{view_action, view_link, view_last, view_body, view_branch, branches, view_case_row, case_rows, view_hcase_row, hcase_rows, view_part, parts, view_decl};
ghost use Rattle.campl_tree.specs.Plain.Process as plain;
ghost use Rattle.campl_names.specs.Judges.{Judges};
ghost use Rattle.campl_types.specs.Known.{each, outside, of_protocol, a_process, in_chan, in_pattern, in_action, bound_by_action, in_body, in_hcase_rows, in_branches, in_case_rows, in_parts};
ghost use Rattle.campl_types.specs.Patterns.{bound_in, bound_by};
ghost use Rattle.campl_names.specs.Scope.{heading, with_names, behind_actions, in_actions};
ghost use Rattle.campl_types.specs.World.{constructor_named, lower_named};

use crate::judge_exprs::{bind_pattern, judge_expr, judge_exprs, judge_pattern};
use crate::judge_types::judge_chan;
use crate::name_set::NameSet;
use crate::refusing::{unknown, wrong_kind};
use crate::world::{ConstructorRef, LowerRef, World};
use campl_tree::{
    Action, Binder, Body, Branch, CaseRow, HcaseRow, Ident, Last, Link, Name, Part, Place,
};
use campl_types::NameFault;
use std::alloc::{AllocError, Global};

/// Judges a process under the variables in scope, which stay as they are.
#[cycle(body)]
#[tactic(auto, using(crate::proofs::Judging::bodies))]
pub(crate) fn judge_body(
    alloc: Global,
    world: &World,
    scope: &mut NameSet,
    body: &Body,
) -> Result<(), NameFault>
    ensures judged { Judges (in_body (map view_decl world.now) scope.old (view_body body.now)) result }
    ensures kept { OnOk result (scope.new ≡ scope.old) }
{
    let mark = scope.len();
    judge_actions(alloc, world, scope, body.actions.as_slice())?;
    judge_last(alloc, world, scope, &body.last)?;
    scope.truncate(mark);
    Ok(())
}

/// Judges the last command of a process.
#[cycle(body)]
#[tactic(auto, using(crate::proofs::Judging::lasts))]
fn judge_last(
    alloc: Global,
    world: &World,
    scope: &mut NameSet,
    last: &Last,
) -> Result<(), NameFault>
    ensures judged { Judges (in_body (map view_decl world.now) scope.old (view_last last.now)) result }
    ensures kept { OnOk result (scope.new ≡ scope.old) }
{
    match last {
        Last::Halt(_, _) => Ok(()),
        Last::Hcase(_, _, rows) => judge_hcase_rows(alloc, world, scope, rows.as_slice()),
        Last::Fork(_, _, x, y) => {
            judge_branch(alloc, world, scope, x.get())?;
            judge_branch(alloc, world, scope, y.get())
        }
        Last::Plug(_, links, parts) => {
            judge_links(alloc, world, links.as_slice())?;
            judge_parts(alloc, world, scope, parts.as_slice())
        }
        Last::Race(_, rows) => judge_branches(alloc, world, scope, rows.as_slice()),
        Last::Case(_, e, rows) => {
            judge_expr(alloc, world, scope, e)?;
            judge_case_rows(alloc, world, scope, rows.as_slice())
        }
        Last::Identity(_, _, _, _) => Ok(()),
        Last::Call(at, x, args, _, _) => {
            judge_process_name(alloc, world, *at, x)?;
            judge_exprs(alloc, world, scope, args.as_slice())
        }
    }
}

/// Judges the rows of `hcase`.
#[cycle(body)]
#[tactic(auto, using(crate::proofs::Judged::judged_all))]
fn judge_hcase_rows(
    alloc: Global,
    world: &World,
    scope: &mut NameSet,
    rows: &[HcaseRow],
) -> Result<(), NameFault>
    ensures judged { Judges (in_hcase_rows (map view_decl world.now) scope.old (hcase_rows (map view_hcase_row rows.now))) result }
    ensures kept { OnOk result (scope.new ≡ scope.old) }
{
    for row in rows {
        judge_hcase_row(alloc, world, scope, row)?;
    }
    Ok(())
}

/// Judges a row of `hcase`.
#[cycle(body)]
#[tactic(auto, using(crate::proofs::Judging::rows))]
fn judge_hcase_row(
    alloc: Global,
    world: &World,
    scope: &mut NameSet,
    row: &HcaseRow,
) -> Result<(), NameFault>
    ensures judged { Judges (of_protocol (constructor_named (map view_decl world.now) (view_hcase_row row.now).0.name) (view_hcase_row row.now).0.place (view_hcase_row row.now).0.name ++ in_body (map view_decl world.now) scope.old (view_hcase_row row.now).1) result }
    ensures kept { OnOk result (scope.new ≡ scope.old) }
{
    judge_protocol_constructor(alloc, world, &row.constructor)?;
    judge_body(alloc, world, scope, &row.body)
}

/// Judges the rows of `race`.
#[cycle(body)]
#[tactic(auto, using(crate::proofs::Judged::judged_all))]
fn judge_branches(
    alloc: Global,
    world: &World,
    scope: &mut NameSet,
    rows: &[Branch],
) -> Result<(), NameFault>
    ensures judged { Judges (in_branches (map view_decl world.now) scope.old (branches (map view_branch rows.now))) result }
    ensures kept { OnOk result (scope.new ≡ scope.old) }
{
    for row in rows {
        judge_branch(alloc, world, scope, row)?;
    }
    Ok(())
}

/// Judges a row of `race` or `fork`.
#[cycle(body)]
#[tactic(auto, using(crate::proofs::Judging::rows))]
fn judge_branch(
    alloc: Global,
    world: &World,
    scope: &mut NameSet,
    row: &Branch,
) -> Result<(), NameFault>
    ensures judged { Judges (in_body (map view_decl world.now) scope.old (view_branch row.now).1) result }
    ensures kept { OnOk result (scope.new ≡ scope.old) }
{
    judge_body(alloc, world, scope, &row.body)
}

/// Judges the rows of a process's `case`.
#[cycle(body)]
#[tactic(auto, using(crate::proofs::Judged::judged_all))]
fn judge_case_rows(
    alloc: Global,
    world: &World,
    scope: &mut NameSet,
    rows: &[CaseRow],
) -> Result<(), NameFault>
    ensures judged { Judges (in_case_rows (map view_decl world.now) scope.old (case_rows (map view_case_row rows.now))) result }
    ensures kept { OnOk result (scope.new ≡ scope.old) }
{
    for row in rows {
        judge_case_row(alloc, world, scope, row)?;
    }
    Ok(())
}

/// Judges a row of a process's `case`, under the variables of its pattern too.
#[cycle(body)]
#[tactic(auto, using(crate::proofs::Judging::case_rows))]
fn judge_case_row(
    alloc: Global,
    world: &World,
    scope: &mut NameSet,
    row: &CaseRow,
) -> Result<(), NameFault>
    ensures judged { Judges (in_pattern (map view_decl world.now) (view_case_row row.now).0 ++ in_body (map view_decl world.now) (bound_in (view_case_row row.now).0 ++ scope.old) (view_case_row row.now).1) result }
    ensures kept { OnOk result (scope.new ≡ scope.old) }
{
    judge_pattern(alloc, world, &row.pattern)?;
    let mark = scope.len();
    bind_pattern(alloc, scope, &row.pattern)?;
    judge_body(alloc, world, scope, &row.body)?;
    scope.truncate(mark);
    Ok(())
}

/// Judges the parts of a plug.
#[cycle(body)]
#[tactic(auto, using(crate::proofs::Judged::judged_all))]
fn judge_parts(
    alloc: Global,
    world: &World,
    scope: &mut NameSet,
    all: &[Part],
) -> Result<(), NameFault>
    ensures judged { Judges (in_parts (map view_decl world.now) scope.old (parts (map view_part all.now))) result }
    ensures kept { OnOk result (scope.new ≡ scope.old) }
{
    for part in all {
        judge_part(alloc, world, scope, part)?;
    }
    Ok(())
}

/// Judges a part of a plug.
#[cycle(body)]
#[tactic(auto, using(crate::proofs::Judging::rows))]
fn judge_part(
    alloc: Global,
    world: &World,
    scope: &mut NameSet,
    part: &Part,
) -> Result<(), NameFault>
    ensures judged { Judges (in_body (map view_decl world.now) scope.old (view_part part.now).1) result }
    ensures kept { OnOk result (scope.new ≡ scope.old) }
{
    judge_body(alloc, world, scope, &part.body)
}

/// Judges the types of the links that a plug makes, where no type variable is known.
#[tactic(auto, using(crate::proofs::Judged::judged))]
fn judge_links(alloc: Global, world: &World, links: &[Link]) -> Result<(), NameFault>
    ensures { Judges (each (λ (l : plain.Link). in_chan (map view_decl world.now) outside l.channel_type) (map view_link links.now)) result }
{
    let none = NameSet::new(alloc);
    judge_links_under(alloc, world, &none, links)
}

/// Judges the types of links under these type variables.
#[tactic(auto, using(crate::proofs::Judged::judged_all))]
fn judge_links_under(
    alloc: Global,
    world: &World,
    parameters: &NameSet,
    links: &[Link],
) -> Result<(), NameFault>
    ensures { Judges (each (λ (l : plain.Link). in_chan (map view_decl world.now) (heading parameters.now None) l.channel_type) (map view_link links.now)) result }
{
    for link in links {
        judge_chan(alloc, world, parameters, None, &link.channel_type)?;
    }
    Ok(())
}

/// Judges actions in order, and leaves what they bind in scope.
#[tactic(auto, using(crate::proofs::Judged::judged_all))]
fn judge_actions(
    alloc: Global,
    world: &World,
    scope: &mut NameSet,
    actions: &[Action],
) -> Result<(), NameFault>
    ensures judged { Judges (in_actions (map view_decl world.now) scope.old (map view_action actions.now)) result }
    ensures bound { OnOk result (scope.new ≡ behind_actions scope.old (map view_action actions.now)) }
{
    for action in actions {
        judge_action(alloc, world, scope, action)?;
    }
    Ok(())
}

/// Judges an action, and leaves what it binds in scope.
#[tactic(auto, using(crate::proofs::Judged::judged))]
fn judge_action(
    alloc: Global,
    world: &World,
    scope: &mut NameSet,
    action: &Action,
) -> Result<(), NameFault>
    ensures judged { Judges (in_action (map view_decl world.now) scope.old (view_action action.now)) result }
    ensures bound { OnOk result (scope.new ≡ with_names scope.old (bound_by_action (view_action action.now))) }
{
    match action {
        Action::Put(_, e, _) => judge_expr(alloc, world, scope, e),
        Action::Get(_, v, _) => {
            bind(alloc, scope, v)?;
            Ok(())
        }
        Action::Hput(_, k, _) => judge_protocol_constructor(alloc, world, k),
        Action::Split(_, _, _, _) => Ok(()),
        Action::Close(_, _) => Ok(()),
    }
}

/// Puts what a binder binds into scope.
pub(crate) fn bind(alloc: Global, scope: &mut NameSet, binder: &Binder) -> Result<(), AllocError>
    ensures { OnOk result (scope.new ≡ with_names scope.old (bound_by binder.now)) }
{
    match binder {
        Binder::Variable(_, x) => scope.add(alloc, x),
        Binder::Wildcard(_) => Ok(()),
    }
}

/// Judges a constructor's name where a protocol's or coprotocol's stands.
#[tactic(auto, using(crate::proofs::Judged::judged))]
fn judge_protocol_constructor(
    alloc: Global,
    world: &World,
    constructor: &Ident,
) -> Result<(), NameFault>
    ensures { Judges (of_protocol (constructor_named (map view_decl world.now) constructor.now.name) constructor.now.place constructor.now.name) result }
{
    match world.constructor_named(&constructor.name) {
        Some(ConstructorRef::Data(_, _, _)) => {
            wrong_kind(alloc, constructor.place, &constructor.name)
        }
        Some(ConstructorRef::Protocol(_, _, _)) => Ok(()),
        Some(ConstructorRef::Coprotocol(_, _, _)) => Ok(()),
        None => unknown(alloc, constructor.place, &constructor.name),
    }
}

/// Judges the name of a process's call.
#[tactic(auto, using(crate::proofs::Judged::judged))]
fn judge_process_name(alloc: Global, world: &World, at: Place, name: &Name) -> Result<(), NameFault>
    ensures { Judges (a_process (lower_named (map view_decl world.now) name.now) at name.now) result }
{
    match world.lower_named(name) {
        Some(LowerRef::Function(_)) => wrong_kind(alloc, at, name),
        Some(LowerRef::Process(_)) => Ok(()),
        None => unknown(alloc, at, name),
    }
}
