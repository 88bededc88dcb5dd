//! The walk over bodies, from command to command.
ghost use Rattle.std.specs.Prelude.{◌≡◌, [], ◌∷◌, OnOk, map};
ghost use Rattle.campl_tree.specs.View.{view_last, view_link, view_body, view_branch, branches, view_case_row, case_rows, view_hcase_row, hcase_rows, view_part, parts};
ghost use Rattle.campl_types.specs.Headers.{link_names};
ghost use Rattle.campl_types.specs.World.{names_of};
ghost use Rattle.campl_free.specs.Gathers.{Gathers, is_name, is_one_of, either_of, under, free_in, free_in_rows, free_in_branches, free_in_cases, free_in_parts};

use crate::names::{bind_links, gather_actions, gather_ended, gather_name, gather_names};
use campl_names::NameSet;
use campl_tree::{Body, Branch, CaseRow, HcaseRow, Last, Link, Part};
use std::alloc::{AllocError, Global};

/// Finds the free names of a body. What is bound stays as it is.
#[cycle(gather)]
pub(crate) fn gather_body(
    alloc: Global,
    bound: &mut NameSet,
    found: &mut NameSet,
    body: &Body,
) -> Result<(), AllocError>
    ensures gathers { OnOk result (Gathers bound.old (free_in (view_body body.now)) found.old found.new) }
    ensures kept { OnOk result (bound.new ≡ bound.old) }
{
    let mark = bound.len();
    gather_actions(alloc, bound, found, body.actions.as_slice())?;
    gather_last(alloc, bound, found, &body.last)?;
    bound.truncate(mark);
    Ok(())
}

/// Finds the free names of a last command.
#[cycle(gather)]
#[tactic(auto, using(crate::proofs::Nodes::lasts))]
fn gather_last(
    alloc: Global,
    bound: &mut NameSet,
    found: &mut NameSet,
    last: &Last,
) -> Result<(), AllocError>
    ensures gathers { OnOk result (Gathers bound.old (free_in (view_last last.now)) found.old found.new) }
    ensures kept { OnOk result (bound.new ≡ bound.old) }
{
    match last {
        Last::Halt(_, x) => gather_ended(alloc, bound, found, x),
        Last::Hcase(_, x, rows) => {
            gather_name(alloc, bound, found, &x.name)?;
            gather_rows(alloc, bound, found, rows.as_slice())
        }
        Last::Fork(_, x, a, b) => {
            gather_name(alloc, bound, found, &x.name)?;
            gather_half(alloc, bound, found, a.get())?;
            gather_half(alloc, bound, found, b.get())
        }
        Last::Plug(_, links, all) => {
            gather_plug(alloc, bound, found, all.as_slice(), links.as_slice())
        }
        Last::Race(_, rows) => gather_branches(alloc, bound, found, rows.as_slice()),
        Last::Case(_, _, rows) => gather_case_rows(alloc, bound, found, rows.as_slice()),
        Last::Identity(_, x, _, y) => {
            gather_name(alloc, bound, found, x)?;
            gather_name(alloc, bound, found, &y.name)
        }
        Last::Call(_, _, _, inputs, outputs) => {
            gather_names(alloc, bound, found, inputs.as_slice())?;
            gather_names(alloc, bound, found, outputs.as_slice())
        }
    }
}

/// Finds the free names of the rows of `hcase`.
#[cycle(gather)]
fn gather_rows(
    alloc: Global,
    bound: &mut NameSet,
    found: &mut NameSet,
    rows: &[HcaseRow],
) -> Result<(), AllocError>
    ensures gathers { OnOk result (Gathers bound.old (free_in_rows (hcase_rows (map view_hcase_row rows.now))) found.old found.new) }
    ensures kept { OnOk result (bound.new ≡ bound.old) }
{
    for row in rows {
        gather_row(alloc, bound, found, row)?;
    }
    Ok(())
}

/// Finds the free names of a row of `hcase`.
#[cycle(gather)]
#[tactic(auto, using(crate::proofs::Nodes::rows))]
fn gather_row(
    alloc: Global,
    bound: &mut NameSet,
    found: &mut NameSet,
    row: &HcaseRow,
) -> Result<(), AllocError>
    ensures gathers { OnOk result (Gathers bound.old (free_in (view_hcase_row row.now).1) found.old found.new) }
    ensures kept { OnOk result (bound.new ≡ bound.old) }
{
    gather_body(alloc, bound, found, &row.body)
}

/// Finds the free names of a row of `fork`, whose channel is bound in it.
#[cycle(gather)]
#[tactic(auto, using(crate::proofs::Nodes::rows))]
fn gather_half(
    alloc: Global,
    bound: &mut NameSet,
    found: &mut NameSet,
    row: &Branch,
) -> Result<(), AllocError>
    ensures gathers { OnOk result (Gathers bound.old (under ((view_branch row.now).0.name ∷ []) (free_in (view_branch row.now).1)) found.old found.new) }
    ensures kept { OnOk result (bound.new ≡ bound.old) }
{
    let mark = bound.len();
    bound.add(alloc, &row.channel.name)?;
    gather_body(alloc, bound, found, &row.body)?;
    bound.truncate(mark);
    Ok(())
}

/// Finds the free names of a plug, whose links are bound in its parts.
#[cycle(gather)]
fn gather_plug(
    alloc: Global,
    bound: &mut NameSet,
    found: &mut NameSet,
    all: &[Part],
    links: &[Link],
) -> Result<(), AllocError>
    ensures gathers { OnOk result (Gathers bound.old (under (link_names (map view_link links.now)) (free_in_parts (parts (map view_part all.now)))) found.old found.new) }
    ensures kept { OnOk result (bound.new ≡ bound.old) }
{
    let mark = bound.len();
    bind_links(alloc, bound, links)?;
    gather_parts(alloc, bound, found, all)?;
    bound.truncate(mark);
    Ok(())
}

/// Finds the free names of the parts of a plug, the links among them.
#[cycle(gather)]
fn gather_parts(
    alloc: Global,
    bound: &mut NameSet,
    found: &mut NameSet,
    all: &[Part],
) -> Result<(), AllocError>
    ensures gathers { OnOk result (Gathers bound.old (free_in_parts (parts (map view_part all.now))) found.old found.new) }
    ensures kept { OnOk result (bound.new ≡ bound.old) }
{
    for part in all {
        gather_part(alloc, bound, found, part)?;
    }
    Ok(())
}

/// Finds the names of a part's header and the free names of its body.
#[cycle(gather)]
#[tactic(auto, using(crate::proofs::Nodes::rows))]
fn gather_part(
    alloc: Global,
    bound: &mut NameSet,
    found: &mut NameSet,
    part: &Part,
) -> Result<(), AllocError>
    ensures gathers { OnOk result (Gathers bound.old (either_of (is_one_of (names_of (view_part part.now).0.inputs)) (either_of (is_one_of (names_of (view_part part.now).0.outputs)) (free_in (view_part part.now).1))) found.old found.new) }
    ensures kept { OnOk result (bound.new ≡ bound.old) }
{
    gather_names(alloc, bound, found, part.inputs.as_slice())?;
    gather_names(alloc, bound, found, part.outputs.as_slice())?;
    gather_body(alloc, bound, found, &part.body)
}

/// Finds the free names of the rows of `race`.
#[cycle(gather)]
fn gather_branches(
    alloc: Global,
    bound: &mut NameSet,
    found: &mut NameSet,
    rows: &[Branch],
) -> Result<(), AllocError>
    ensures gathers { OnOk result (Gathers bound.old (free_in_branches (branches (map view_branch rows.now))) found.old found.new) }
    ensures kept { OnOk result (bound.new ≡ bound.old) }
{
    for row in rows {
        gather_branch(alloc, bound, found, row)?;
    }
    Ok(())
}

/// Finds the channel of a row of `race`, and the free names of its body.
#[cycle(gather)]
#[tactic(auto, using(crate::proofs::Nodes::rows))]
fn gather_branch(
    alloc: Global,
    bound: &mut NameSet,
    found: &mut NameSet,
    row: &Branch,
) -> Result<(), AllocError>
    ensures gathers { OnOk result (Gathers bound.old (either_of (is_name (view_branch row.now).0.name) (free_in (view_branch row.now).1)) found.old found.new) }
    ensures kept { OnOk result (bound.new ≡ bound.old) }
{
    gather_name(alloc, bound, found, &row.channel.name)?;
    gather_body(alloc, bound, found, &row.body)
}

/// Finds the free names of the rows of a process's `case`.
#[cycle(gather)]
fn gather_case_rows(
    alloc: Global,
    bound: &mut NameSet,
    found: &mut NameSet,
    rows: &[CaseRow],
) -> Result<(), AllocError>
    ensures gathers { OnOk result (Gathers bound.old (free_in_cases (case_rows (map view_case_row rows.now))) found.old found.new) }
    ensures kept { OnOk result (bound.new ≡ bound.old) }
{
    for row in rows {
        gather_case_row(alloc, bound, found, row)?;
    }
    Ok(())
}

/// Finds the free names of a row of a process's `case`.
#[cycle(gather)]
#[tactic(auto, using(crate::proofs::Nodes::rows))]
fn gather_case_row(
    alloc: Global,
    bound: &mut NameSet,
    found: &mut NameSet,
    row: &CaseRow,
) -> Result<(), AllocError>
    ensures gathers { OnOk result (Gathers bound.old (free_in (view_case_row row.now).1) found.old found.new) }
    ensures kept { OnOk result (bound.new ≡ bound.old) }
{
    gather_body(alloc, bound, found, &row.body)
}
