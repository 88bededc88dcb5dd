//! Names that a walk finds or binds.
ghost use Rattle.std.specs.Prelude.{◌≡◌, OnOk, map};
ghost use Rattle.campl_tree.specs.View.{view_action, view_link};
ghost use Rattle.campl_types.specs.Free.{channel_of, channels_bound};
ghost use Rattle.campl_types.specs.Headers.{link_names};
ghost use Rattle.campl_types.specs.World.{names_of};
ghost use Rattle.campl_names.specs.Scope.{with_names};
ghost use Rattle.campl_free.specs.Gathers.{Gathers, GathersBehind, is_name, is_one_of, named_by, inside};

use campl_names::NameSet;
use campl_tree::{Action, Ident, Link, Name};
use std::alloc::{AllocError, Global};

/// Finds a name, where it isn't bound.
#[tactic(auto, using(crate::proofs::Gathered::one_name))]
pub(crate) fn gather_name(
    alloc: Global,
    bound: &NameSet,
    found: &mut NameSet,
    name: &Name,
) -> Result<(), AllocError>
    ensures { OnOk result (Gathers bound.now (is_name name.now) found.old found.new) }
{
    if bound.has(name) {
        return Ok(());
    }
    found.add(alloc, name)
}

/// Finds the channel that `halt` names, if it names one.
#[tactic(auto, using(crate::proofs::Gathered::gathered))]
pub(crate) fn gather_ended(
    alloc: Global,
    bound: &NameSet,
    found: &mut NameSet,
    channel: &Option<Ident>,
) -> Result<(), AllocError>
    ensures { OnOk result (Gathers bound.now (named_by channel.now) found.old found.new) }
{
    match channel {
        Some(x) => gather_name(alloc, bound, found, &x.name),
        None => Ok(()),
    }
}

/// Finds names.
#[tactic(auto, using(crate::proofs::Gathered::gathered))]
pub(crate) fn gather_names(
    alloc: Global,
    bound: &NameSet,
    found: &mut NameSet,
    names: &[Ident],
) -> Result<(), AllocError>
    ensures { OnOk result (Gathers bound.now (is_one_of (names_of names.now)) found.old found.new) }
{
    for name in names {
        gather_name(alloc, bound, found, &name.name)?;
    }
    Ok(())
}

/// Binds the channels of a plug's links.
pub(crate) fn bind_links(
    alloc: Global,
    bound: &mut NameSet,
    links: &[Link],
) -> Result<(), AllocError>
    ensures { OnOk result (bound.new ≡ with_names bound.old (link_names (map view_link links.now))) }
{
    for link in links {
        bound.add(alloc, &link.name.name)?;
    }
    Ok(())
}

/// Finds the channels that commands name, and binds those that they bind in what follows them.
pub(crate) fn gather_actions(
    alloc: Global,
    bound: &mut NameSet,
    found: &mut NameSet,
    actions: &[Action],
) -> Result<(), AllocError>
    ensures gathers { OnOk result (GathersBehind bound.old (map view_action actions.now) found.old found.new) }
    ensures binds { OnOk result (bound.new ≡ inside bound.old (map view_action actions.now)) }
{
    for action in actions {
        gather_name(alloc, bound, found, channel_of(action))?;
        bind_channels(alloc, bound, action)?;
    }
    Ok(())
}

/// The channel that a command names.
fn channel_of(action: &Action) -> &Name
    ensures { result.now ≡ channel_of (view_action action.now) }
{
    match action {
        Action::Put(_, _, x) => &x.name,
        Action::Get(_, _, x) => &x.name,
        Action::Hput(_, _, x) => &x.name,
        Action::Split(_, x, _, _) => &x.name,
        Action::Close(_, x) => &x.name,
    }
}

/// Binds the channels that a command binds in what follows it.
fn bind_channels(alloc: Global, bound: &mut NameSet, action: &Action) -> Result<(), AllocError>
    ensures { OnOk result (bound.new ≡ with_names bound.old (channels_bound (view_action action.now))) }
{
    match action {
        Action::Put(_, _, _) => Ok(()),
        Action::Get(_, _, _) => Ok(()),
        Action::Hput(_, _, _) => Ok(()),
        Action::Split(_, _, y, z) => {
            bound.add(alloc, &y.name)?;
            bound.add(alloc, &z.name)
        }
        Action::Close(_, _) => Ok(()),
    }
}
