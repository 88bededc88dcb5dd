//! The services of a source, and their start.
ghost use Rattle.std.specs.Prelude.{◌≡◌, ◌++◌, IfOk, OnOk, length, map};
ghost use Rattle.campl_tree.specs.View.{view_decl};
ghost use Rattle.campl_types.specs.Run.{service, services_of};
ghost use Rattle.campl_meaning.specs.Start.{kind_at};
ghost use Rattle.campl_solo.specs.Beginning.{servings_at_start};

use campl_names::World;
use campl_service::{Scripts, Service, ServiceKind};
use campl_tree::{Ident, ServiceName, Side};
use std::alloc::{AllocError, Global};

/// The services of a source, as `run` names them, in the order of its heading: inputs first. An error means that memory is out.
pub fn services_of(alloc: Global, world: &World) -> Result<Vec<ServiceName>, AllocError>
    ensures { IfOk result (λ names. names.items ≡ services_of (map view_decl world.now)) }
{
    let heading = world.services();
    let mut names = Vec::new(alloc);
    push_names(alloc, &mut names, Side::Input, heading.inputs)?;
    push_names(alloc, &mut names, Side::Output, heading.outputs)?;
    Ok(names)
}

// Puts the names of a side behind the others.
fn push_names(
    alloc: Global,
    names: &mut Vec<ServiceName>,
    side: Side,
    idents: &[Ident],
) -> Result<(), AllocError>
    ensures { OnOk result (names.new.items ≡ names.old.items ++ map (service side) idents.now) }
{
    for ident in idents {
        let name = ident.name.copy(alloc)?;
        names.push(ServiceName { name, side })?;
    }
    Ok(())
}

/// The services of these names at the start, each with its script. An error means that memory is out, or that there are 2^32 names
/// or more.
pub fn services_at_start(
    alloc: Global,
    names: &[ServiceName],
    mut scripts: Scripts,
) -> Result<Vec<Service>, AllocError>
    requires { length scripts ≡ length names.now }
    ensures { IfOk result (λ services. map (λ s. s.serving) services.items ≡ servings_at_start names.now scripts) }
{
    if names.len() > u32::MAX as usize {
        return Err(AllocError);
    }
    let mut services = Vec::new(alloc);
    for i in 0..names.len() {
        let name = &names[i];
        let script = scripts.take(i as u32);
        services.push(Service::new(alloc, kind_at(name.side), script))?;
    }
    Ok(services)
}

// What stands at the far end of a channel that `run` holds on this side.
fn kind_at(side: Side) -> ServiceKind
    ensures { result ≡ kind_at side }
{
    match side {
        Side::Input => ServiceKind::Console,
        Side::Output => ServiceKind::Terminal,
    }
}
