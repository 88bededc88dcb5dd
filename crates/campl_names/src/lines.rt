//! Lines of declarations, each of which declares a constructor.
ghost use Rattle.std.specs.Prelude.{◌≡◌, Some, List, ◌++◌, map};
ghost use Rattle.campl_tree.specs.declared.place.Ident.{Ident as Named};
ghost use Rattle.campl_tree.specs.View.{view_chan, view_decl};
ghost use Rattle.campl_types.specs.Known.{in_chan, is_own};
ghost use Rattle.campl_types.specs.Names.{Name as Spelled};
ghost use Rattle.campl_types.specs.World.{World as Declarations};
ghost use Rattle.campl_types.specs.declared.fault.NameFault.{NameFault as Fault};
ghost use Rattle.campl_names.specs.Judges.{Judges};
ghost use Rattle.campl_names.specs.Scope.{heading};

use crate::judge_types::judge_chan;
use crate::name_set::NameSet;
use crate::refusing::wrong_kind;
use crate::world::World;
use campl_tree::{CoprotocolConstructor, DataConstructor, Ident, Name, ProtocolConstructor};
use campl_types::NameFault;
use std::alloc::Global;

/// A line that declares a constructor.
pub(crate) trait Line {
    ghost named: { Self → Named };

    /// The constructor.
    fn ident(&self) -> &Ident
        ensures { result.now ≡ named self.now };
}

impl Line for DataConstructor {
    ghost named = { λ k. k.name };

    fn ident(&self) -> &Ident {
        &self.name
    }
}

impl Line for ProtocolConstructor {
    ghost named = { λ k. k.name };

    fn ident(&self) -> &Ident {
        &self.name
    }
}

impl Line for CoprotocolConstructor {
    ghost named = { λ k. k.name };

    fn ident(&self) -> &Ident {
        &self.name
    }
}

/// A line of a protocol or coprotocol.
pub(crate) trait ChannelLine {
    ghost faults: { Declarations → List Spelled → Spelled → Self → List Fault };

    /// Judges what a line of the protocol `own` with these parameters uses, in the order in which it stands there.
    fn judge(
        &self,
        alloc: Global,
        world: &World,
        parameters: &NameSet,
        own: &Name,
    ) -> Result<(), NameFault>
        ensures { Judges (faults (map view_decl world.now) parameters.now own.now self.now) result };
}

impl ChannelLine for ProtocolConstructor {
    ghost faults = { λ w ps own k. in_chan w (heading ps (Some own)) (view_chan k.channel_type) ++ is_own own k.local };

    #[tactic(auto, using(crate::proofs::Judged::judged))]
    fn judge(
        &self,
        alloc: Global,
        world: &World,
        parameters: &NameSet,
        own: &Name,
    ) -> Result<(), NameFault> {
        judge_chan(alloc, world, parameters, Some(own), &self.channel_type)?;
        judge_own(alloc, own, &self.local)
    }
}

impl ChannelLine for CoprotocolConstructor {
    ghost faults = { λ w ps own k. is_own own k.local ++ in_chan w (heading ps (Some own)) (view_chan k.channel_type) };

    #[tactic(auto, using(crate::proofs::Judged::judged))]
    fn judge(
        &self,
        alloc: Global,
        world: &World,
        parameters: &NameSet,
        own: &Name,
    ) -> Result<(), NameFault> {
        judge_own(alloc, own, &self.local)?;
        judge_chan(alloc, world, parameters, Some(own), &self.channel_type)
    }
}

/// Judges that a line's own name is that of its heading.
#[tactic(auto, using(crate::proofs::Judged::judged))]
fn judge_own(alloc: Global, own: &Name, ident: &Ident) -> Result<(), NameFault>
    ensures { Judges (is_own own.now ident.now) result }
{
    if *own == ident.name {
        return Ok(());
    }
    wrong_kind(alloc, ident.place, &ident.name)
}
