//! The held channels, in the order in which they came.
ghost use Rattle.campl_held.specs.declared.channel.HeldChannel.{HeldChannel as HeldSeen};
ghost use Rattle.std.specs.Prelude.{◌≡◌, [], ◌∷◌, ◌++◌, None, Some, IfOk, OnOk, option_map, slice_get};
ghost use Rattle.std.specs.Option.{option_copied};
ghost use Rattle.campl_tree.specs.View.{view_chan};
ghost use Rattle.campl_types.specs.Held.{On};
ghost use Rattle.campl_types.specs.Names.{found};
ghost use Rattle.campl_linear.specs.Holding.{those, given_up, goes_on, comes};
ghost use Rattle.campl_held.specs.Slots.{view_channel, view_one, view_held, live, slot_at, AreOnce, is_kept, is_outside};

use crate::channel::HeldChannel;
use crate::places::{forget, note};
use campl_names::NameSet;
use campl_tree::{ChanType, Name, Side};
use indexmap::IndexMap;
use sqlite_items::Items;
use std::alloc::{AllocError, Global};
use std::marker::Model;

/// The channels that a process holds, each name once, in the order in which they came.
///
/// Contracts see their list. No look-up scans it. A channel that is given up leaves an empty slot: there are as
/// many slots as channels were held at first and came since.
pub struct Held {
    slots: Items<Option<HeldChannel>>,
    places: IndexMap<Name, usize>,
}

impl Drop for Held {
    fn drop(self) {
        let Held { slots, places } = self;
        drop(slots);
        drop(places);
    }
}

impl Model for Held {
    ghost use Rattle.std.specs.Prelude.{◌≡◌, List, ℕ};
    ghost use Rattle.std.specs.Map.{lookup};
    ghost use Rattle.campl_types.specs.Names.{same_name};
    ghost use Rattle.campl_held.specs.declared.channel.HeldChannel.{HeldChannel};
    ghost use Rattle.campl_held.specs.Slots.{live, place, AreOnce};
    ghost use Rattle.std.specs.Coded.{codes};
    ghost use Rattle.campl_held.specs.contracts.channel.HeldChannel as channel;

    ghost Value = { List HeldChannel };

    ghost coded = { Prim.hlevel (codes, channel.the_row.coded) };

    ghost view = { λ h. live h.slots };

    ghost invariant = { λ h. ((x : List ℕ) → lookup (same_name x) h.places.entries ≡ place x h.slots) × AreOnce h.slots };
}

impl Held {
    /// Nothing held.
    pub fn new(alloc: Global) -> Held
        ensures { result ≡ [] }
    {
        Held {
            slots: Items::new(alloc),
            places: IndexMap::new(alloc),
        }
    }

    /// The channel of a name.
    pub fn find(&self, name: &Name) -> Option<&HeldChannel>
        ensures { option_map view_channel (option_copied result) ≡ found name.now (view_held self.now) }
    {
        at_place(self.slots.as_slice(), self.places.get(name).copied())
    }

    /// Gives up the channel of a name, if it is held.
    pub fn give_up(&mut self, name: &Name)
        ensures { view_held self.new ≡ given_up name.now (view_held self.old) }
    {
        match forget(&mut self.places, name) {
            Some(at) => self.slots.set(at, None),
            None => {}
        }
    }

    /// Lets the channel of a name, if it is held, go on with this side and type. It keeps its place.
    ///
    /// # Errors
    ///
    /// `AllocError` for want of memory.
    pub fn go_on(
        &mut self,
        alloc: Global,
        name: &Name,
        side: Side,
        channel_type: ChanType,
    ) -> Result<(), AllocError>
        ensures { OnOk result (view_held self.new ≡ goes_on name.now (On side (view_chan channel_type)) (view_held self.old)) }
    {
        match self.places.get(name).copied() {
            Some(at) => {
                let name = name.copy(alloc)?;
                let channel = HeldChannel {
                    name,
                    side,
                    channel_type,
                };
                self.slots.set(at, Some(channel));
                Ok(())
            }
            None => Ok(()),
        }
    }

    /// Holds a new channel, behind the others.
    ///
    /// # Errors
    ///
    /// `AllocError` for want of memory.
    pub fn come(
        &mut self,
        alloc: Global,
        name: &Name,
        side: Side,
        channel_type: ChanType,
    ) -> Result<(), AllocError>
        requires { found name.now (view_held self.old) ≡ None }
        ensures { OnOk result (view_held self.new ≡ comes name.now (On side (view_chan channel_type)) (view_held self.old)) }
    {
        let key = name.copy(alloc)?;
        let name = name.copy(alloc)?;
        let at = self.slots.len();
        self.slots.push(None)?;
        note(&mut self.places, key, at)?;
        let channel = HeldChannel {
            name,
            side,
            channel_type,
        };
        self.slots.set(at, Some(channel));
        Ok(())
    }

    /// The first channel.
    pub fn first(&self) -> Option<&HeldChannel>
        ensures { option_copied result ≡ slice_get self.now 0 }
    {
        first_live(self.slots.as_slice())
    }

    /// The first channel whose name is in neither set.
    pub fn first_outside(&self, inputs: &NameSet, outputs: &NameSet) -> Option<&HeldChannel>
        ensures { option_map view_one (option_copied result) ≡ slice_get (those (is_outside inputs.now outputs.now) (view_held self.now)) 0 }
    {
        first_slot(self.slots.as_slice(), inputs, outputs)
    }

    /// A copy of the channels whose names are in the set, or, where those aren't kept, of all others; in their order.
    ///
    /// # Errors
    ///
    /// `AllocError` for want of memory.
    pub fn those(&self, alloc: Global, names: &NameSet, keep: bool) -> Result<Held, AllocError>
        ensures { IfOk result (λ h. view_held h ≡ those (is_kept keep names.now) (view_held self.now)) }
    {
        copy_slots(alloc, self.slots.as_slice(), names, keep)
    }

    /// A second copy.
    ///
    /// # Errors
    ///
    /// `AllocError` for want of memory.
    pub fn copy(&self, alloc: Global) -> Result<Held, AllocError>
        ensures { IfOk result (λ h. view_held h ≡ view_held self.now) }
    {
        let nothing = NameSet::new(alloc);
        self.those(alloc, &nothing, false)
    }
}

/// What stands at a place.
fn at_place(slots: &[Option<HeldChannel>], at: Option<usize>) -> Option<&HeldChannel>
    ensures { option_copied result ≡ slot_at slots.now at }
{
    match slots.get(at?) {
        Some(Some(channel)) => Some(channel),
        Some(None) => None,
        None => None,
    }
}

/// A copy of those channels of slots whose names are kept.
fn copy_slots(
    alloc: Global,
    slots: &[Option<HeldChannel>],
    names: &NameSet,
    keep: bool,
) -> Result<Held, AllocError>
    requires { AreOnce slots.now }
    ensures { IfOk result (λ h. view_held h ≡ those (is_kept keep names.now) (view_held (live slots.now))) }
{
    let mut held = Held::new(alloc);
    for i in 0..slots.len() {
        match add_slot(alloc, &mut held, &slots[i], names, keep) {
            Ok(()) => {}
            Err(error) => return Err(error),
        }
    }
    Ok(held)
}

/// Holds a copy of the channel of a slot, if there is one whose name is kept.
fn add_slot(
    alloc: Global,
    held: &mut Held,
    slot: &Option<HeldChannel>,
    names: &NameSet,
    keep: bool,
) -> Result<(), AllocError>
    requires { (g : HeldSeen) → slot.now ≡ Some g → found g.name (view_held held.old) ≡ None }
    ensures { OnOk result (view_held held.new ≡ view_held held.old ++ those (is_kept keep names.now) (view_held (live (slot.now ∷ [])))) }
{
    match slot {
        Some(channel) => {
            if kept(names, keep, &channel.name) {
                let channel_type = channel.channel_type.copy(alloc)?;
                held.come(alloc, &channel.name, channel.side, channel_type)
            } else {
                Ok(())
            }
        }
        None => Ok(()),
    }
}

/// Whether a name is kept.
fn kept(names: &NameSet, keep: bool, name: &Name) -> bool
    ensures { result ≡ is_kept keep names.now name.now }
{
    if keep {
        names.has(name)
    } else {
        !names.has(name)
    }
}

/// The first channel of slots.
#[tactic(auto, using(crate::proofs::Slots::looking))]
fn first_live(slots: &[Option<HeldChannel>]) -> Option<&HeldChannel>
    ensures { option_copied result ≡ slice_get (live slots.now) 0 }
{
    for i in 0..slots.len() {
        if let Some(channel) = &slots[i] {
            return Some(channel);
        }
    }
    None
}

/// The first channel of slots whose name is in neither set.
fn first_slot<'a>(
    slots: &'a [Option<HeldChannel>],
    inputs: &NameSet,
    outputs: &NameSet,
) -> Option<&'a HeldChannel>
    ensures { option_map view_one (option_copied result) ≡ slice_get (those (is_outside inputs.now outputs.now) (view_held (live slots.now))) 0 }
{
    for i in 0..slots.len() {
        match outside(&slots[i], inputs, outputs) {
            Some(channel) => return Some(channel),
            None => {}
        }
    }
    None
}

/// The channel of a slot, if its name is in neither set.
fn outside<'a>(
    slot: &'a Option<HeldChannel>,
    inputs: &NameSet,
    outputs: &NameSet,
) -> Option<&'a HeldChannel>
    ensures { option_map view_one (option_copied result) ≡ slice_get (those (is_outside inputs.now outputs.now) (view_held (live (slot.now ∷ [])))) 0 }
{
    match slot {
        Some(channel) => {
            if inputs.has(&channel.name) || outputs.has(&channel.name) {
                None
            } else {
                Some(channel)
            }
        }
        None => None,
    }
}
