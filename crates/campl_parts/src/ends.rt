//! The ends that a process holds.
ghost use Rattle.std.specs.Prelude.{◌≡◌, ◌-◌, ◌++◌, [], ◌∷◌, Some, None, IfOk, OnOk, length, replicate, slice_get};
ghost use Rattle.campl_cells.specs.Wants.{end_at, set_end};
ghost use Rattle.campl_parts.specs.Ends.{ends_of, handed};

use std::alloc::{AllocError, Global};
use std::marker::Model;

/// The ends that a process holds, by the numbers of its channels. A channel that wasn't set has none.
#[derive(Drop)]
pub struct Ends {
    items: Vec<Option<u32>>,
}

impl Model for Ends {
    ghost use Rattle.std.specs.Prelude.{List, Option, ℕ};
    ghost use Rattle.std.specs.Coded.{coded_list, coded_option, coded_ℕ};

    ghost Value = { List (Option ℕ) };

    ghost coded = { coded_list (coded_option coded_ℕ) };

    ghost view = { λ ends. ends.items.items };
}

impl Ends {
    /// No end. It takes no memory.
    pub fn new(alloc: Global) -> Ends
        ensures { result ≡ [] }
    {
        Ends {
            items: Vec::new(alloc),
        }
    }

    /// The end of the channel with this number, where there is one.
    pub fn get(&self, channel: u32) -> Option<u32>
        ensures { result ≡ ends_of self.now channel }
    {
        match self.items.get(channel as usize) {
            None => None,
            Some(end) => *end,
        }
    }

    /// Sets a channel's end. An error means that memory is out.
    pub fn set(&mut self, channel: u32, end: u32) -> Result<(), AllocError>
        ensures { OnOk result (ends_of self.new ≡ set_end channel end (ends_of self.old)) }
    {
        self.pad(channel as usize + 1)?;
        self.items[channel as usize] = Some(end);
        Ok(())
    }

    // Adds channels without an end until there are so many.
    fn pad(&mut self, count: usize) -> Result<(), AllocError>
        ensures { OnOk result (self.new ≡ self.old ++ replicate (count - length self.old) None) }
    {
        let missing = count.saturating_sub(self.items.len());
        for _i in 0..missing {
            self.push(None)?;
        }
        Ok(())
    }

    fn push(&mut self, end: Option<u32>) -> Result<(), AllocError>
        ensures { OnOk result (self.new ≡ self.old ++ end ∷ []) }
    {
        self.items.push(end)?;
        Ok(())
    }

    /// The same ends. An error means that memory is out.
    pub fn copy(&self, alloc: Global) -> Result<Ends, AllocError>
        ensures { IfOk result (λ copy. copy ≡ self.now) }
    {
        let items = Vec::from_slice(alloc, self.items.as_slice())?;
        Ok(Ends { items })
    }

    /// The ends of these channels, numbered anew in their order. An error means that memory is out.
    pub fn given(&self, alloc: Global, channels: &[u32]) -> Result<Ends, AllocError>
        ensures { IfOk result (λ ends. ends_of ends ≡ (λ n. end_at (ends_of self.now) (slice_get channels.now n))) }
    {
        match self.handed(alloc, channels) {
            Ok(ends) => Ok(ends),
            Err(error) => Err(error),
        }
    }

    fn handed(&self, alloc: Global, channels: &[u32]) -> Result<Ends, AllocError>
        ensures { IfOk result (λ ends. ends ≡ handed self.now channels.now) }
    {
        let mut items = Vec::new(alloc);
        for channel in channels {
            items.push(self.get(*channel))?;
        }
        Ok(Ends { items })
    }
}
