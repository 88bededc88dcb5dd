//! Who may step, in which order they are asked, and who waits on which end.
ghost use Rattle.std.specs.Prelude.{◌≡◌, ◌≢◌, ◌<◌, ◌≤◌, ◌+◌, ◌*◌, ◌^◌, ◌++◌, ◌∷◌, [], ℕ, true, false, Some, None, OnOk, OnErr, IfOk, length, set, vec_len, vec_capacity};
ghost use Rattle.campl_machine.specs.Names.{Who, Process, Service};
ghost use Rattle.campl_order.specs.Boards.{IsFirstFlagged, earlier, is_flagged};
ghost use Rattle.campl_order.specs.Orders.{IsChild, IsNextService, names_at_start, rank, service_depth};
ghost use Rattle.campl_order.specs.Waiting.{AreFlagged, HasRoom, IsScheduled, flags_woken, waiter};

use crate::board::Board;
use crate::order::Order;
use std::alloc::{AllocError, Global};

// A step bears two channels at most.
const ENDS_BORN: usize = 4;

// There are numbers for no more processes and services.
const MOST_NUMBERS: usize = 0x7fff_ffff;

/// The tables of a run: the order of processes and services, a flag for each that may have a step, and for each end of a channel
/// who waits there.
#[derive(Drop)]
pub struct Schedule {
    order: Order,
    board: Board,
    waiting: Vec<Option<u32>>,
}

impl Schedule {
    /// The tables of nobody. An error means that memory is out.
    pub fn new(alloc: Global) -> Result<Schedule, AllocError>
        ensures scheduled { IfOk result (λ s. (names : ℕ → Who) → IsScheduled names s) }
        ensures nobody { IfOk result (λ s. s.order.ranks.items ≡ []) }
        ensures nowhere { IfOk result (λ s. s.waiting.items ≡ []) }
    {
        let board = Board::empty(alloc, 1)?;
        Ok(Schedule {
            order: Order::new(alloc),
            board,
            waiting: Vec::new(alloc),
        })
    }

    /// The tables at a start: the first process and behind it so many services, all of them flagged, and so many channels, at
    /// whose ends nobody waits. An error means that memory or numbers are out.
    pub fn start(alloc: Global, services: usize, channels: usize) -> Result<Schedule, AllocError>
        ensures scheduled { IfOk result (λ s. IsScheduled names_at_start s) }
        ensures flags { IfOk result (λ s. AreFlagged s.board.flags.items (services + 1)) }
        ensures ranks { IfOk result (λ s. vec_len s.order.ranks ≡ services + 1) }
        ensures waiting { IfOk result (λ s. vec_len s.waiting ≡ 2 * channels) }
    {
        let mut schedule = Schedule::new(alloc)?;
        schedule.make_room(alloc)?;
        schedule.welcome_first();
        schedule.attend_all(alloc, services)?;
        schedule.open_all(channels)?;
        Ok(schedule)
    }

    // All services, behind the first process.
    fn attend_all(&mut self, alloc: Global, services: usize) -> Result<(), AllocError>
        requires first { vec_len self.old.order.ranks ≡ 1 }
        requires flagged { AreFlagged self.old.board.flags.items 1 }
        requires scheduled { IsScheduled names_at_start self.old }
        ensures scheduled { OnOk result (IsScheduled names_at_start self.new) }
        ensures flags { OnOk result (AreFlagged self.new.board.flags.items (services + 1)) }
        ensures ranks { OnOk result (vec_len self.new.order.ranks ≡ services + 1) }
        ensures waiting { OnOk result (self.new.waiting.items ≡ self.old.waiting.items) }
    {
        for service in 0..services {
            self.make_room(alloc)?;
            self.attend(service as u64);
        }
        Ok(())
    }

    // Nobody waits at the ends of these channels.
    fn open_all(&mut self, channels: usize) -> Result<(), AllocError>
        ensures waiting { OnOk result (vec_len self.new.waiting ≡ vec_len self.old.waiting + 2 * channels) }
        ensures order { self.new.order ≡ self.old.order }
        ensures board { self.new.board ≡ self.old.board }
        ensures scheduled { (names : ℕ → Who) → IsScheduled names self.old → IsScheduled names self.new }
    {
        for _opened in 0..channels {
            self.waiting.reserve(2)?;
            self.open();
        }
        Ok(())
    }

    /// The first, in the order of names, of those that are flagged.
    pub fn first(&self) -> Option<u32>
        ensures { (names : ℕ → Who) → IsScheduled names self.now → IsFirstFlagged (earlier names) self.now.board.flags.items result }
    {
        self.board.first()
    }

    /// Room for one more process and two more channels. An error means that memory or numbers are out.
    pub fn make_room(&mut self, alloc: Global) -> Result<(), AllocError>
        requires { (names : ℕ → Who) × IsScheduled names self.old }
        ensures room { OnOk result (HasRoom self.new) }
        ensures order { self.new.order.ranks.items ≡ self.old.order.ranks.items }
        ensures waiting { self.new.waiting.items ≡ self.old.waiting.items }
        ensures flags { (i : ℕ) → is_flagged self.new.board.flags.items i ≡ is_flagged self.old.board.flags.items i }
        ensures scheduled { (names : ℕ → Who) → IsScheduled names self.old → IsScheduled names self.new }
    {
        if MOST_NUMBERS < self.order.len() {
            return Err(AllocError);
        }
        self.order.make_room()?;
        self.waiting.reserve(ENDS_BORN)?;
        if self.board.size() <= self.order.len() {
            return self.board.grow(alloc, &self.order);
        }
        Ok(())
    }

    /// Nobody waits at the two ends of a new channel.
    pub fn open(&mut self)
        requires { vec_len self.old.waiting + 2 ≤ vec_capacity self.old.waiting }
        ensures waiting { self.new.waiting.items ≡ self.old.waiting.items ++ None ∷ None ∷ [] }
        ensures order { self.new.order ≡ self.old.order }
        ensures board { self.new.board ≡ self.old.board }
        ensures room { vec_capacity self.new.waiting ≡ vec_capacity self.old.waiting }
        ensures scheduled { (names : ℕ → Who) → IsScheduled names self.old → IsScheduled names self.new }
    {
        self.waiting.push_reserved(None);
        self.waiting.push_reserved(None);
    }

    /// The first process: it is flagged.
    pub fn welcome_first(&mut self)
        requires room { HasRoom self.old }
        requires first { self.old.order.ranks.items ≡ [] }
        requires scheduled { (names : ℕ → Who) × IsScheduled names self.old × (names 0 ≡ Process []) }
        ensures flags { self.new.board.flags.items ≡ set self.old.board.flags.items 0 true }
        ensures waiting { self.new.waiting ≡ self.old.waiting }
        ensures len { vec_len self.new.order.ranks ≡ 1 }
        ensures scheduled { (names : ℕ → Who) → IsScheduled names self.old → names 0 ≡ Process [] → IsScheduled names self.new }
    {
        self.order.bear_first();
        self.board.flag(&self.order, 0, true);
    }

    /// The next service, with its number among the services: it is flagged.
    pub fn attend(&mut self, service: u64)
        requires room { HasRoom self.old }
        requires scheduled { (names : ℕ → Who) × IsScheduled names self.old × IsNextService names service (vec_len self.old.order.ranks) }
        ensures flags { self.new.board.flags.items ≡ set self.old.board.flags.items (vec_len self.old.order.ranks) true }
        ensures waiting { self.new.waiting ≡ self.old.waiting }
        ensures len { vec_len self.new.order.ranks ≡ vec_len self.old.order.ranks + 1 }
        ensures scheduled { (names : ℕ → Who) → IsScheduled names self.old → IsNextService names service (vec_len self.old.order.ranks) → IsScheduled names self.new }
    {
        let number = self.order.len() as u32;
        self.order.attend(service);
        self.board.flag(&self.order, number, true);
    }

    /// A child that this step of a process bore: it is flagged.
    pub fn welcome(&mut self, parent: u32, born: u64)
        requires room { HasRoom self.old }
        requires parent { parent < vec_len self.old.order.ranks }
        requires process { (rank self.old.order.ranks.items parent).depth ≢ service_depth }
        requires scheduled { (names : ℕ → Who) × IsScheduled names self.old × IsChild names parent born (length self.old.order.ranks.items) }
        ensures flags { self.new.board.flags.items ≡ set self.old.board.flags.items (vec_len self.old.order.ranks) true }
        ensures waiting { self.new.waiting ≡ self.old.waiting }
        ensures len { vec_len self.new.order.ranks ≡ vec_len self.old.order.ranks + 1 }
        ensures scheduled { (names : ℕ → Who) → IsScheduled names self.old → IsChild names parent born (length self.old.order.ranks.items) → IsScheduled names self.new }
    {
        let child = self.order.len() as u32;
        self.order.bear(parent, born);
        self.board.flag(&self.order, child, true);
    }

    /// Something has changed at this end: who waits there may have a step.
    pub fn wake(&mut self, end: u32)
        requires { (names : ℕ → Who) × IsScheduled names self.old }
        ensures flags { self.new.board.flags.items ≡ flags_woken (waiter self.old.waiting.items end) self.old.board.flags.items }
        ensures waiting { self.new.waiting.items ≡ set self.old.waiting.items end None }
        ensures order { self.new.order ≡ self.old.order }
        ensures scheduled { (names : ℕ → Who) → IsScheduled names self.old → IsScheduled names self.new }
    {
        match self.waiter(end) {
            None => {}
            Some(number) => {
                self.waiting[end as usize] = None;
                self.board.flag(&self.order, number, true);
            }
        }
    }

    // Who waits on this end.
    fn waiter(&self, end: u32) -> Option<u32>
        ensures { result ≡ waiter self.now.waiting.items end }
    {
        match self.waiting.get(end as usize) {
            None => None,
            Some(number) => *number,
        }
    }

    /// Its flag is taken back, as it has no step.
    pub fn lower(&mut self, number: u32)
        requires scheduled { (names : ℕ → Who) × IsScheduled names self.old }
        requires there { number < vec_len self.old.order.ranks }
        ensures flags { self.new.board.flags.items ≡ set self.old.board.flags.items number false }
        ensures waiting { self.new.waiting ≡ self.old.waiting }
        ensures order { self.new.order ≡ self.old.order }
        ensures scheduled { (names : ℕ → Who) → IsScheduled names self.old → IsScheduled names self.new }
    {
        self.board.flag(&self.order, number, false);
    }

    /// It waits on this end until something changes there.
    pub fn wait_on(&mut self, number: u32, end: u32)
        requires { number < vec_len self.old.order.ranks }
        ensures waiting { self.new.waiting.items ≡ set self.old.waiting.items end (Some number) }
        ensures order { self.new.order ≡ self.old.order }
        ensures board { self.new.board ≡ self.old.board }
        ensures room { vec_capacity self.new.waiting ≡ vec_capacity self.old.waiting }
        ensures scheduled { (names : ℕ → Who) → IsScheduled names self.old → IsScheduled names self.new }
    {
        if (end as usize) < self.waiting.len() {
            self.waiting[end as usize] = Some(number);
        }
    }
}
