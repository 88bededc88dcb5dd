//! The order of names: processes by the length of their paths and then by the numbers in them, services behind all processes.
ghost use Rattle.std.specs.Prelude.{◌≡◌, ◌≢◌, ◌<◌, ◌+◌, ◌^◌, ◌++◌, ◌∷◌, [], ℕ, IsTrue, OnOk, IfOk, length, vec_len, vec_capacity};
ghost use Rattle.campl_machine.specs.Names.{Who, Process, Service};
ghost use Rattle.campl_meaning.specs.OneAtATime.{is_before};
ghost use Rattle.campl_order.specs.declared.order.Rank.{Rank};
ghost use Rattle.campl_order.specs.Orders.{Ranked, IsAbove, IsChild, rank, service_depth};

use std::alloc::{AllocError, Global};

/// The depth in the rank of a service. No process has it: a process's path is no longer than its number, and numbers are below.
pub const SERVICE_DEPTH: u32 = 0xffff_ffff;

/// Where a process stands: how long its path is, its parent, the parent's step that bore it, and an ancestor further up. Of a
/// service `born` is its number among the services.
#[derive(Clone, Copy)]
pub struct Rank {
    depth: u32,
    parent: u32,
    jump: u32,
    born: u64,
}

/// The ranks of all processes and services, by number. A parent's number is below its child's.
#[derive(Drop)]
pub struct Order {
    ranks: Vec<Rank>,
}

impl Order {
    /// Nobody.
    pub fn new(alloc: Global) -> Order
        ensures { result.ranks.items ≡ [] }
    {
        Order {
            ranks: Vec::new(alloc),
        }
    }

    /// Room for one more. An error means that memory is out.
    pub fn make_room(&mut self) -> Result<(), AllocError>
        ensures same { self.new.ranks.items ≡ self.old.ranks.items }
        ensures room { OnOk result (vec_len self.new.ranks < vec_capacity self.new.ranks) }
    {
        self.ranks.reserve(1)
    }

    /// How many there are.
    pub fn len(&self) -> usize
        ensures { result ≡ vec_len self.now.ranks }
    {
        self.ranks.len()
    }

    fn rank(&self, number: u32) -> Rank
        requires { number < vec_len self.now.ranks }
        ensures { result ≡ rank self.now.ranks.items number }
    {
        self.ranks[number as usize]
    }

    /// Whether the process or service a stands before b.
    pub fn is_before(&self, a: u32, b: u32) -> bool
        requires ranked { (names : ℕ → Who) × Ranked names self.now.ranks.items }
        requires a { a < vec_len self.now.ranks }
        requires b { b < vec_len self.now.ranks }
        ensures { (names : ℕ → Who) → Ranked names self.now.ranks.items → result ≡ is_before (names a) (names b) }
    {
        let first = self.rank(a);
        let second = self.rank(b);
        if first.depth != second.depth {
            return first.depth < second.depth;
        }
        if first.depth == SERVICE_DEPTH {
            return first.born < second.born;
        }
        if a == b {
            return false;
        }
        self.is_before_beside(a, b)
    }

    // The same of two different processes whose paths have one length: by the first births in which they differ.
    fn is_before_beside(&self, a: u32, b: u32) -> bool
        requires ranked { (names : ℕ → Who) × Ranked names self.now.ranks.items }
        requires a { a < vec_len self.now.ranks }
        requires b { b < vec_len self.now.ranks }
        requires apart { a ≢ b }
        requires level { (rank self.now.ranks.items a).depth ≡ (rank self.now.ranks.items b).depth }
        requires process { (rank self.now.ranks.items a).depth ≢ service_depth }
        ensures { (names : ℕ → Who) → Ranked names self.now.ranks.items → result ≡ is_before (names a) (names b) }
    {
        let mut i = a;
        let mut j = b;
        let mut left = self.rank(i);
        let mut right = self.rank(j);
        'up: while left.parent != right.parent {
            let near = self.jumps(left, right);
            if near {
                i = left.jump;
                j = right.jump;
            } else {
                i = left.parent;
                j = right.parent;
            }
            left = self.rank(i);
            right = self.rank(j);
        }
        left.born < right.born
    }

    // Whether both jumps lead to different ancestors at one depth.
    fn jumps(&self, left: Rank, right: Rank) -> bool
        requires left { left.jump < vec_len self.now.ranks }
        requires right { right.jump < vec_len self.now.ranks }
        ensures { IsTrue result → (left.jump ≢ right.jump) × ((rank self.now.ranks.items left.jump).depth ≡ (rank self.now.ranks.items right.jump).depth) }
    {
        left.jump != right.jump && self.rank(left.jump).depth == self.rank(right.jump).depth
    }

    /// The first process, which has no parent.
    pub fn bear_first(&mut self)
        requires room { vec_len self.old.ranks < vec_capacity self.old.ranks }
        requires first { self.old.ranks.items ≡ [] }
        ensures ranked { (names : ℕ → Who) → names 0 ≡ Process [] → Ranked names self.new.ranks.items }
        ensures len { vec_len self.new.ranks ≡ 1 }
    {
        self.ranks.push_reserved(Rank {
            depth: 0,
            parent: 0,
            jump: 0,
            born: 0,
        });
    }

    /// The next service, with its number among the services.
    pub fn attend(&mut self, service: u64)
        requires room { vec_len self.old.ranks < vec_capacity self.old.ranks }
        requires few { vec_len self.old.ranks < 2 ^ 31 }
        ensures ranked { (names : ℕ → Who) → Ranked names self.old.ranks.items → names (vec_len self.old.ranks) ≡ Service service →
            ((i : ℕ) → i < vec_len self.old.ranks → names i ≢ Service service) → Ranked names self.new.ranks.items }
        ensures len { vec_len self.new.ranks ≡ vec_len self.old.ranks + 1 }
    {
        self.ranks.push_reserved(Rank {
            depth: SERVICE_DEPTH,
            parent: 0,
            jump: 0,
            born: service,
        });
    }

    /// One more process. Its jump goes as far as its parent's two jumps together, where they are of one length.
    pub fn bear(&mut self, parent: u32, born: u64)
        requires room { vec_len self.old.ranks < vec_capacity self.old.ranks }
        requires parent { parent < vec_len self.old.ranks }
        requires process { (rank self.old.ranks.items parent).depth ≢ service_depth }
        requires few { vec_len self.old.ranks < 2 ^ 31 }
        requires ranked { (names : ℕ → Who) × Ranked names self.old.ranks.items }
        ensures ranked { (names : ℕ → Who) → Ranked names self.old.ranks.items → IsChild names parent born (length self.old.ranks.items) → Ranked names self.new.ranks.items }
        ensures len { vec_len self.new.ranks ≡ vec_len self.old.ranks + 1 }
    {
        let above = self.rank(parent);
        let jump = self.far(parent, above);
        self.ranks.push_reserved(Rank {
            depth: above.depth + 1,
            parent,
            jump,
            born,
        });
    }

    fn far(&self, parent: u32, above: Rank) -> u32
        requires parent { parent < vec_len self.now.ranks }
        requires process { (rank self.now.ranks.items parent).depth ≢ service_depth }
        requires above { above ≡ rank self.now.ranks.items parent }
        requires ranked { (names : ℕ → Who) × Ranked names self.now.ranks.items }
        ensures { IsAbove self.now.ranks.items parent result }
    {
        let middle = self.rank(above.jump);
        let far = self.rank(middle.jump);
        if above.depth.wrapping_sub(middle.depth) == middle.depth.wrapping_sub(far.depth) {
            middle.jump
        } else {
            parent
        }
    }
}
