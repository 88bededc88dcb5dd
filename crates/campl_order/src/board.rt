//! Which of the processes and services that are flagged stands first: a tree of matches.
ghost use Rattle.std.specs.Prelude.{◌≡◌, ◌<◌, ◌≤◌, ◌+◌, ◌*◌, ◌/◌, ◌^◌, ◌↔◌, ℕ, Bool, true, false, List, Option, IsTrue, IfSome, IfOk, OnOk, OnErr, length, set, vec_len, replicate, slice_index_or};
ghost use Rattle.campl_machine.specs.Names.{Who};
ghost use Rattle.campl_order.specs.Orders.{Ranked};
ghost use Rattle.campl_order.specs.Boards.{entrant, better, is_flagged, earlier, IsBoard, Within, IsFirstFlagged};

use crate::order::Order;
use std::alloc::{AllocError, Global};

/// A tree of matches. Place k is decided between the places 2k and 2k + 1, and from the size on the places are the
/// processes' flags.
#[derive(Drop)]
pub struct Board {
    flags: Vec<bool>,
    winners: Vec<Option<u32>>,
    ghost sized: { (vec_len flags ≡ vec_len winners) × (0 < vec_len winners) × (vec_len winners < 2 ^ 32) },
}

// The one of two that stands first.
fn better(order: &Order, a: Option<u32>, b: Option<u32>) -> Option<u32>
    requires ranked { (names : ℕ → Who) × Ranked names order.now.ranks.items }
    requires a { IfSome a (λ i. i < vec_len order.now.ranks) }
    requires b { IfSome b (λ i. i < vec_len order.now.ranks) }
    ensures within { IfSome result (λ i. i < vec_len order.now.ranks) }
    ensures first { (names : ℕ → Who) → Ranked names order.now.ranks.items → result ≡ better (earlier names) a b }
{
    match a {
        None => b,
        Some(i) => match b {
            None => Some(i),
            Some(j) => {
                if order.is_before(j, i) {
                    Some(j)
                } else {
                    Some(i)
                }
            }
        },
    }
}

fn is_same(a: Option<u32>, b: Option<u32>) -> bool
    ensures { IsTrue result → a ≡ b }
{
    match a {
        None => b.is_none(),
        Some(i) => match b {
            None => false,
            Some(j) => i == j,
        },
    }
}

impl Board {
    pub fn empty(alloc: Global, size: usize) -> Result<Board, AllocError>
        requires { (0 < size) × (size < 2 ^ 32) }
        ensures { IfOk result (λ b. (b.flags.items ≡ replicate size false) × (b.winners.items ≡ replicate size None)) }
    {
        let flags = vec![in alloc; false; size]?;
        let winners = vec![in alloc; None; size]?;
        Ok(Board { flags, winners })
    }

    pub fn size(&self) -> usize
        ensures { result ≡ vec_len self.now.flags }
    {
        self.flags.len()
    }

    fn entrant(&self, place: usize) -> Option<u32>
        requires { place < 2 * vec_len self.now.winners }
        ensures { result ≡ entrant self.now.flags.items self.now.winners.items place }
    {
        let size = self.winners.len();
        if place < size {
            self.winners[place]
        } else if self.flags[place - size] {
            Some((place - size) as u32)
        } else {
            None
        }
    }

    /// The first of the flagged processes.
    pub fn first(&self) -> Option<u32>
        ensures { (names : ℕ → Who) → IsBoard (earlier names) self.now.flags.items self.now.winners.items → IsFirstFlagged (earlier names) self.now.flags.items result }
    {
        self.entrant(1)
    }

    // Who wins between the two places below this one.
    fn decide(&self, order: &Order, place: usize) -> Option<u32>
        requires place { place < vec_len self.now.winners }
        requires ranked { (names : ℕ → Who) × Ranked names order.now.ranks.items }
        requires fits { Within (vec_len order.now.ranks) self.now.flags.items self.now.winners.items }
        ensures within { IfSome result (λ i. i < vec_len order.now.ranks) }
        ensures decided { (names : ℕ → Who) → Ranked names order.now.ranks.items → result ≡ better (earlier names) (entrant self.now.flags.items self.now.winners.items (2 * place)) (entrant self.now.flags.items self.now.winners.items (2 * place + 1)) }
    {
        better(order, self.entrant(2 * place), self.entrant(2 * place + 1))
    }

    /// Sets or takes back the flag of a process.
    pub fn flag(&mut self, order: &Order, process: u32, ready: bool)
        requires there { process < vec_len self.old.flags }
        requires ranked { (names : ℕ → Who) × Ranked names order.now.ranks.items }
        requires fits { Within (vec_len order.now.ranks) self.old.flags.items self.old.winners.items }
        requires known { process < vec_len order.now.ranks }
        ensures len { vec_len self.new.flags ≡ vec_len self.old.flags }
        ensures flags { self.new.flags.items ≡ set self.old.flags.items process ready }
        ensures fits { Within (vec_len order.now.ranks) self.new.flags.items self.new.winners.items }
        ensures board { (names : ℕ → Who) → Ranked names order.now.ranks.items → IsBoard (earlier names) self.old.flags.items self.old.winners.items → IsBoard (earlier names) self.new.flags.items self.new.winners.items }
    {
        self.flags[process as usize] = ready;
        let mut place = self.winners.len() + process as usize;
        'up: while 1 < place {
            place /= 2;
            let winner = self.decide(order, place);
            if is_same(self.winners[place], winner) {
                return;
            }
            self.winners[place] = winner;
        }
    }

    /// Twice the room, with the same flags.
    pub fn grow(&mut self, alloc: Global, order: &Order) -> Result<(), AllocError>
        requires ranked { (names : ℕ → Who) × Ranked names order.now.ranks.items }
        requires fits { Within (vec_len order.now.ranks) self.old.flags.items self.old.winners.items }
        ensures err { OnErr result ((self.new.flags.items ≡ self.old.flags.items) × (self.new.winners.items ≡ self.old.winners.items)) }
        ensures more { OnOk result (vec_len self.new.flags ≡ 2 * vec_len self.old.flags) }
        ensures flags { OnOk result ((i : ℕ) → is_flagged self.new.flags.items i ≡ is_flagged self.old.flags.items i) }
        ensures fits { OnOk result (Within (vec_len order.now.ranks) self.new.flags.items self.new.winners.items) }
        ensures board { OnOk result ((names : ℕ → Who) → Ranked names order.now.ranks.items → IsBoard (earlier names) self.new.flags.items self.new.winners.items) }
    {
        let size = self.flags.len();
        if 0x7fff_ffff < size {
            return Err(AllocError);
        }
        let mut next = Board::empty(alloc, 2 * size)?;
        for i in 0..size {
            if self.flags[i] {
                next.flag(order, i as u32, true);
            }
        }
        *self = next;
        Ok(())
    }
}
