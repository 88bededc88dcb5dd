//! What a step does to the table of ends.
ghost use Rattle.std.specs.Prelude.{◌≡◌, ◌≢◌, ℕ, ◌<◌, ◌^◌, ◌+◌, ◌≤◌, ◌*◌, [], ◌∷◌, ◌++◌, Some, drop, OnOk, OnErr, vec_len, vec_capacity, suc, slice_get};
ghost use Rattle.std.specs.VecDeque.{deque_len};
ghost use Rattle.campl_cells.specs.Parts.{bare, or_bare, put, written};
ghost use Rattle.campl_cells.specs.Steps.{arrives, borne, tips_joined};
ghost use Rattle.campl_parts.specs.Tables.{tips, HasRoomFor, HasMessages};

use crate::inbox::EndPart;
use campl_value::Message;
use std::alloc::{AllocError, Global};
use std::collections::VecDeque;

/// Takes the memory of so many more messages at an end, and changes nothing else.
pub fn make_room_for(ends: &mut Vec<EndPart>, at: u32, messages: usize) -> Result<(), AllocError>
    requires { at < vec_len ends.old }
    ensures len { vec_len ends.new ≡ vec_len ends.old }
    ensures capacity { vec_capacity ends.new ≡ vec_capacity ends.old }
    ensures same { tips ends.new.items ≡ tips ends.old.items }
    ensures room { OnOk result (HasRoomFor ends.new.items at messages) }
    ensures lengths { (k : ℕ) (n : ℕ) → HasMessages ends.old.items k n → HasMessages ends.new.items k n }
    ensures others { (k : ℕ) → k ≢ at → slice_get ends.new.items k ≡ slice_get ends.old.items k }
{
    ends[at as usize].make_room(messages)
}

/// A message arrives at an end.
pub fn arrive(ends: &mut Vec<EndPart>, at: u32, message: Message)
    requires there { at < vec_len ends.old }
    requires room { HasRoomFor ends.old.items at 1 }
    ensures len { vec_len ends.new ≡ vec_len ends.old }
    ensures capacity { vec_capacity ends.new ≡ vec_capacity ends.old }
    ensures arrived { tips ends.new.items ≡ put at (Some (arrives message (or_bare (tips ends.old.items at)))) (tips ends.old.items) }
{
    ends[at as usize].arrive(message);
}

/// Takes the oldest message off an end.
pub fn take(ends: &mut Vec<EndPart>, on: u32)
    requires { on < vec_len ends.old }
    ensures len { vec_len ends.new ≡ vec_len ends.old }
    ensures rest { tips ends.new.items ≡ put on (Some (record { peer = (or_bare (tips ends.old.items on)).peer; inbox = drop 1 (or_bare (tips ends.old.items on)).inbox })) (tips ends.old.items) }
{
    ends[on as usize].take();
}

/// A new channel, the next one.
pub fn channel(alloc: Global, ends: &mut Vec<EndPart>)
    requires room { vec_len ends.old + 2 ≤ vec_capacity ends.old }
    requires few { vec_len ends.old + 2 < 2 ^ 32 }
    ensures len { vec_len ends.new ≡ suc (suc (vec_len ends.old)) }
    ensures capacity { vec_capacity ends.new ≡ vec_capacity ends.old }
    ensures born { (c : ℕ) → vec_len ends.old ≡ 2 * c → tips ends.new.items ≡ written (borne (c ∷ [])) (tips ends.old.items) }
{
    let near = ends.len() as u32;
    ends.push_reserved(EndPart::joined_to(alloc, near + 1));
    ends.push_reserved(EndPart::joined_to(alloc, near));
}

// An end is given up, and hands out its messages.
fn leave(ends: &mut Vec<EndPart>, y: u32) -> VecDeque<Message>
    requires { y < vec_len ends.old }
    ensures len { vec_len ends.new ≡ vec_len ends.old }
    ensures left { tips ends.new.items ≡ put y (Some bare) (tips ends.old.items) }
    ensures others { (k : ℕ) → k ≢ y → slice_get ends.new.items k ≡ slice_get ends.old.items k }
    ensures messages { result.items ≡ (or_bare (tips ends.old.items y)).inbox }
    ensures count { (n : ℕ) → HasMessages ends.old.items y n → deque_len result ≡ n }
{
    ends[y as usize].leave()
}

fn meet(ends: &mut Vec<EndPart>, x2: u32, y2: u32, messages: VecDeque<Message>)
    requires there { x2 < vec_len ends.old }
    requires room { HasRoomFor ends.old.items x2 (deque_len messages) }
    ensures len { vec_len ends.new ≡ vec_len ends.old }
    ensures others { (k : ℕ) → k ≢ x2 → slice_get ends.new.items k ≡ slice_get ends.old.items k }
    ensures met { tips ends.new.items ≡ put x2 (Some (record { peer = Some y2; inbox = (or_bare (tips ends.old.items x2)).inbox ++ messages.items })) (tips ends.old.items) }
{
    ends[x2 as usize].meet(y2, messages);
}

fn messages(ends: &Vec<EndPart>, at: u32) -> usize
    requires { at < vec_len ends.now }
    ensures { HasMessages ends.now.items at result }
{
    ends[at as usize].inbox.len()
}

/// The ends x and y are given up, and their peers x2 and y2 become peers.
pub fn join(ends: &mut Vec<EndPart>, x: u32, y: u32, x2: u32, y2: u32) -> Result<(), AllocError>
    requires x { x < vec_len ends.old }
    requires y { y < vec_len ends.old }
    requires x2 { x2 < vec_len ends.old }
    requires y2 { y2 < vec_len ends.old }
    requires apart { (x ≢ y) × (x2 ≢ x) × (x2 ≢ y) × (y2 ≢ x) × (y2 ≢ y) × (x2 ≢ y2) }
    ensures len { vec_len ends.new ≡ vec_len ends.old }
    ensures ok { OnOk result (tips ends.new.items ≡ written (tips_joined (tips ends.old.items) x y x2 y2) (tips ends.old.items)) }
    ensures err { OnErr result (tips ends.new.items ≡ tips ends.old.items) }
{
    let from_x = messages(ends, x);
    let from_y = messages(ends, y);
    make_room_for(ends, x2, from_y)?;
    make_room_for(ends, y2, from_x)?;
    let left = leave(ends, x);
    let right = leave(ends, y);
    meet(ends, x2, y2, right);
    meet(ends, y2, x2, left);
    Ok(())
}
