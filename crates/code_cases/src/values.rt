//! Values written as patterns.
use campl_names::{ConstructorRef, World};
use campl_tree::{Name, Pattern};
use campl_value::{Made, Value};
use std::alloc::{AllocError, Global};

/// The values that patterns write; None where one has a variable or `_` in it, or is too deep, or memory is out.
#[cycle(value)]
pub fn values_of(alloc: Global, world: &World, patterns: &[Pattern]) -> Option<Vec<Value>> {
    let mut values = Vec::new(alloc);
    for p in patterns {
        match value_of(alloc, world, p) {
            None => return None,
            Some(value) => match values.push(value) {
                Ok(()) => {}
                Err(_) => return None,
            },
        }
    }
    Some(values)
}

#[cycle(value)]
fn value_of(alloc: Global, world: &World, p: &Pattern) -> Option<Value> {
    match p {
        Pattern::Wildcard(_) | Pattern::Variable(_, _) => None,
        Pattern::Number(_, n) => Some(Value::int(*n)),
        Pattern::Negative(_, n) => opposite(*n),
        Pattern::Character(_, c) => Some(Value::character(*c)),
        Pattern::Text(_, text) => made(Value::text_of(alloc, text.as_slice())),
        Pattern::True(_) => Some(Value::truth(true)),
        Pattern::False(_) => Some(Value::truth(false)),
        Pattern::Constructor(_, name, ps) => match values_of(alloc, world, ps.as_slice()) {
            None => None,
            Some(parts) => built(alloc, world, name, parts),
        },
        Pattern::List(_, ps) => match values_of(alloc, world, ps.as_slice()) {
            None => None,
            Some(items) => list_of(alloc, items),
        },
        Pattern::Pair(_, p, q) => match value_of(alloc, world, p.get()) {
            None => None,
            Some(first) => match value_of(alloc, world, q.get()) {
                None => None,
                Some(second) => made(Value::pair(alloc, first, second)),
            },
        },
        Pattern::Cons(_, p, q) => match value_of(alloc, world, p.get()) {
            None => None,
            Some(head) => match value_of(alloc, world, q.get()) {
                None => None,
                Some(tail) => made(Value::cell(alloc, head, tail)),
            },
        },
    }
}

fn opposite(n: i64) -> Option<Value> {
    match n.checked_neg() {
        None => None,
        Some(n) => Some(Value::int(n)),
    }
}

fn built(alloc: Global, world: &World, name: &Name, parts: Vec<Value>) -> Option<Value> {
    match number_of(world, name) {
        None => None,
        Some(number) => made(Value::construct(alloc, number, parts)),
    }
}

// A constructor's number, where it is one of data.
fn number_of(world: &World, name: &Name) -> Option<u32> {
    match world.constructor_named(name) {
        Some(ConstructorRef::Data(_, number, _)) => match u32::try_from(number) {
            Ok(number) => Some(number),
            Err(_) => None,
        },
        _ => None,
    }
}

// A list is made from its end.
fn list_of(alloc: Global, mut items: Vec<Value>) -> Option<Value> {
    let mut list = Value::nil();
    while let Some(item) = items.pop() {
        match made(Value::cell(alloc, item, list)) {
            None => return None,
            Some(longer) => list = longer,
        }
    }
    Some(list)
}

fn made(outcome: Result<Made, AllocError>) -> Option<Value> {
    match outcome {
        Ok(Made::Is(value)) => Some(value),
        Ok(Made::TooDeep) => None,
        Err(_) => None,
    }
}
