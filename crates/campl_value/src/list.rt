// Lists: cells that end in the empty list.
ghost use Rattle.std.specs.Prelude.{◌≡◌, IfOk, option_map};
ghost use Rattle.campl_value.specs.List.{appended, in_front, items_of};
ghost use Rattle.campl_value.specs.Made.{IsMade, IsMadeIfAny};

use crate::value::{Look, Made, Value};
use std::alloc::{AllocError, Global};

impl Value {
    /// The items of this list and behind them `right`, or `None` exactly where this is no list.
    /// `right` isn't looked at, and is shared. Time and memory are linear in the cells of this list, and a text's letters stand
    /// in one row afterwards. An error means that memory is out.
    pub fn append(&self, alloc: Global, right: &Value) -> Result<Option<Made>, AllocError>
        ensures { IfOk result (λ made. IsMadeIfAny (appended self.now right.now) made) }
    {
        match self.characters(alloc)? {
            Some(characters) => Ok(Some(Value::letters(alloc, characters, right.copy()?)?)),
            None => append_items(alloc, self, right),
        }
    }
}

// A list of any items with `right` behind them.
fn append_items(alloc: Global, left: &Value, right: &Value) -> Result<Option<Made>, AllocError>
    ensures { IfOk result (λ made. IsMadeIfAny (appended left.now right.now) made) }
{
    match copied_items(alloc, left)? {
        Some(items) => Ok(Some(put_in_front(alloc, items, right)?)),
        None => Ok(None),
    }
}

fn copied_items(alloc: Global, list: &Value) -> Result<Option<Vec<Value>>, AllocError>
    ensures { IfOk result (λ found. option_map (λ items. items.items) found ≡ items_of list.now) }
{
    let mut items = Vec::new(alloc);
    let mut rest = list.part();
    loop {
        match rest.look() {
            Look::Nil => return Ok(Some(items)),
            Look::Cell(head, tail) => {
                items.push(head.copy()?)?;
                rest = tail;
            }
            _ => return Ok(None),
        }
    }
}

// A list is made from its end, so the last item is put in front first.
fn put_in_front(alloc: Global, mut items: Vec<Value>, right: &Value) -> Result<Made, AllocError>
    ensures { IfOk result (λ made. IsMade (in_front items.items right.now) made) }
{
    let mut list = right.copy()?;
    while let Some(item) = items.pop() {
        match Value::cell(alloc, item, list)? {
            Made::Is(longer) => list = longer,
            Made::TooDeep => return Ok(Made::TooDeep),
        }
    }
    Ok(Made::Is(list))
}
