//! What is found in the words behind the first.
ghost use Rattle.std.specs.Prelude.{◌≡◌, option_map};
ghost use Rattle.campl_orders.specs.declared.found.Slot.{Slot};
ghost use Rattle.campl_orders.specs.Reading.{is_value, given, put, put_new, option_named};

/// What a word may give: the operand, or the value of an option.
#[derive(Clone, Copy, Debug)]
pub enum Slot {
    Operand,
    Script,
    Steps,
    Workers,
}

/// What was given so far, each at most once.
#[derive(Clone, Copy)]
pub struct Found<'a> {
    pub operand: Option<&'a str>,
    pub script: Option<&'a str>,
    pub steps: Option<&'a str>,
    pub workers: Option<&'a str>,
}

impl<'a> Found<'a> {
    /// With this value, where it is one and its slot is empty.
    pub fn put(self, slot: Slot, value: &'a str) -> Option<Found<'a>>
        ensures { option_map given result ≡ put slot value.entry.now (given self.entry) }
    {
        if !is_value(value) {
            return None;
        }
        match slot {
            Slot::Operand => self.put_operand(value),
            Slot::Script => self.put_script(value),
            Slot::Steps => self.put_steps(value),
            Slot::Workers => self.put_workers(value),
        }
    }

    // The same of the operand.
    fn put_operand(self, value: &'a str) -> Option<Found<'a>>
        ensures { option_map given result ≡ put_new Slot.Operand value.entry.now (given self.entry) }
    {
        match self.operand {
            Some(_) => None,
            None => Some(Found {
                operand: Some(value),
                ..self
            }),
        }
    }

    // The same of the script.
    fn put_script(self, value: &'a str) -> Option<Found<'a>>
        ensures { option_map given result ≡ put_new Slot.Script value.entry.now (given self.entry) }
    {
        match self.script {
            Some(_) => None,
            None => Some(Found {
                script: Some(value),
                ..self
            }),
        }
    }

    // The same of the steps.
    fn put_steps(self, value: &'a str) -> Option<Found<'a>>
        ensures { option_map given result ≡ put_new Slot.Steps value.entry.now (given self.entry) }
    {
        match self.steps {
            Some(_) => None,
            None => Some(Found {
                steps: Some(value),
                ..self
            }),
        }
    }

    // The same of the workers.
    fn put_workers(self, value: &'a str) -> Option<Found<'a>>
        ensures { option_map given result ≡ put_new Slot.Workers value.entry.now (given self.entry) }
    {
        match self.workers {
            Some(_) => None,
            None => Some(Found {
                workers: Some(value),
                ..self
            }),
        }
    }
}

/// The option that a word names.
pub fn option_named(word: &str) -> Option<Slot>
    ensures { result ≡ option_named word.now }
{
    if word == "--script" {
        Some(Slot::Script)
    } else if word == "--steps" {
        Some(Slot::Steps)
    } else if word == "--workers" {
        Some(Slot::Workers)
    } else {
        None
    }
}

// Whether a word may be a value.
fn is_value(word: &str) -> bool
    ensures { result ≡ is_value word.now }
{
    match word.as_bytes() {
        [first, ..] => *first != b'-',
        [] => false,
    }
}
