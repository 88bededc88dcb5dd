//! Services.
ghost use Rattle.std.specs.Prelude.{◌≡◌, ℕ, [], ◌∷◌, ◌++◌, ◌+◌, ◌^◌, ◌<◌, ◌≤◌, Some, None, false, IsSome, IfOk, IfErr, OnOk, OnErr, IsOk, length, map};
ghost use Rattle.campl_value.specs.Text.{chars_of};
ghost use Rattle.campl_value.specs.declared.message.Message.TheVariants.{Word};
ghost use Rattle.campl_service.specs.Services.{Suits, want, want_in, action, asked, took, sent, request, IsNext, lacks_word, next_line};
ghost use Rattle.campl_service.specs.Transcripts.{record_of};

use crate::phase::{Phase, Request, ServiceKind, Want, request_of};
use crate::record::Noted;
use crate::script::Script;
use crate::text::TextValue;
use crate::transcript::Transcript;
use campl_value::{Message, Value};
use std::alloc::{AllocError, Global};
use std::collections::LinkedList;
use std::marker::Model;

/// What stands at the far end of a channel of `run`: it takes constructors and texts, sends the lines of its script, and writes
/// all of it down. Contracts see its kind, its phase, its script and its transcript, and `spare`, for how many actions it has
/// the memory.
#[derive(Drop)]
pub struct Service {
    kind: ServiceKind,
    phase: Phase,
    script: Script,
    transcript: Transcript,
    // A place for the next record, which holds anything until then.
    places: LinkedList<Noted>,
    // The value of the script's next line.
    word: Option<Value>,
}

impl Model for Service {
    ghost use Rattle.std.specs.Prelude.{◌≤◌, ◌<◌, ◌+◌, ◌^◌, length};
    ghost use Rattle.campl_service.specs.Services.{Attending, IsNext, spare_of};

    ghost Value = { Attending };

    ghost view = { λ s. record { serving = record { kind = s.kind; phase = s.phase; script = s.script; transcript = s.transcript }; spare = spare_of s.phase s.script s.word (length s.places) } };

    ghost invariant = { λ s. IsNext s.word s.script × (length s.places ≤ 1) × (length s.transcript + length s.places < 2 ^ 63) };
}

/// Want of memory for an action. The service is unchanged, and what it was given comes back.
#[derive(Drop)]
pub struct ServiceRefused {
    pub given: Option<Message>,
}

impl Service {
    /// A service of this kind with this script, which waits for a constructor. It takes no memory yet.
    pub fn new(alloc: Global, kind: ServiceKind, script: Script) -> Service
        ensures { result.serving ≡ record { kind = kind; phase = Phase.Pick; script = script; transcript = [] } }
    {
        Service {
            kind,
            phase: Phase::Pick,
            script,
            transcript: Transcript::new(alloc),
            places: LinkedList::new(alloc),
            word: None,
        }
    }

    /// What it wants. It takes no memory.
    pub fn wants(&self) -> Want
        ensures { result ≡ want self.now.serving }
    {
        match self.phase {
            Phase::Pick => Want::Pick,
            Phase::Text => Want::Text,
            Phase::Send => self.wants_to_send(),
            Phase::Closed => Want::Closed,
        }
    }

    fn wants_to_send(&self) -> Want
        ensures { result ≡ want_in Phase.Send self.now.serving.script }
    {
        match self.script.first() {
            Some(_) => Want::Send,
            None => Want::Spent,
        }
    }

    /// A copy of the line that it sends next, and None where its script is spent. It changes nothing. An error means that memory is
    /// out.
    pub fn next_line(&self) -> Result<Option<Value>, AllocError>
        ensures { IfOk result (λ line. line ≡ next_line self.now.serving.script) }
    {
        match self.script.first() {
            None => Ok(None),
            Some(line) => match line.value() {
                Ok(value) => Ok(Some(value)),
                Err(error) => Err(error),
            },
        }
    }

    /// What it wrote down.
    pub fn transcript(&self) -> &Transcript
        ensures { result.now ≡ self.now.serving.transcript }
    {
        &self.transcript
    }

    /// Takes the memory of one action, so that it isn't refused: the place of a record, and the value of a line that is to be
    /// sent. It changes nothing else. An error means that memory is out.
    pub fn make_room(&mut self) -> Result<(), AllocError>
        ensures ok { OnOk result (1 ≤ self.new.spare) }
        ensures same { self.new.serving ≡ self.old.serving }
        ensures err { OnErr result (self.new.spare ≡ self.old.spare) }
        ensures room { 1 ≤ self.old.spare → IsOk result }
    {
        make_place(&self.transcript, &mut self.places)?;
        make_word(self.phase, &self.script, &mut self.word)
    }

    /// Makes an action: it takes a constructor, or takes a text and writes it down, or writes the next line of its script down
    /// and answers it, to be sent.
    pub fn act(&mut self, given: Option<Message>) -> Result<Option<Message>, ServiceRefused>
        requires { Suits (want self.old.serving) given }
        ensures ok { IfOk result (λ sent. action self.old.serving given ≡ Some (self.new.serving, sent)) }
        ensures back { IfErr result (λ refused. refused.given ≡ given) }
        ensures err { OnErr result (self.new ≡ self.old) }
        ensures room { 1 ≤ self.old.spare → IsOk result }
    {
        match self.make_room() {
            Ok(()) => Ok(self.act_now(given)),
            Err(AllocError) => Err(ServiceRefused { given }),
        }
    }

    // An action whose memory is there.
    fn act_now(&mut self, given: Option<Message>) -> Option<Message>
        requires suits { Suits (want self.old.serving) given }
        requires room { 1 ≤ self.old.spare }
        ensures { action self.old.serving given ≡ Some (self.new.serving, result) }
    {
        match given {
            Some(message) => {
                self.take(message);
                None
            }
            None => Some(Message::Word(self.send_line())),
        }
    }

    // Takes a constructor or a text.
    fn take(&mut self, message: Message)
        requires suits { Suits (want self.old.serving) (Some message) }
        requires room { 1 ≤ self.old.spare }
        ensures { action self.old.serving (Some message) ≡ Some (self.new.serving, None) }
    {
        if let Message::Pick(number) = &message {
            self.pick(*number);
        } else {
            match message.into_word() {
                Some(text) => self.take_text(text),
                None => unreachable!(),
            }
        }
    }

    fn pick(&mut self, number: u32)
        requires known { number < 3 }
        requires room { 1 ≤ self.old.spare }
        ensures { asked self.old.serving (request self.old.serving.kind number) ≡ Some (self.new.serving, None) }
    {
        match request_of(self.kind, number) {
            Request::Put => self.phase = Phase::Text,
            Request::Get => self.phase = Phase::Send,
            Request::Close => {
                self.transcript.note(&mut self.places, Noted::Closed);
                self.phase = Phase::Closed;
            }
        }
    }

    fn take_text(&mut self, text: Value)
        requires text { IsSome (chars_of text) }
        requires room { 1 ≤ self.old.spare }
        ensures { took self.old.serving (chars_of text) ≡ Some (self.new.serving, None) }
    {
        self.transcript
            .note(&mut self.places, Noted::Took(TextValue::from_value(text)));
        self.phase = Phase::Pick;
    }

    fn send_line(&mut self) -> Value
        requires sends { want self.old.serving ≡ Want.Send }
        requires room { 1 ≤ self.old.spare }
        ensures { sent self.old.serving self.old.serving.script ≡ Some (self.new.serving, Some (Word result)) }
    {
        match (self.script.take_first(), self.word.take()) {
            (Some(line), Some(word)) => {
                self.transcript.note(&mut self.places, Noted::Sent(line));
                self.phase = Phase::Pick;
                word
            }
            _ => unreachable!(),
        }
    }
}

// How many records a transcript can't have.
const RECORDS_END: usize = 1 << 63;

// Makes the place of the next record, if it isn't there.
fn make_place(transcript: &Transcript, places: &mut LinkedList<Noted>) -> Result<(), AllocError>
    requires at_most_one { length places.old ≤ 1 }
    requires few { length transcript.now + length places.old < 2 ^ 63 }
    ensures ok { OnOk result (length places.new ≡ 1) }
    ensures few { length transcript.now + length places.new < 2 ^ 63 }
    ensures err { OnErr result (places.new ≡ places.old) }
    ensures room { length places.old ≡ 1 → IsOk result }
{
    if !places.is_empty() {
        return Ok(());
    }
    if transcript.len() + 1 >= RECORDS_END {
        return Err(AllocError);
    }
    match places.push_back(Noted::Closed) {
        Ok(()) => Ok(()),
        Err(_) => Err(AllocError),
    }
}

// Makes the value of the line that is to be sent, if one is and it isn't there.
fn make_word(phase: Phase, script: &Script, word: &mut Option<Value>) -> Result<(), AllocError>
    requires { IsNext word.old script.now }
    ensures ok { OnOk result (lacks_word phase script.now word.new ≡ false) }
    ensures next { IsNext word.new script.now }
    ensures err { OnErr result (word.new ≡ word.old) }
    ensures room { lacks_word phase script.now word.old ≡ false → IsOk result }
{
    if let (Phase::Send, None, Some(line)) = (phase, &*word, script.first()) {
        *word = Some(line.value()?);
    }
    Ok(())
}
