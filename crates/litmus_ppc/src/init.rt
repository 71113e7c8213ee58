//! Reads the block of initial values.

ghost use Rattle.std.specs.Prelude.{◌≡◌, IfOk};
ghost use Rattle.litmus_tokens.specs.PlaceMachine.{value_read};
ghost use Rattle.litmus_grammar.specs.InitMachine.{init_start, location_key, register_key, added, added_if, token_key, word_key, entry_read, place_read, valued, init_step, lacks_thread, missing};
ghost use Rattle.litmus_ppc.specs.InitReading.{block_of, AddsEntry, InitSteps};

use litmus_grammar::InitExpectation;
use litmus_tokens::{
    Mark, PlaceExpectation, PlaceStep, StepError, Token, place_step, register_of, value_read,
};
use std::alloc::{AllocError, Global};
use std::collections::BTreeSet;
use std::mem;
use text_values::{InitEntry, Name, Place, Register};

/// The entries that were read so far.
#[derive(Drop)]
pub struct InitBlock {
    alloc: Global,
    entries: Vec<InitEntry>,
    // The byte that each entry begins at.
    starts: Vec<usize>,
    // The key of each place that was named.
    named: BTreeSet<Vec<u8>>,
}

// The key of a location.
fn location_key(alloc: Global, name: &Name) -> Result<Vec<u8>, AllocError>
    ensures { IfOk result (λ v. v.items ≡ location_key name.now) }
{
    let mut key = Vec::new(alloc);
    key.push(0)?;
    key.extend_from_slice(name.as_bytes())?;
    Ok(key)
}

// The key of a register of the thread of these digits, whose number may be of any size.
fn register_key(alloc: Global, thread: &Name, register: Register) -> Result<Vec<u8>, AllocError>
    ensures { IfOk result (λ v. v.items ≡ register_key thread.now register) }
{
    let mut key = Vec::new(alloc);
    key.push(1)?;
    key.push(register.number())?;
    key.extend_from_slice(thread.as_bytes())?;
    Ok(key)
}

// Whether the place is a register of a thread that is not one of so many.
fn lacks_thread(threads: usize, place: &Place) -> bool
    ensures { result ≡ lacks_thread threads place.now }
{
    match place {
        Place::Location(_) => false,
        Place::Register(thread, _) => threads <= *thread,
    }
}

// The block goes on to what is expected next.
fn expect(expected: &mut InitExpectation, next: InitExpectation)
    ensures { expected.new ≡ next }
{
    *expected = next;
}

impl InitBlock {
    /// A block of which nothing was read.
    pub fn new(alloc: Global) -> InitBlock
        ensures { block_of result ≡ init_start }
    {
        InitBlock {
            alloc,
            entries: Vec::new(alloc),
            starts: Vec::new(alloc),
            named: BTreeSet::new(alloc),
        }
    }

    /// The step over a token at this byte offset, and whether the block ends with it. Errors: out
    /// of memory, or the token is refused; the block is then to be dropped.
    #[inline(never)]
    pub fn step(
        &mut self,
        expected: &mut InitExpectation,
        token: Token,
        offset: usize,
    ) -> Result<bool, StepError>
        // It does what the machine does.
        ensures { InitSteps result expected.new self.new
            (init_step (block_of self.old) expected.old token offset) }
    {
        match mem::replace(expected, InitExpectation::WantsOpen) {
            InitExpectation::WantsOpen => match token {
                Token::Mark(Mark::OpenBrace) => {
                    expect(expected, InitExpectation::WantsEntry);
                    Ok(false)
                }
                _ => Err(StepError::Refused),
            },
            InitExpectation::WantsEntry => self.entry_read(expected, token, offset),
            InitExpectation::InPlace(within) => self.place_read(expected, within, token),
            InitExpectation::WantsEquals(target) => match token {
                Token::Mark(Mark::Equals) => {
                    expect(expected, InitExpectation::WantsValue(target));
                    Ok(false)
                }
                _ => Err(StepError::Refused),
            },
            InitExpectation::WantsValue(target) => self.value_read(expected, target, token),
            InitExpectation::HasEntry => match token {
                Token::Mark(Mark::Semicolon) => {
                    expect(expected, InitExpectation::WantsEntry);
                    Ok(false)
                }
                Token::Mark(Mark::CloseBrace) => Ok(true),
                _ => Err(StepError::Refused),
            },
        }
    }

    // A token where an entry may begin.
    fn entry_read(
        &mut self,
        expected: &mut InitExpectation,
        token: Token,
        offset: usize,
    ) -> Result<bool, StepError>
        ensures { InitSteps result expected.new self.new (entry_read
            (block_of self.old) token offset) }
    {
        match token {
            Token::Mark(Mark::CloseBrace) => Ok(true),
            other => {
                self.starts.push(offset)?;
                self.place_read(expected, PlaceExpectation::Begins, other)
            }
        }
    }

    // A token of a place that no entry before has.
    fn place_read(
        &mut self,
        expected: &mut InitExpectation,
        within: PlaceExpectation,
        token: Token,
    ) -> Result<bool, StepError>
        ensures { InitSteps result expected.new self.new (place_read
            (block_of self.old) within token) }
    {
        self.note(&within, &token)?;
        match place_step(within, token)? {
            PlaceStep::Goes(within) => expect(expected, InitExpectation::InPlace(within)),
            PlaceStep::Ends(written) => {
                expect(expected, InitExpectation::WantsEquals(written.into_place()));
            }
        }
        Ok(false)
    }

    // A value of this place.
    fn value_read(
        &mut self,
        expected: &mut InitExpectation,
        place: Place,
        token: Token,
    ) -> Result<bool, StepError>
        ensures { InitSteps result expected.new self.new
            (valued (block_of self.old) place (value_read token)) }
    {
        let value = value_read(token)?;
        self.entries.push(InitEntry { place, value })?;
        expect(expected, InitExpectation::HasEntry);
        Ok(false)
    }

    // Notes the place that a token names, if it names one, and refuses one that repeats.
    fn note(&mut self, within: &PlaceExpectation, token: &Token) -> Result<(), StepError>
        ensures { AddsEntry result self.new (added_if (block_of self.old)
            (token_key within.now token.now)) }
    {
        match token {
            Token::Word(word) => self.note_word(within, word),
            _ => Ok(()),
        }
    }

    // Notes the place that a word names, if it names one.
    fn note_word(&mut self, within: &PlaceExpectation, word: &Name) -> Result<(), StepError>
        ensures { AddsEntry result self.new (added_if (block_of self.old)
            (word_key within.now word.now)) }
    {
        match within {
            PlaceExpectation::Begins => self.add(location_key(self.alloc, word)?),
            PlaceExpectation::WantsName => self.add(location_key(self.alloc, word)?),
            PlaceExpectation::WantsBracket(_) => Ok(()),
            PlaceExpectation::WantsColon(_) => Ok(()),
            PlaceExpectation::WantsRegister(thread) => match register_of(word.as_bytes()) {
                Some(register) => self.add(register_key(self.alloc, thread, register)?),
                None => Ok(()),
            },
        }
    }

    // Adds the key of a place, and refuses one that is there.
    fn add(&mut self, key: Vec<u8>) -> Result<(), StepError>
        ensures { AddsEntry result self.new (added (block_of self.old) key.items) }
    {
        if self.named.insert(key)? {
            Ok(())
        } else {
            Err(StepError::Refused)
        }
    }

    /// The byte offset of the first entry for a thread that a test of `threads` threads does not
    /// have, or `None`.
    pub fn missing(&self, threads: usize) -> Option<usize>
        ensures { result ≡ missing threads (block_of self.now).entries (block_of self.now).starts }
    {
        for (i, entry) in self.entries.iter().enumerate() {
            if lacks_thread(threads, &entry.place) {
                if i < self.starts.len() {
                    return Some(self.starts[i]);
                }
                return None;
            }
        }
        None
    }

    /// The entries, in the order of the text.
    pub fn into_entries(self) -> Vec<InitEntry>
        ensures { result.items ≡ (block_of self).entries }
    {
        self.entries
    }
}
