//! The characters of a path.

ghost use Rattle.std.specs.Prelude.{◌≡◌, ◌||◌, ◌==◌, if◌then◌else◌, Some, None, IfOk};
ghost use Rattle.yaml_query.specs.PathText.{closing, digit_behind, dot, index_ended, is_digit, is_quote};
ghost use Rattle.yaml_query.specs.PathText.{key_begins, key_ended, next, nothing_read, opening, perform};
ghost use Rattle.yaml_query.specs.PathText.{step_begins, step_ends, steps_at_end, taken, with_digit};
ghost use Rattle.yaml_query.specs.Reading.{plain_reading};
ghost use Rattle.yaml_query.specs.Steps.{plain_steps};

use crate::step::Step;
use std::alloc::{AllocError, Global};
use std::mem;

/// Where a character of a path stands.
#[derive(Clone, Copy)]
pub(crate) enum Place {
    /// First.
    Start,
    /// Behind the dot that is first.
    Root,
    /// Behind another dot.
    Key,
    /// Within a key without quotes.
    Name,
    /// Between these quotes.
    Quoted(char),
    /// Behind such a quote, which ends the key, or is the first of two that stand for one.
    Quote(char),
    /// Behind an opening bracket.
    Bracket,
    /// Behind a digit between brackets.
    Digits,
    /// Behind a closing bracket.
    Behind,
}

/// What is done with a character of a path.
#[derive(Clone, Copy)]
pub(crate) enum Act {
    /// Nothing.
    Skip,
    /// It is one of the key.
    Take,
    /// It is a digit of the place.
    Digit,
    /// The key ended before it.
    EndKey,
    /// It ends the place.
    EndIndex,
}

/// What of a path was read.
#[derive(Drop)]
pub(crate) struct Reading {
    pub(crate) steps: Vec<Step>,
    pub(crate) name: String,
    pub(crate) number: usize,
}

fn is_quote(c: char) -> bool
    ensures { result ≡ is_quote c }
{
    matches!(c, '"' | '\'')
}

fn is_digit(c: char) -> bool
    ensures { result ≡ is_digit c }
{
    matches!(c, '0'..='9')
}

fn is_own(c: char) -> bool
    ensures { result ≡ ((c == dot) || ((c == opening) || (c == closing))) }
{
    matches!(c, '.' | '[' | ']')
}

fn key_begins(c: char) -> Option<(Place, Act)>
    ensures { result ≡ key_begins c }
{
    if is_quote(c) {
        return Some((Place::Quoted(c), Act::Skip));
    }
    if is_own(c) {
        return None;
    }
    Some((Place::Name, Act::Take))
}

fn step_begins(c: char) -> Option<(Place, Act)>
    ensures { result ≡ step_begins c }
{
    if c == '[' {
        return Some((Place::Bracket, Act::Skip));
    }
    key_begins(c)
}

fn step_ends(done: Act, c: char) -> Option<(Place, Act)>
    ensures { result ≡ step_ends done c }
{
    match c {
        '.' => Some((Place::Key, done)),
        '[' => Some((Place::Bracket, done)),
        _ => None,
    }
}

// Of what stands within a key without quotes.
fn in_name(c: char) -> Option<(Place, Act)>
    ensures { result ≡ next Place.Name c }
{
    if is_own(c) {
        return step_ends(Act::EndKey, c);
    }
    Some((Place::Name, Act::Take))
}

// Of what stands between quotes.
fn in_quotes(quote: char, c: char) -> Option<(Place, Act)>
    ensures { result ≡ next (Place.Quoted quote) c }
{
    if c == quote {
        return Some((Place::Quote(quote), Act::Skip));
    }
    Some((Place::Quoted(quote), Act::Take))
}

// Of what stands behind a quote.
fn behind_quote(quote: char, c: char) -> Option<(Place, Act)>
    ensures { result ≡ next (Place.Quote quote) c }
{
    if c == quote {
        return Some((Place::Quoted(quote), Act::Take));
    }
    step_ends(Act::EndKey, c)
}

// Of what stands behind an opening bracket.
fn in_brackets(c: char) -> Option<(Place, Act)>
    ensures { result ≡ next Place.Bracket c }
{
    if is_digit(c) {
        return Some((Place::Digits, Act::Digit));
    }
    None
}

// Of what stands behind a digit.
fn behind_digit(c: char) -> Option<(Place, Act)>
    ensures { result ≡ next Place.Digits c }
{
    if is_digit(c) {
        return Some((Place::Digits, Act::Digit));
    }
    if c == ']' {
        return Some((Place::Behind, Act::EndIndex));
    }
    None
}

// Of what stands first.
fn at_start(c: char) -> Option<(Place, Act)>
    ensures { result ≡ next Place.Start c }
{
    if c == '.' {
        return Some((Place::Root, Act::Skip));
    }
    step_begins(c)
}

/// What a character is, by where it stands: what comes behind it, and what is done with it.
pub(crate) fn next(place: Place, c: char) -> Option<(Place, Act)>
    ensures { result ≡ next place c }
{
    match place {
        Place::Start => at_start(c),
        Place::Root => step_begins(c),
        Place::Key => key_begins(c),
        Place::Name => in_name(c),
        Place::Quoted(quote) => in_quotes(quote, c),
        Place::Quote(quote) => behind_quote(quote, c),
        Place::Bracket => in_brackets(c),
        Place::Digits => behind_digit(c),
        Place::Behind => step_ends(Act::Skip, c),
    }
}

// A digit more of a number; none where it has more than 64 bits.
fn with_digit(number: usize, c: char) -> Option<usize>
    ensures { result ≡ digit_behind number c }
{
    let digit = (c as u32).saturating_sub(48) as usize;
    number.checked_mul(10)?.checked_add(digit)
}

impl Reading {
    /// That of an empty text.
    pub(crate) fn new(alloc: Global) -> Reading
        ensures { plain_reading result ≡ nothing_read }
    {
        Reading {
            steps: Vec::new(alloc),
            name: String::new(alloc),
            number: 0,
        }
    }

    // The key is a step.
    #[tactic(auto, using(crate::proofs::StepLaws::plain_steps_push))]
    fn end_key(&mut self, alloc: Global) -> Result<(), AllocError>
        ensures { IfOk result (λ _. plain_reading self.new ≡ key_ended (plain_reading self.old)) }
    {
        let name = mem::replace(&mut self.name, String::new(alloc));
        self.steps.push(Step::Key(name))?;
        Ok(())
    }

    // The number is a step.
    #[tactic(auto, using(crate::proofs::StepLaws::plain_steps_push))]
    fn end_index(&mut self) -> Result<(), AllocError>
        ensures { IfOk result (λ _. plain_reading self.new ≡ index_ended (plain_reading self.old)) }
    {
        self.steps.push(Step::Index(self.number))?;
        self.number = 0;
        Ok(())
    }

    // The character is one of the key.
    fn take(&mut self, c: char) -> Result<(), AllocError>
        ensures { IfOk result (λ _. plain_reading self.new ≡ taken c (plain_reading self.old)) }
    {
        self.name.push(c)
    }

    // The digit is one of the number, if that has room for it.
    fn digit(&mut self, c: char) -> bool
        ensures { with_digit c (plain_reading self.old)
            ≡ (if result then Some (plain_reading self.new) else None) }
    {
        match with_digit(self.number, c) {
            Some(number) => {
                self.number = number;
                true
            }
            None => false,
        }
    }

    /// Does what is done with a character, and answers whether it can be done.
    pub(crate) fn perform(&mut self, alloc: Global, act: Act, c: char) -> Result<bool, AllocError>
        ensures { IfOk result (λ done. perform act c (plain_reading self.old)
            ≡ (if done then Some (plain_reading self.new) else None)) }
    {
        match act {
            Act::Skip => Ok(true),
            Act::Take => {
                self.take(c)?;
                Ok(true)
            }
            Act::Digit => Ok(self.digit(c)),
            Act::EndKey => {
                self.end_key(alloc)?;
                Ok(true)
            }
            Act::EndIndex => {
                self.end_index()?;
                Ok(true)
            }
        }
    }

    /// Ends the reading, and answers whether the text may end here.
    pub(crate) fn finish(&mut self, alloc: Global, place: Place) -> Result<bool, AllocError>
        ensures { IfOk result (λ done. steps_at_end place (plain_reading self.old)
            ≡ (if done then Some (plain_steps self.new.steps.items) else None)) }
    {
        match place {
            Place::Start | Place::Root | Place::Behind => Ok(true),
            Place::Name | Place::Quote(_) => {
                self.end_key(alloc)?;
                Ok(true)
            }
            Place::Key | Place::Quoted(_) | Place::Bracket | Place::Digits => Ok(false),
        }
    }
}
