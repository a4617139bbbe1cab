//! Texts in a fault, which contracts see as their bytes.

ghost use Rattle.std.specs.Prelude.{◌≡◌, IfOk, Some, string_bytes};

use std::alloc::{AllocError, Global};
use std::fmt;
use std::marker::Model;

/// A text that contracts see as its bytes. It is made from a `String` and gives it back without taking memory.
#[derive(Drop)]
pub struct Words {
    text: String,
}

impl Model for Words {
    ghost use Rattle.std.specs.Prelude.{List, ℕ, string_bytes};

    ghost Value = { List ℕ };

    ghost view = { λ w. string_bytes w.text };
}

impl Words {
    /// The words of this text. Takes no memory.
    pub fn new(text: String) -> Words
        ensures { result ≡ string_bytes text }
    {
        Words { text }
    }

    /// The text, borrowed.
    pub fn as_str(&self) -> &str
        ensures { result.now ≡ self.now }
    {
        self.text.as_str()
    }

    /// The text itself. Takes no memory.
    pub fn into_string(self) -> String
        ensures { string_bytes result ≡ self }
    {
        self.text
    }

    /// Words with the same text. The only error is want of memory.
    pub fn copy(&self, alloc: Global) -> std::result::Result<Words, AllocError>
        ensures { IfOk result (λ words. words ≡ self.now) }
    {
        Ok(Words {
            text: String::from_str(alloc, self.text.as_str())?,
        })
    }
}

impl fmt::Display for Words {
    ghost output = { λ words. Some words };

    fn fmt<W: fmt::Write>(&self, f: &mut fmt::Formatter<W>) -> fmt::Result {
        f.write_str(self.text.as_str())
    }
}

/// Texts in an order, which contracts see as the list of their bytes. It is made from a `Vec` and gives it back without
/// taking memory.
#[derive(Drop)]
pub struct WordList {
    entries: Vec<Words>,
}

impl Model for WordList {
    ghost use Rattle.std.specs.Prelude.{List, ℕ};

    ghost Value = { List (List ℕ) };

    ghost view = { λ l. l.entries.items };
}

impl WordList {
    /// The list of these texts. Takes no memory.
    pub fn new(entries: Vec<Words>) -> WordList
        ensures { result ≡ entries.items }
    {
        WordList { entries }
    }

    /// The texts, borrowed.
    pub fn as_slice(&self) -> &[Words]
        ensures { result.now ≡ self.now }
    {
        self.entries.as_slice()
    }

    /// The texts themselves. Takes no memory.
    pub fn into_vec(self) -> Vec<Words>
        ensures { result.items ≡ self }
    {
        self.entries
    }

    /// A list of the same texts. The only error is want of memory.
    pub fn copy(&self, alloc: Global) -> std::result::Result<WordList, AllocError>
        ensures { IfOk result (λ list. list ≡ self.now) }
    {
        let mut entries = Vec::new(alloc);
        for words in &self.entries {
            entries.push(words.copy(alloc)?)?;
        }
        Ok(WordList { entries })
    }
}
