//! The words of a call: those of the system, or words in memory.

ghost use Rattle.std.specs.Prelude.{◌≡◌, ◌<◌, List, ℕ, length, map, string_bytes, IfOk, Err, None};
ghost use Rattle.std.specs.declared.option.Option.{Option};
ghost use Rattle.oz_runner.specs.Words.{AreToldAs};
ghost use Rattle.oz_runner.specs.declared.words.NoWords.TheVariants.{NotText};

use std::alloc::Global;
use std::env;
use std::io::ErrorKind;
use std::marker::Model;
use std::rt::Env;

/// Why there are no words.
#[derive(Clone, Copy, Debug, PartialEq, Eq)]
pub enum NoWords {
    /// A word is no text.
    NotText,
    /// No memory is left for them.
    Memory,
}

/// What gives a program its name and the words after it: the command line of the system, or words in memory.
pub trait Words {
    /// The bytes of each word, where it tells them.
    ghost told: { Self → Option (List (List ℕ)) };

    /// The words: there is at least one. Who tells them has no word that is no text.
    fn into_words(self, alloc: Global) -> Result<Vec<String>, NoWords>
        ensures some { IfOk result (λ words. 0 < length words.items) }
        ensures value { IfOk result (λ words. AreToldAs (told self) (map string_bytes words.items)) }
        ensures text { result ≡ Err NotText → told self ≡ None };
}

/// The words that the system gives. They are not told.
#[derive(Drop)]
pub struct SystemWords<'a, R> {
    rt: &'a R,
}

impl<'a, R> SystemWords<'a, R> {
    /// The words of this system.
    pub fn new(rt: &'a R) -> Self {
        SystemWords { rt }
    }
}

impl<R: Env + AllocGlobal> Words for SystemWords<'_, R> {
    ghost told = { λ w. None };

    fn into_words(self, alloc: Global) -> Result<Vec<String>, NoWords> {
        let args = match env::args(self.rt) {
            Ok(args) => args,
            Err(error) => {
                return Err(match error.kind() {
                    ErrorKind::OutOfMemory => NoWords::Memory,
                    _ => NoWords::NotText,
                });
            }
        };
        let mut words = Vec::new(alloc);
        for word in args {
            words.push(word).map_err(|_| NoWords::Memory)?;
        }
        if words.is_empty() {
            let name = String::from_str(alloc, "oz").map_err(|_| NoWords::Memory)?;
            words.push(name).map_err(|_| NoWords::Memory)?;
        }
        Ok(words)
    }
}

/// Words in memory: the program's name, and those after it. Contracts see the bytes of each.
#[derive(Drop)]
pub struct StoredWords {
    words: Vec<String>,
}

impl Model for StoredWords {
    ghost use Rattle.std.specs.Prelude.{List, ℕ, ◌<◌, length, map, string_bytes};

    ghost Value = { List (List ℕ) };

    ghost view = { λ w. map string_bytes w.words.items };

    ghost invariant = { λ w. 0 < length w.words.items };
}

impl StoredWords {
    /// These words, of which there is at least one.
    pub fn new(words: Vec<String>) -> Self
        requires { 0 < length words.items }
        ensures { result ≡ map string_bytes words.items }
    {
        StoredWords { words }
    }
}

impl Words for StoredWords {
    ghost use Rattle.std.specs.Prelude.{Some};

    ghost told = { λ w. Some w };

    fn into_words(self, _alloc: Global) -> Result<Vec<String>, NoWords> {
        Ok(self.words)
    }
}
