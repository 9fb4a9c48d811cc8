//! The words that a program was given: what has them, and all of them as texts.

ghost use Rattle.std.specs.Prelude.{◌≡◌, IfErr, IfOk, map, option_map};
ghost use Rattle.std.specs.String.{string_bytes};
ghost use Rattle.gomod_words.specs.Given.{AreGiven, IsUnreadableWords};
ghost use Rattle.gomod_words.specs.Private.Given.{IsWordAt, IsUnreadable, IsUnreadableWord};

use crate::usage::{UsageFault, unreadable};
use std::alloc::{AllocError, Global};
use std::env::FillError;
use std::rt::Env;
use std::str;

/// The room for a word that is tried first, in bytes.
const FIRST_ROOM: usize = 256;

/// What has the words of a command line.
///
/// They are read through it alone, so that a contract can say what follows from them.
pub trait Words {
    ghost use Rattle.std.specs.Prelude.{IfSome, List, ℕ, Option, slice_get};
    ghost use Rattle.std.specs.Io.{WritesAtMost};
    ghost use Rattle.gomod_words.specs.Given.{IsFilled};

    /// The words after the program's own name, if they are known. Those of a process aren't.
    ghost given: { Self → Option (List (List ℕ)) };

    /// Copies a word to the front of `room` and returns its length in bytes. Words are numbered from 0, which is the
    /// first after the program's own name.
    ///
    /// `NotPresent` is returned if there is no word with that number, and `TooLong` if `room` is too small for it.
    fn fill_word(&self, number: usize, room: &mut [u8]) -> Result<usize, FillError>
        ensures bound { WritesAtMost result room.new }
        ensures word { IfSome (given self.now) (λ words. IsFilled (slice_get words number) room.new result) };
}

impl<R: Env> Words for R {
    ghost use Rattle.std.specs.Prelude.{None};

    ghost given = { λ _. None };

    fn fill_word(&self, number: usize, room: &mut [u8]) -> Result<usize, FillError> {
        self.arg(number.saturating_add(1), room)
    }
}

/// The words after the program's own name. If one is not UTF-8, the first such word is a usage error.
///
/// `env::args` does not say which word that is, so the words are read as bytes.
pub fn given_words<S: Words + Alloc<A = Global>>(rt: &S) -> Result<Vec<String>, UsageFault>
    ensures words { IfOk result (λ words. AreGiven (S.given rt.now) (map string_bytes words.items)) }
    ensures fault { IfErr result (IsUnreadableWords (S.given rt.now)) }
{
    let mut words = Vec::new(rt.alloc());
    for number in 0..usize::MAX {
        let Some(word) = word_of(rt, number)? else {
            return Ok(words);
        };
        if words.push(word).is_err() {
            break;
        }
    }
    Err(UsageFault::NoMemory)
}

/// A word, or `None` after the last one. One that is not UTF-8 is a usage error.
fn word_of<S: Words + Alloc<A = Global>>(
    rt: &S,
    number: usize,
) -> Result<Option<String>, UsageFault>
    ensures word { IfOk result (λ word. IsWordAt (S.given rt.now) number (option_map string_bytes word)) }
    ensures fault { IfErr result (IsUnreadableWord (S.given rt.now) number) }
{
    match word_at(rt, number)? {
        Some(bytes) => Ok(Some(text_of(rt.alloc(), bytes.as_slice())?)),
        None => Ok(None),
    }
}

/// The bytes of a word, or `None` after the last one. They are copied to a buffer, which is doubled until it has room
/// for them.
fn word_at<S: Words + Alloc<A = Global>>(
    rt: &S,
    number: usize,
) -> Result<Option<Vec<u8>>, AllocError>
    ensures { IfOk result (λ word. IsWordAt (S.given rt.now) number (option_map (λ bytes. bytes.items) word)) }
{
    let mut room = FIRST_ROOM;
    for _ in 0..usize::BITS {
        let mut word = Vec::new(rt.alloc());
        word.resize(room, 0u8)?;
        match rt.fill_word(number, word.as_mut_slice()) {
            Ok(length) => {
                word.truncate(length);
                return Ok(Some(word));
            }
            Err(FillError::NotPresent) => return Ok(None),
            Err(FillError::TooLong) => room = room.saturating_mul(2),
        }
    }
    Err(AllocError)
}

/// A word as a text. One that is not UTF-8 is a usage error.
fn text_of(alloc: Global, word: &[u8]) -> Result<String, UsageFault>
    ensures text { IfOk result (λ text. string_bytes text ≡ word.now) }
    ensures fault { IfErr result (IsUnreadable word.now) }
{
    match str::from_utf8(word) {
        Ok(text) => Ok(String::from_str(alloc, text)?),
        Err(_) => Err(unreadable(alloc, word)),
    }
}
