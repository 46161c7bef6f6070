//! What words ask for, one after another.
ghost use Rattle.std.specs.Prelude.{◌≡◌, ◌⊎◌, IfErr, IfOk, MatchResult, Ok, OnOk, map};
ghost use Rattle.std.specs.String.{string_bytes};
ghost use Rattle.everyday_tabs.specs.Words.{Asks, Takes, asked_by, ended, list_of, settings_of, unasked, with_meaning, with_options, with_plain, with_relative, with_typed, with_word};
ghost use Rattle.everyday_tabs.specs.Words.{meaning_seen};
ghost use Rattle.everyday_tabs.specs.declared.settings.WordsError.TheVariants.{Memory};

use crate::lists::join;
use crate::options::options_of;
use crate::words::{Meaning, meaning_of, option_meaning};
use std::alloc::{AllocError, Global};
use thiserror::Error;

/// What the next word is.
#[derive(Clone, Copy, Debug, PartialEq, Eq)]
pub enum Next {
    /// A word by itself.
    Word,
    /// The name of a terminal.
    Name,
    /// One that is passed over.
    Passed,
}

/// What words ask for.
#[derive(Debug, Drop)]
pub struct Settings<'a> {
    /// The terminal, if it is named.
    pub term: Option<&'a [u8]>,
    /// The list that words make.
    pub typed: Vec<u8>,
    /// The list of an option, which counts in its place.
    pub fixed: Option<&'a [u8]>,
    /// A ruler is shown.
    pub ruler: bool,
    /// The terminal is set.
    pub sets: bool,
    /// The margin, if one is given.
    pub margin: Option<u32>,
    /// What the next word is.
    pub next: Next,
}

/// Why words ask for nothing.
#[derive(Clone, Copy, Debug)]
pub enum WordsError<'a> {
    /// This word is not supported.
    Unsupported(&'a [u8]),
    /// The version is asked for.
    Version,
    /// `-T` is without a name.
    NoName,
    /// A growth of memory was refused.
    Memory,
}

impl From<AllocError> for WordsError<'_> {
    ghost from_gives = { λ _ error. error ≡ Memory };

    fn from(_error: AllocError) -> Self {
        WordsError::Memory
    }
}

impl<'a> Settings<'a> {
    // What no word asks for.
    fn unasked(alloc: Global) -> Settings<'a>
        ensures { settings_of result ≡ unasked }
    {
        Settings {
            term: None,
            typed: Vec::new(alloc),
            fixed: None,
            ruler: false,
            sets: true,
            margin: None,
            next: Next::Word,
        }
    }

    /// The list that counts: that of an option, else that of the words, else an interval of 8.
    pub fn list(&self) -> &[u8]
        ensures { result.now ≡ list_of (settings_of self.now) }
    {
        match self.fixed {
            Some(list) => list,
            None if self.typed.is_empty() => b"8",
            None => self.typed.as_slice(),
        }
    }

    // Adds signs to the list that words make, which then counts.
    fn add(&mut self, alloc: Global, list: &[u8]) -> Result<(), AllocError>
        ensures { OnOk result (settings_of self.new ≡ with_relative (settings_of self.old) list.now) }
    {
        join(alloc, &mut self.typed, list)?;
        self.fixed = None;
        Ok(())
    }

    // The same of a word that does not begin with a plus: it takes the place of a list before an option
    // that names one.
    fn add_typed(&mut self, alloc: Global, list: &[u8]) -> Result<(), AllocError>
        ensures { OnOk result (settings_of self.new ≡ with_typed (settings_of self.old) list.now) }
    {
        if self.fixed.is_some() {
            self.typed.clear();
        }
        self.add(alloc, list)
    }

    // Takes a word with that meaning.
    fn take_meaning(
        &mut self,
        alloc: Global,
        word: &'a [u8],
        meaning: Meaning<'a>,
    ) -> Result<(), WordsError<'a>>
        ensures { Takes (with_meaning (settings_of self.old) word.entry.now (meaning_seen meaning.entry)) self.new result }
    {
        match meaning {
            Meaning::Fixed(list) => {
                self.fixed = Some(list);
                Ok(())
            }
            Meaning::Ruler => {
                self.ruler = true;
                Ok(())
            }
            Meaning::Quiet => {
                self.sets = false;
                Ok(())
            }
            Meaning::Version => Err(WordsError::Version),
            Meaning::NameNext => {
                self.next = Next::Name;
                Ok(())
            }
            Meaning::NameHere(name) => {
                self.term = Some(name);
                self.next = Next::Passed;
                Ok(())
            }
            Meaning::Margin(columns) => {
                self.margin = Some(columns);
                Ok(())
            }
            Meaning::Relative(list) => Ok(self.add(alloc, list)?),
            Meaning::Typed(list) => Ok(self.add_typed(alloc, list)?),
            Meaning::Nothing => Ok(()),
            Meaning::Unsupported => Err(WordsError::Unsupported(word)),
        }
    }

    // Takes options of a word.
    fn take_options(
        &mut self,
        alloc: Global,
        word: &'a [u8],
        options: &[&'a [u8]],
    ) -> Result<(), WordsError<'a>>
        ensures { Takes (with_options (settings_of self.old) word.entry.now (map (λ o. o.now) options.now)) self.new result }
    {
        for option in options {
            self.take_meaning(alloc, word, option_meaning(option))?;
        }
        Ok(())
    }

    // Takes a word by itself.
    fn take_plain(&mut self, alloc: Global, word: &'a [u8]) -> Result<(), WordsError<'a>>
        ensures { Takes (with_plain (settings_of self.old) word.entry.now) self.new result }
    {
        match word.split_first() {
            Some((b'-', letters)) => {
                let options = options_of(alloc, letters)?;
                self.take_options(alloc, word, options.as_slice())
            }
            _ => self.take_meaning(alloc, word, meaning_of(word)),
        }
    }

    // Takes one word more.
    fn take(&mut self, alloc: Global, word: &'a [u8]) -> Result<(), WordsError<'a>>
        ensures { Takes (with_word (settings_of self.old) word.entry.now) self.new result }
    {
        match self.next {
            Next::Word => self.take_plain(alloc, word),
            Next::Name => {
                self.term = Some(word);
                self.next = Next::Word;
                Ok(())
            }
            Next::Passed => {
                self.next = Next::Word;
                Ok(())
            }
        }
    }
}

/// What words ask for, up to the first that is refused.
///
/// # Errors
/// Why they ask for nothing; then `Memory`.
pub fn read_words(alloc: Global, words: &[String]) -> Result<Settings<'_>, WordsError<'_>>
    ensures { Asks (asked_by (map string_bytes words.now)) result }
{
    let mut settings = Settings::unasked(alloc);
    for word in words {
        settings.take(alloc, word.as_str().as_bytes())?;
    }
    if settings.next == Next::Name {
        return Err(WordsError::NoName);
    }
    Ok(settings)
}
