//! What words ask for, one after another.
ghost use Rattle.std.specs.Prelude.{◌≡◌, ◌==◌, MatchResult, Ok, OnOk, if◌then◌else◌, map, option_map};
ghost use Rattle.std.specs.String.{string_bytes};
ghost use Rattle.everyday_tset.specs.Mappings.{mapping_in, mapping_of};
ghost use Rattle.everyday_tset.specs.Settings.{Asks, Takes, asked_by, character_in, control_of, ended, has_dash, in_ascii, is_bare};
ghost use Rattle.everyday_tset.specs.Settings.{is_character_letter, is_mapping_letter, lacks_next, modern, port_of, settings_of, takes_value};
ghost use Rattle.everyday_tset.specs.Settings.{unasked, with_both, with_character, with_flag, with_letters, with_mapping, with_name, with_one, with_plain};
ghost use Rattle.everyday_tset.specs.Settings.{with_rest, with_usual, with_value, with_word};
ghost use Rattle.everyday_tset.specs.declared.settings.WordsError.TheVariants.{Memory};

use crate::mappings::{Mapping, MappingFault};
use std::alloc::{AllocError, Global};
use thiserror::Error;

// A byte that is no less is not ASCII.
const ASCII: u8 = 128;

// DEL.
const DELETE: u8 = 127;

/// What the next word is.
#[derive(Clone, Copy, Debug, PartialEq, Eq)]
pub enum Next {
    /// A word by itself.
    Word,
    /// What this letter takes.
    Value(u8),
    /// A name.
    Name,
}

/// What words ask for.
#[derive(Debug, Drop)]
pub struct Settings<'a> {
    /// The characters and modes of the line are set.
    pub modes: bool,
    /// The size of the window is set, if it has none.
    pub size: bool,
    /// The character that erases, if one is given.
    pub erase: Option<u8>,
    /// The character that interrupts, if one is given.
    pub interrupt: Option<u8>,
    /// The character that kills the line, if one is given.
    pub kill: Option<u8>,
    /// No strings are sent to the terminal.
    pub no_strings: bool,
    /// The characters are not reported.
    pub no_report: bool,
    /// The name of the terminal is printed, and nothing is set.
    pub name_only: bool,
    /// The name of the terminal is said on standard error.
    pub says_name: bool,
    /// Commands for the shell are printed.
    pub commands: bool,
    /// Those of termcap are asked for.
    pub termcap: bool,
    /// The mappings.
    pub mappings: Vec<Mapping<'a>>,
    /// The terminal, if it is named.
    pub terminal: Option<&'a [u8]>,
    /// More than one is named.
    pub others: bool,
    /// What the next word is.
    pub next: Next,
}

/// Why words ask for nothing.
#[derive(Clone, Copy, Debug, PartialEq, Eq, Error)]
pub enum WordsError<'a> {
    /// There is no such option.
    #[error("unknown option")]
    Unknown(u8),
    /// The option lacks what it takes.
    #[error("an option lacks its value")]
    NoValue(u8),
    /// This is no mapping.
    #[error("bad mapping")]
    BadMapping(&'a [u8]),
    /// No line has this rate, which a mapping names.
    #[error("unknown rate")]
    UnknownRate(&'a [u8]),
    /// More than one terminal is named.
    #[error("more than one terminal")]
    Others,
    /// The version is asked for.
    #[error("the version is asked for")]
    Version,
    /// A growth of memory was refused.
    #[error("out of memory")]
    Memory,
}

impl From<AllocError> for WordsError<'_> {
    ghost from_gives = { λ _ error. error ≡ Memory };

    fn from(_error: AllocError) -> Self {
        WordsError::Memory
    }
}

// Whether a word is `-e`, `-i` or `-k` alone.
fn is_bare(word: &[u8]) -> bool
    ensures { result ≡ is_bare word.now }
{
    word == b"-e".as_slice() || word == b"-i".as_slice() || word == b"-k".as_slice()
}

// Whether a word begins with a dash.
fn has_dash(word: &[u8]) -> bool
    ensures { result ≡ has_dash word.now }
{
    match word.split_first() {
        Some((sign, _)) => *sign == b'-',
        None => false,
    }
}

// Whether no character comes after a word.
fn lacks_next(later: &[String]) -> bool
    ensures { result ≡ lacks_next (map string_bytes later.now) }
{
    match later.split_first() {
        Some((word, _)) => has_dash(word.as_str().as_bytes()),
        None => true,
    }
}

// Such a word with its usual character.
fn with_usual(word: &[u8]) -> &'static [u8]
    ensures { result.now ≡ with_usual word.now }
{
    if word == b"-e".as_slice() {
        return b"-e^H";
    }
    if word == b"-i".as_slice() {
        return b"-i^C";
    }
    b"-k^U"
}

// The word that stands for an older form.
fn modern<'a>(word: &'a [u8], later: &[String]) -> &'a [u8]
    ensures { result.now ≡ modern word.entry.now (map string_bytes later.now) }
{
    if word == b"-".as_slice() {
        return b"-q";
    }
    if is_bare(word) && lacks_next(later) {
        return with_usual(word);
    }
    word
}

// A character for the line, if it is one of ASCII.
fn in_ascii(byte: u8) -> Option<u8>
    ensures { result ≡ in_ascii byte }
{
    if byte < ASCII { Some(byte) } else { None }
}

// The control character after a caret.
fn control_of(byte: u8) -> u8
    ensures { result ≡ control_of byte }
{
    if byte == b'?' { DELETE } else { byte & 31 }
}

// The character that a text says.
fn character_in(text: &[u8]) -> Option<u8>
    ensures { result ≡ character_in text.now }
{
    match text {
        [] => Some(0),
        [b'^', next, ..] => Some(control_of(*next)),
        [byte, ..] => in_ascii(*byte),
    }
}

// Whether a letter takes a character.
fn is_character_letter(letter: u8) -> bool
    ensures { result ≡ is_character_letter letter }
{
    letter == b'e' || letter == b'i' || letter == b'k'
}

// The port that an option names.
fn port_of(letter: u8) -> Option<&'static [u8]>
    ensures { option_map (λ port. port.now) result ≡ port_of letter }
{
    match letter {
        b'a' => Some(b"arpanet"),
        b'd' => Some(b"dialup"),
        b'p' => Some(b"plugboard"),
        _ => None,
    }
}

// Whether a letter takes a mapping.
fn is_mapping_letter(letter: u8) -> bool
    ensures { result ≡ is_mapping_letter letter }
{
    letter == b'm' || port_of(letter).is_some()
}

// Whether a letter takes a value.
fn takes_value(letter: u8) -> bool
    ensures { result ≡ takes_value letter }
{
    is_character_letter(letter) || is_mapping_letter(letter)
}

impl<'a> Settings<'a> {
    // What no word asks for.
    fn unasked(alloc: Global) -> Settings<'a>
        ensures { settings_of result ≡ unasked }
    {
        Settings {
            modes: false,
            size: false,
            erase: None,
            interrupt: None,
            kill: None,
            no_strings: false,
            no_report: false,
            name_only: false,
            says_name: false,
            commands: false,
            termcap: false,
            mappings: Vec::new(alloc),
            terminal: None,
            others: false,
            next: Next::Word,
        }
    }

    // Takes an option without a value.
    fn take_flag(&mut self, letter: u8) -> Result<(), WordsError<'a>>
        ensures { Takes (with_flag (settings_of self.old) letter) self.new result }
    {
        match letter {
            b'c' => self.modes = true,
            b'w' => self.size = true,
            b'I' => self.no_strings = true,
            b'Q' => self.no_report = true,
            b'q' => self.name_only = true,
            b'r' => self.says_name = true,
            b's' => self.commands = true,
            b'S' => self.termcap = true,
            b'V' => return Err(WordsError::Version),
            _ => return Err(WordsError::Unknown(letter)),
        }
        Ok(())
    }

    // Takes a character.
    fn take_character(&mut self, letter: u8, character: Option<u8>)
        ensures { settings_of self.new ≡ with_character (settings_of self.old) letter character }
    {
        match letter {
            b'e' => self.erase = character,
            b'i' => self.interrupt = character,
            _ => self.kill = character,
        }
    }

    // Adds a mapping.
    fn push(&mut self, mapping: Mapping<'a>) -> Result<(), AllocError>
        ensures { OnOk result (settings_of self.new ≡ with_one (settings_of self.old) (mapping_of mapping.entry)) }
    {
        self.mappings.push(mapping)?;
        Ok(())
    }

    // Takes a mapping.
    fn take_mapping(&mut self, port: Option<&'a [u8]>, text: &'a [u8]) -> Result<(), WordsError<'a>>
        ensures { Takes (with_mapping (settings_of self.old) text.entry.now (mapping_in (option_map (λ p. p.now) port.entry) text.entry.now)) self.new result }
    {
        match Mapping::read(port, text) {
            Ok(mapping) => Ok(self.push(mapping)?),
            Err(MappingFault::BadForm) => Err(WordsError::BadMapping(text)),
            Err(MappingFault::UnknownRate(name)) => Err(WordsError::UnknownRate(name)),
        }
    }

    // Takes a letter with what it takes.
    fn take_value(&mut self, letter: u8, text: &'a [u8]) -> Result<(), WordsError<'a>>
        ensures { Takes (with_value (settings_of self.old) letter text.entry.now) self.new result }
    {
        if is_character_letter(letter) {
            self.take_character(letter, character_in(text));
            return Ok(());
        }
        self.take_mapping(port_of(letter), text)
    }

    // Takes a letter with the rest of its word.
    fn take_rest(&mut self, letter: u8, rest: &'a [u8]) -> Result<(), WordsError<'a>>
        ensures { Takes (with_rest (settings_of self.old) letter rest.entry.now) self.new result }
    {
        if rest.is_empty() {
            self.next = Next::Value(letter);
            return Ok(());
        }
        self.take_value(letter, rest)
    }

    // Takes the letters of a word.
    fn take_letters(&mut self, letters: &'a [u8]) -> Result<(), WordsError<'a>>
        ensures { Takes (with_letters (settings_of self.old) letters.entry.now) self.new result }
    {
        let mut rest = letters;
        while let Some((letter, more)) = rest.split_first() {
            if takes_value(*letter) {
                return self.take_rest(*letter, more);
            }
            self.take_flag(*letter)?;
            rest = more;
        }
        Ok(())
    }

    // Takes the name of a terminal.
    fn take_name(&mut self, name: &'a [u8])
        ensures { settings_of self.new ≡ with_name (settings_of self.old) name.entry.now }
    {
        if self.terminal.is_some() {
            self.others = true;
        } else {
            self.terminal = Some(name);
        }
    }

    // Takes a word by itself.
    fn take_plain(&mut self, word: &'a [u8]) -> Result<(), WordsError<'a>>
        ensures { Takes (with_plain (settings_of self.old) word.entry.now) self.new result }
    {
        match word.split_first() {
            Some((b'-', letters)) => {
                if letters == b"-".as_slice() {
                    self.next = Next::Name;
                    return Ok(());
                }
                self.take_letters(letters)
            }
            _ => {
                self.take_name(word);
                Ok(())
            }
        }
    }

    // Takes one word more.
    fn take(&mut self, word: &'a [u8]) -> Result<(), WordsError<'a>>
        ensures { Takes (with_word (settings_of self.old) word.entry.now) self.new result }
    {
        match self.next {
            Next::Word => self.take_plain(word),
            Next::Value(letter) => {
                self.next = Next::Word;
                self.take_value(letter, word)
            }
            Next::Name => {
                self.take_name(word);
                Ok(())
            }
        }
    }

    // Asks for both the modes and the size, if neither is asked for.
    fn ask_both(&mut self)
        ensures { settings_of self.new ≡ with_both (settings_of self.old) }
    {
        if !self.modes && !self.size {
            self.modes = true;
            self.size = true;
        }
    }

    // What is asked for after the last word.
    fn end(&mut self) -> Result<(), WordsError<'a>>
        ensures { Takes (ended (settings_of self.old) (settings_of self.old).next) self.new result }
    {
        if let Next::Value(letter) = self.next {
            return Err(WordsError::NoValue(letter));
        }
        if self.others {
            return Err(WordsError::Others);
        }
        self.ask_both();
        Ok(())
    }
}

/// What words ask for, up to the first that is refused.
///
/// # Errors
/// Why they ask for nothing; then `Memory`.
pub fn read_words(alloc: Global, words: &[String]) -> Result<Settings<'_>, WordsError<'_>>
    ensures { Asks (asked_by (map string_bytes words.now)) result }
{
    let mut settings = Settings::unasked(alloc);
    let mut rest = words;
    while let Some((word, later)) = rest.split_first() {
        settings.take(modern(word.as_str().as_bytes(), later))?;
        rest = later;
    }
    settings.end()?;
    Ok(settings)
}
