//! The line to the terminal of `ti-tset` and `ti-reset`: what is linked to the program in C reads and
//! sets its modes (window/modes.c), and tells and takes numbers of 32 bits.
ghost use Rattle.std.specs.Prelude.{◌<◌};

use crate::environment::Variables;
use crate::stopping::Stop;
use everyday_tset::{Modes, Window};
use std::alloc::{AllocError, Global};
use std::fs;
use std::io::{self, Read};
use std::rt::Files;

// What is asked for: new modes.
const NEW_MODES: u32 = 1;

// What is asked for: another size of the window.
const NEW_WINDOW: u32 = 2;

/// What is known of the line to the terminal.
pub enum LineFound {
    /// Nothing: the program is without its part in C.
    Nothing,
    /// That there is no terminal, and the number of the system's error.
    NoTerminal(u32),
    /// The line.
    Line(Line),
}

/// The line to the terminal, as it was found.
#[derive(Clone, Copy)]
pub struct Line {
    /// The system's code for its rate.
    pub rate: u32,
    /// The size of its window.
    pub window: Window,
    /// Its modes.
    pub modes: Modes,
    asked: u32,
    answered: u32,
}

impl LineFound {
    /// What is known of the line.
    ///
    /// # Errors
    /// Out of memory.
    pub fn read<R: Files + Input + AllocGlobal>(
        rt: &R,
        variables: &Variables,
    ) -> Result<LineFound, Stop> {
        let Some(path) = variables.line() else {
            return Ok(LineFound::Nothing);
        };
        match fs::read(rt, path) {
            Ok(told) => Ok(found(told.as_slice())),
            Err(error) if error.kind() == io::ErrorKind::OutOfMemory => Err(Stop::memory()),
            Err(_) => Ok(LineFound::Nothing),
        }
    }
}

// What numbers tell.
fn found(told: &[u8]) -> LineFound {
    if number(told, 0) == 0 {
        return LineFound::NoTerminal(number(told, 1));
    }
    LineFound::Line(Line {
        rate: number(told, 2),
        window: Window {
            lines: number(told, 3),
            columns: number(told, 4),
        },
        modes: modes(told),
        asked: number(told, 21),
        answered: number(told, 22),
    })
}

// The modes that numbers tell.
fn modes(told: &[u8]) -> Modes {
    Modes {
        input: number(told, 5),
        output: number(told, 6),
        control: number(told, 7),
        local: number(told, 8),
        interrupt: character(told, 9),
        quit: character(told, 10),
        erase: character(told, 11),
        kill: character(told, 12),
        end_of_file: character(told, 13),
        start: character(told, 14),
        stop: character(told, 15),
        suspend: character(told, 16),
        reprint: character(told, 17),
        discard: character(told, 18),
        word_erase: character(told, 19),
        literal: character(told, 20),
    }
}

// The bytes of a number.
fn bytes_at(told: &[u8], at: usize) -> [u8; 4]
    requires { at < 64 }
{
    match told.get(at * 4..) {
        Some([first, second, third, fourth, ..]) => [*first, *second, *third, *fourth],
        _ => [0; 4],
    }
}

// A number; 0 if it is not told.
fn number(told: &[u8], at: usize) -> u32
    requires { at < 64 }
{
    u32::from_le_bytes(bytes_at(told, at))
}

// A character.
fn character(told: &[u8], at: usize) -> u8
    requires { at < 64 }
{
    bytes_at(told, at)[0]
}

// Adds numbers.
fn push_numbers(text: &mut Vec<u8>, numbers: &[u32]) -> Result<(), AllocError> {
    for number in numbers {
        text.extend_from_slice(&number.to_le_bytes())?;
    }
    Ok(())
}

// Adds flags.
fn push_flags(text: &mut Vec<u8>, modes: &Modes) -> Result<(), AllocError> {
    push_numbers(
        text,
        &[modes.input, modes.output, modes.control, modes.local],
    )
}

// Adds characters.
fn push_characters(text: &mut Vec<u8>, characters: &[u8]) -> Result<(), AllocError> {
    for character in characters {
        push_numbers(text, &[u32::from(*character)])?;
    }
    Ok(())
}

// Adds modes.
fn push_modes(text: &mut Vec<u8>, m: &Modes) -> Result<(), AllocError> {
    push_flags(text, m)?;
    push_characters(text, &[m.interrupt, m.quit, m.erase, m.kill])?;
    push_characters(text, &[m.end_of_file, m.start, m.stop, m.suspend])?;
    push_characters(text, &[m.reprint, m.discard, m.word_erase, m.literal])
}

// What is asked for, as numbers.
fn request(
    alloc: Global,
    what: u32,
    window: &Window,
    modes: &Modes,
) -> Result<Vec<u8>, AllocError> {
    let mut text = Vec::new(alloc);
    push_numbers(&mut text, &[what, window.lines, window.columns])?;
    push_modes(&mut text, modes)?;
    Ok(text)
}

impl Line {
    // Asks for something, and waits until it is done.
    fn ask<R: Files + AllocGlobal>(&self, rt: &R, text: &[u8]) -> Result<(), AllocError> {
        let asked = self.asked;
        let answered = self.answered;
        let asked = format!(in rt.alloc(); "/proc/self/fd/{asked}")?;
        let answered = format!(in rt.alloc(); "/proc/self/fd/{answered}")?;
        if fs::write(rt, asked.as_str(), text).is_err() {
            return Ok(());
        }
        if let Ok(mut pipe) = fs::open(rt, answered.as_str()) {
            let _ = pipe.read(&mut [0]);
        }
        Ok(())
    }

    /// Gives the line other modes.
    ///
    /// # Errors
    /// Out of memory.
    pub fn set_modes<R: Files + AllocGlobal>(&self, rt: &R, modes: &Modes) -> Result<(), Stop> {
        let text = request(rt.alloc(), NEW_MODES, &self.window, modes)?;
        Ok(self.ask(rt, text.as_slice())?)
    }

    /// Gives the window another size.
    ///
    /// # Errors
    /// Out of memory.
    pub fn set_window<R: Files + AllocGlobal>(&self, rt: &R, window: &Window) -> Result<(), Stop> {
        let text = request(rt.alloc(), NEW_WINDOW, window, &self.modes)?;
        Ok(self.ask(rt, text.as_slice())?)
    }
}
