//! The modes of the line to a terminal.
ghost use Rattle.std.specs.Prelude.{◌≡◌, ◌-◌, ◌≤◌};
ghost use Rattle.ti_layout.specs.View.{Entry, entry_seen};
ghost use Rattle.everyday_starting.specs.Modes.{erase_of, newline_of};
ghost use Rattle.everyday_tset.specs.Modes.{all_flags, changed, given_or, modes_for, or_usual, sane, while_sending, with_characters, with_conversions};
ghost use Rattle.everyday_tset.specs.Settings.{settings_of};

use crate::settings::Settings;
use everyday_starting::modes_asked;
use ti_layout::View;

/// The modes of a line, as termios(3) has them: the flags of the input, the output, the control of the
/// line and the editing of lines, and the characters, of which 0 is undefined.
#[derive(Clone, Copy, Debug, PartialEq, Eq)]
pub struct Modes {
    /// `c_iflag`.
    pub input: u32,
    /// `c_oflag`.
    pub output: u32,
    /// `c_cflag`.
    pub control: u32,
    /// `c_lflag`.
    pub local: u32,
    /// `VINTR`.
    pub interrupt: u8,
    /// `VQUIT`.
    pub quit: u8,
    /// `VERASE`.
    pub erase: u8,
    /// `VKILL`.
    pub kill: u8,
    /// `VEOF`.
    pub end_of_file: u8,
    /// `VSTART`.
    pub start: u8,
    /// `VSTOP`.
    pub stop: u8,
    /// `VSUSP`.
    pub suspend: u8,
    /// `VREPRINT`.
    pub reprint: u8,
    /// `VDISCARD`.
    pub discard: u8,
    /// `VWERASE`.
    pub word_erase: u8,
    /// `VLNEXT`.
    pub literal: u8,
}

// IGNBRK, PARMRK, INPCK, ISTRIP, INLCR, IGNCR, IUCLC, IXANY and IXOFF.
const INPUT_OFF: u32 = 0x1af9;

// BRKINT, IGNPAR, ICRNL, IXON and IMAXBEL.
const INPUT_ON: u32 = 0x2506;

// OLCUC, OCRNL, ONOCR, ONLRET, OFILL, OFDEL and the delays.
const OUTPUT_OFF: u32 = 0xfffa;

// OPOST and ONLCR.
const OUTPUT_ON: u32 = 0x5;

// CSIZE, CSTOPB, PARENB, PARODD and CLOCAL.
const CONTROL_OFF: u32 = 0xb70;

// CS8 and CREAD.
const CONTROL_ON: u32 = 0xb0;

// ECHONL, NOFLSH, TOSTOP and XCASE.
const LOCAL_OFF: u32 = 0x1c4;

// ISIG, ICANON, ECHO, ECHOE, ECHOK, ECHOCTL and ECHOKE.
const LOCAL_ON: u32 = 0xa3b;

// ECHO, ECHOE and ECHOK.
const ECHO: u32 = 0x38;

// A return is read as a newline.
const ICRNL: u32 = 0x100;

// A return is written before a newline.
const ONLCR: u32 = 0x4;

// TAB3, ONLCR, OCRNL and ONLRET.
const CONVERSIONS: u32 = 0x182c;

// The usual character that erases.
const ERASE: u8 = 127;

// The usual character that interrupts.
const INTERRUPT: u8 = 3;

// The usual character that kills the line.
const KILL: u8 = 21;

// Flags without some, and with others.
fn changed(flags: u32, off: u32, on: u32) -> u32
    ensures { result ≡ changed flags off on }
{
    (flags & (u32::MAX - off)) | on
}

// A character, or the usual one if it is undefined.
fn or_usual(character: u8, usual: u8) -> u8
    ensures { result ≡ or_usual character usual }
{
    if character == 0 { usual } else { character }
}

// The character that is given, else the one that the line has or the usual one.
fn given_or(given: Option<u8>, usual: u8, old: u8) -> u8
    ensures { result ≡ given_or given usual old }
{
    match given {
        Some(character) => character,
        None => or_usual(old, usual),
    }
}

// What the newline of a terminal is, and the usual character that erases, as `init` of tput(1) has them.
fn asked(view: &View<'_>) -> (u8, u8)
    ensures newline { result.0 ≡ newline_of (entry_seen view.now) }
    ensures erase { result.1 ≡ erase_of (entry_seen view.now) }
{
    match modes_asked(view, &[b"init".as_slice()]) {
        Some(modes) => (modes[1], modes[2]),
        None => (b'-', ERASE),
    }
}

impl Modes {
    /// Sane modes: lines are edited and echoed, returns and newlines converted, and no character is
    /// undefined.
    pub fn sane(&self) -> Modes
        ensures { result ≡ sane self.now }
    {
        Modes {
            input: changed(self.input, INPUT_OFF, INPUT_ON),
            output: changed(self.output, OUTPUT_OFF, OUTPUT_ON),
            control: changed(self.control, CONTROL_OFF, CONTROL_ON),
            local: changed(self.local, LOCAL_OFF, LOCAL_ON),
            interrupt: or_usual(self.interrupt, INTERRUPT),
            quit: or_usual(self.quit, 28),
            erase: or_usual(self.erase, ERASE),
            kill: or_usual(self.kill, KILL),
            end_of_file: or_usual(self.end_of_file, 4),
            start: or_usual(self.start, 17),
            stop: or_usual(self.stop, 19),
            suspend: or_usual(self.suspend, 26),
            reprint: or_usual(self.reprint, 18),
            discard: or_usual(self.discard, 15),
            word_erase: or_usual(self.word_erase, 23),
            literal: or_usual(self.literal, 22),
        }
    }

    // The modes with the characters that words give, or else the usual ones for those that are undefined.
    fn with_characters(&self, erase: u8, settings: &Settings<'_>) -> Modes
        ensures { (entry : Entry) → erase ≡ erase_of entry → result ≡ with_characters entry (settings_of settings.now) self.now }
    {
        Modes {
            erase: given_or(settings.erase, erase, self.erase),
            interrupt: given_or(settings.interrupt, INTERRUPT, self.interrupt),
            kill: given_or(settings.kill, KILL, self.kill),
            ..*self
        }
    }

    // The modes with the conversions for the newline of a terminal.
    fn with_conversions(&self, newline: u8) -> Modes
        ensures { result ≡ with_conversions newline self.now }
    {
        let local = changed(self.local, 0, ECHO);
        if newline == b'f' {
            let input = changed(self.input, ICRNL, 0);
            let output = changed(self.output, ONLCR, 0);
            return Modes {
                input,
                output,
                local,
                ..*self
            };
        }
        let input = changed(self.input, 0, ICRNL);
        let output = changed(self.output, 0, ONLCR);
        Modes {
            input,
            output,
            local,
            ..*self
        }
    }

    /// The modes for a terminal: the characters that words give, or else the usual ones for those that
    /// are undefined; and the conversions of returns and newlines.
    pub fn for_terminal(&self, view: &View<'_>, settings: &Settings<'_>) -> Modes
        ensures { result ≡ modes_for (entry_seen view.now) (settings_of settings.now) self.now }
    {
        let (newline, erase) = asked(view);
        self.with_characters(erase, settings)
            .with_conversions(newline)
    }

    /// The modes that are set while strings are sent, if the line has conversions: of what is done to
    /// output only these stay.
    pub fn while_sending(&self) -> Option<Modes>
        ensures { result ≡ while_sending self.now }
    {
        let kept = self.output & CONVERSIONS;
        if kept == 0 {
            return None;
        }
        Some(Modes {
            output: kept,
            ..*self
        })
    }
}
