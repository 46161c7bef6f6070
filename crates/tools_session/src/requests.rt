//! What a line of a session asks for, outside a block.
ghost use Rattle.std.specs.Prelude.{◌≡◌, ◌==◌, ◌<◌, length, position, IfSome, Some};
ghost use Rattle.ti_text.specs.Ascii as ascii;
ghost use Rattle.tools_session.specs.inside.Requests.{request_meaning};
ghost use Rattle.tools_session.specs.Script.{meaning_alone, meaning_outside, moves, script_number, meaning_with_number, two_numbers};

/// What is to be done with the block whose lines follow, and at which position.
#[derive(Clone, Copy)]
pub enum Opened {
    /// The block is to be put in.
    Insert {
        /// The position.
        at: usize,
    },
    /// The block is to replace another.
    Replace {
        /// The position.
        at: usize,
    },
}

/// What a line asks for.
#[derive(Clone, Copy)]
pub enum Request {
    /// Nothing: the line is empty.
    Nothing,
    /// To take the lines that follow as a block.
    Open(Opened),
    /// To take the block at `at` out.
    Remove {
        /// The position.
        at: usize,
    },
    /// To move the block at `from`, so that it is then at `to`.
    Relocate {
        /// The position.
        from: usize,
        /// The position that the block is to have.
        to: usize,
    },
    /// To print the entry of the block at `at`.
    Print {
        /// The position.
        at: usize,
    },
    /// To write the report.
    Report,
    /// To show which blocks the last accepted edit rebuilt.
    Rebuilt,
    /// The line is not a request.
    Unknown,
}

// The number that one to nine decimal digits spell.
fn script_number(text: &[u8]) -> Option<usize>
    ensures { result ≡ script_number text.now }
{
    if text.is_empty() || text.len() > 9 {
        return None;
    }
    let mut value = 0;
    for byte in text {
        if !byte.is_ascii_digit() {
            return None;
        }
        value = 10 * value + (*byte - b'0') as usize;
    }
    Some(value)
}

// The offset of the first space.
fn first_space(text: &[u8]) -> Option<usize>
    ensures offset { result ≡ position (λ byte. byte == ascii.space) text.now }
    ensures within { IfSome result (λ offset. offset < length text.now) }
{
    text.iter().position(|byte| *byte == b' ')
}

// The two numbers with one space between them that a text spells.
fn two_numbers(text: &[u8]) -> Option<(usize, usize)>
    ensures { result ≡ two_numbers text.now }
{
    let space = first_space(text)?;
    let from = script_number(&text[..space])?;
    let to = script_number(&text[space + 1..])?;
    Some((from, to))
}

// What the letter of a move asks for.
fn relocation(text: &[u8]) -> Request
    ensures { request_meaning result ≡ moves (two_numbers text.now) }
{
    if let Some((from, to)) = two_numbers(text) {
        Request::Relocate { from, to }
    } else {
        Request::Unknown
    }
}

// What a letter with a number asks for.
fn request_with_number(letter: u8, at: usize) -> Request
    ensures { request_meaning result ≡ meaning_with_number letter (Some at) }
{
    match letter {
        b'i' => Request::Open(Opened::Insert { at }),
        b'r' => Request::Open(Opened::Replace { at }),
        b'd' => Request::Remove { at },
        b'p' => Request::Print { at },
        _ => Request::Unknown,
    }
}

// What a letter alone asks for.
fn request_alone(letter: u8) -> Request
    ensures { request_meaning result ≡ meaning_alone letter }
{
    match letter {
        b'f' => Request::Report,
        b'w' => Request::Rebuilt,
        _ => Request::Unknown,
    }
}

/// What a line outside a block asks for.
pub fn read_request(line: &[u8]) -> Request
    ensures { request_meaning result ≡ meaning_outside line.now }
{
    let Some((letter, rest)) = line.split_first() else {
        return Request::Nothing;
    };
    let Some((space, digits)) = rest.split_first() else {
        return request_alone(*letter);
    };
    if *space != b' ' {
        return Request::Unknown;
    }
    if *letter == b'm' {
        return relocation(digits);
    }
    match script_number(digits) {
        Some(at) => request_with_number(*letter, at),
        None => Request::Unknown,
    }
}
