//! Calls of `ti_formats` and `ti_param`: parameter strings as their tokens, and what they send.
use test_rows::RowError::{Bad, Memory};
use test_rows::{NO_CALL, Row, RowResult};
use ti_formats::{Code, Lexer, Placed, Token, Variable, parameters};
use ti_param::{ParamError, Statics, Value, expand, expand_output};

fn letter_of(variable: Variable) -> u8 {
    let (first, letter) = match variable {
        Variable::Dynamic(letter) => (b'a', letter),
        Variable::Static(letter) => (b'A', letter),
    };
    first + letter.index() as u8
}

// The byte for a code: the digit of a parameter, the letter of a variable, `%`, or `-` for others.
fn byte_of_code(code: Code) -> u8 {
    match code {
        Code::Parameter(parameter) => b'1' + parameter.index() as u8,
        Code::Store(variable) | Code::Fetch(variable) => letter_of(variable),
        Code::Percent => b'%',
        _ => b'-',
    }
}

// The byte for a token: a literal byte, that of a code, or that of a conditional.
fn byte_of(token: Token) -> u8 {
    match token {
        Token::Literal(byte) => byte,
        Token::Operation(code) => byte_of_code(code),
        Token::If => b'?',
        Token::Then => b't',
        Token::Else => b'e',
        Token::EndIf => b';',
    }
}

// Where each token is, and its byte; then where the format is stuck, or `whole`.
fn say_tokens(row: &mut Row<'_>, format: &[u8]) -> RowResult {
    let mut lexer = Lexer::new(format);
    for _ in 0..format.len() {
        let Some(Placed { place, token }) = lexer.next_token() else {
            break;
        };
        row.show(&place)?;
        row.say(&[byte_of(token)])?;
    }
    if lexer.next_token().is_some() {
        return Err(Bad("there are more tokens than bytes"));
    }
    match lexer.end() {
        Some(place) => {
            row.say(b"stuck")?;
            row.show(&place)
        }
        None => row.say(b"whole"),
    }
}

// The greatest number of a format's `%p`, how many values it pops that it does not push, and the
// numbers of the parameters that are strings.
fn say_parameters(row: &mut Row<'_>) -> RowResult {
    let Some(found) = parameters(row.bytes(0)?) else {
        return row.say(b"none");
    };
    row.show(&found.named)?;
    row.show(&found.popped)?;
    for place in 0..9 {
        if found.strings[place] {
            row.show(&(place + 1))?;
        }
    }
    Ok(())
}

// Refuses a parameter that is neither a number nor a text after `=`.
fn check_parameters(row: &Row<'_>) -> RowResult {
    for at in 1..row.len() {
        if !row.bytes(at)?.starts_with(b"=") {
            row.signed(at)?;
        }
    }
    if row.len() > 10 {
        return Err(Bad("a format takes at most nine parameters"));
    }
    Ok(())
}

// A parameter: a number, or a text after `=`. One that is not given is 0.
fn parameter_of<'a>(row: &Row<'a>, at: usize) -> Value<'a> {
    match row.bytes(at) {
        Ok([b'=', text @ ..]) => Value::Text(text),
        _ => Value::Number(row.signed(at).unwrap_or(0)),
    }
}

// The parameters after the format.
fn parameters_of<'a>(row: &Row<'a>) -> [Value<'a>; 9] {
    [
        parameter_of(row, 1),
        parameter_of(row, 2),
        parameter_of(row, 3),
        parameter_of(row, 4),
        parameter_of(row, 5),
        parameter_of(row, 6),
        parameter_of(row, 7),
        parameter_of(row, 8),
        parameter_of(row, 9),
    ]
}

// The cause of an error, with its place.
fn say_cause(row: &mut Row<'_>, cause: ParamError) -> RowResult {
    match cause {
        ParamError::BadFormat(at) => row.fail(format!(in row.alloc; "BadFormat({at})")?.as_str()),
        ParamError::StackFull(at) => row.fail(format!(in row.alloc; "StackFull({at})")?.as_str()),
        ParamError::Memory => Err(Memory),
    }
}

fn say_expanded(row: &mut Row<'_>, statics: &mut Statics) -> RowResult {
    check_parameters(row)?;
    let params = parameters_of(row);
    match expand(row.alloc, row.bytes(0)?, &params, statics) {
        Ok(bytes) => row.say(&bytes),
        Err(cause) => say_cause(row, cause),
    }
}

// The same by the call that keeps short output without memory.
fn say_output(row: &mut Row<'_>) -> RowResult {
    check_parameters(row)?;
    let params = parameters_of(row);
    match expand_output(row.alloc, row.bytes(0)?, &params, &mut Statics::new()) {
        Ok(mut output) => row.say(output.bytes()?),
        Err(cause) => say_cause(row, cause),
    }
}

/// Makes a call of these libraries.
pub fn call(statics: &mut Statics, name: &str, row: &mut Row<'_>) -> RowResult {
    match name {
        "tokens" => say_tokens(row, row.bytes(0)?),
        "parameters" => say_parameters(row),
        "expand" => say_expanded(row, &mut Statics::new()),
        "expand_keeping" => say_expanded(row, statics),
        "expand_output" => say_output(row),
        _ => Err(NO_CALL),
    }
}
