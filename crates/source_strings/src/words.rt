//! What a code of a format does, in words.
ghost use Rattle.std.specs.Prelude.{◌≡◌, ◌+◌, ◌++◌, IfOk, OnOk};
ghost use Rattle.std.specs.Fmt.{decimal, signed_decimal};
ghost use Rattle.std.specs.String.{string_bytes};
ghost use Rattle.source_strings.specs.Words as spec;

use std::alloc::{AllocError, Global};
use ti_formats::{Code, Operator, ParameterIndex, Token, Variable};
use ti_printing::printf::{Conversion, Directive, Flags};

// What an operator does.
fn operator_words(operator: Operator) -> &'static str
    ensures { result.now ≡ spec.operator_words operator }
{
    match operator {
        Operator::Add => "pop y, pop x, push x + y",
        Operator::Subtract => "pop y, pop x, push x - y",
        Operator::Multiply => "pop y, pop x, push x * y",
        Operator::Divide => "pop y, pop x, push x / y without its fraction",
        Operator::Remainder => "pop y, pop x, push the remainder of x / y",
        Operator::BitAnd => "pop y, pop x, push the bits that are set in both",
        Operator::BitOr => "pop y, pop x, push the bits that are set in one or both",
        Operator::BitXor => "pop y, pop x, push the bits that are set in one alone",
        Operator::Equal => "pop y, pop x, push 1 if x = y, else 0",
        Operator::Greater => "pop y, pop x, push 1 if x > y, else 0",
        Operator::Less => "pop y, pop x, push 1 if x < y, else 0",
        Operator::And => "pop y, pop x, push 1 if neither is 0, else 0",
        Operator::Or => "pop y, pop x, push 0 if both are 0, else 1",
    }
}

// What a conversion writes.
fn conversion_words(conversion: Conversion) -> &'static str
    ensures { result.now ≡ spec.conversion_words conversion }
{
    match conversion {
        Conversion::Decimal => "pop a number, write it in decimal",
        Conversion::Octal => "pop a number, write it in octal",
        Conversion::LowerHex => "pop a number, write it in hexadecimal",
        Conversion::UpperHex => "pop a number, write it in hexadecimal with capitals",
        Conversion::Text => "pop a string, write it",
    }
}

// Adds words if they apply.
#[tactic(auto, unfolding(crate::specs::Words::words_if))]
fn push_if(text: &mut String, applies: bool, words: &str) -> Result<(), AllocError>
    ensures { OnOk result (string_bytes text.new ≡ string_bytes text.old ++ spec.words_if applies words.now) }
{
    if applies {
        text.push_str(words)?;
    }
    Ok(())
}

// Adds what a width asks for.
#[tactic(auto, unfolding(crate::specs::Words::width_words))]
fn push_width(alloc: Global, text: &mut String, width: u16) -> Result<(), AllocError>
    ensures { OnOk result (string_bytes text.new ≡ string_bytes text.old ++ spec.width_words width) }
{
    if width == 0 {
        return Ok(());
    }
    let words = format!(in alloc; ", at least {width} wide")?;
    text.push_str(words.as_str())
}

// What a precision of that count asks for.
fn counted_words(alloc: Global, conversion: Conversion, count: u16) -> Result<String, AllocError>
    ensures { IfOk result (λ words. string_bytes words ≡ spec.counted_words conversion count) }
{
    match conversion {
        Conversion::Text => format!(in alloc; ", at most {count} bytes of it"),
        Conversion::Decimal | Conversion::Octal | Conversion::LowerHex | Conversion::UpperHex =>
            format!(in alloc; ", at least {count} digits"),
    }
}

// Adds what a precision asks for.
#[tactic(auto, unfolding(crate::specs::Words::precision_words))]
fn push_precision(
    alloc: Global,
    text: &mut String,
    conversion: Conversion,
    precision: Option<u16>,
) -> Result<(), AllocError>
    ensures { OnOk result (string_bytes text.new ≡ string_bytes text.old ++ spec.precision_words conversion precision) }
{
    let Some(count) = precision else {
        return Ok(());
    };
    let words = counted_words(alloc, conversion, count)?;
    text.push_str(words.as_str())
}

// Adds what the flags ask for that show a number's sign or base.
fn push_signs(text: &mut String, flags: Flags) -> Result<(), AllocError>
    ensures { OnOk result (string_bytes text.new ≡ string_bytes text.old ++ spec.signs_words flags) }
{
    push_if(text, flags.sign, ", with a + if it is not negative")?;
    push_if(text, flags.space, ", with a blank if it is not negative")?;
    push_if(text, flags.alternate, ", with the mark of its base")
}

// Adds what flags ask for.
fn push_flags(text: &mut String, flags: Flags) -> Result<(), AllocError>
    ensures { OnOk result (string_bytes text.new ≡ string_bytes text.old ++ spec.flags_words flags) }
{
    push_if(text, flags.left, ", blanks after it")?;
    push_if(text, flags.zero, ", zeros before it")?;
    push_signs(text, flags)
}

// Adds what a printf form writes.
fn push_form(alloc: Global, text: &mut String, form: Directive) -> Result<(), AllocError>
    ensures { OnOk result (string_bytes text.new ≡ string_bytes text.old ++ spec.form_words form) }
{
    text.push_str(conversion_words(form.conversion))?;
    push_width(alloc, text, form.width)?;
    push_precision(alloc, text, form.conversion, form.precision)?;
    push_flags(text, form.flags)
}

// What a variable is set to.
fn store_words(variable: Variable) -> &'static str
    ensures { result.now ≡ spec.store_words variable }
{
    match variable {
        Variable::Dynamic(_) => "pop a value, keep it in this variable up to the end",
        Variable::Static(_) => "pop a value, keep it in this variable for later strings too",
    }
}

// What a code by itself does, up to its number or what its form writes.
fn lead_words(code: &Code) -> &'static str
    ensures { result.now ≡ spec.lead_words code.now }
{
    match code {
        Code::Percent => "write a %",
        Code::Character => "pop a number, write the character with this code",
        Code::Print(_) => "",
        Code::Parameter(_) => "push parameter ",
        Code::Store(variable) => store_words(*variable),
        Code::Fetch(_) => "push this variable",
        Code::Constant(_) => "push ",
        Code::Length => "pop a string, push how many bytes it has",
        Code::Binary(operator) => operator_words(*operator),
        Code::Not => "pop x, push 1 if x is 0, else 0",
        Code::Complement => "pop x, push x with each bit inverted",
        Code::Increment => "add 1 to parameters 1 and 2",
    }
}

// Adds the number of a parameter.
fn push_number(alloc: Global, text: &mut String, index: ParameterIndex) -> Result<(), AllocError>
    ensures { OnOk result (string_bytes text.new ≡ string_bytes text.old ++ decimal (index + 1)) }
{
    let number = index.index() + 1;
    let digits = format!(in alloc; "{number}")?;
    text.push_str(digits.as_str())
}

// Adds a number that is pushed.
fn push_constant(alloc: Global, text: &mut String, number: i32) -> Result<(), AllocError>
    ensures { OnOk result (string_bytes text.new ≡ string_bytes text.old ++ signed_decimal number) }
{
    let digits = format!(in alloc; "{number}")?;
    text.push_str(digits.as_str())
}

// Adds the number of a code by itself, or what its form writes.
fn push_rest(alloc: Global, text: &mut String, code: &Code) -> Result<(), AllocError>
    ensures { OnOk result (string_bytes text.new ≡ string_bytes text.old ++ spec.rest_words code.now) }
{
    match code {
        Code::Print(form) => push_form(alloc, text, *form),
        Code::Parameter(index) => push_number(alloc, text, *index),
        Code::Constant(number) => push_constant(alloc, text, *number),
        Code::Percent
        | Code::Character
        | Code::Store(_)
        | Code::Fetch(_)
        | Code::Length
        | Code::Binary(_)
        | Code::Not
        | Code::Complement
        | Code::Increment => Ok(()),
    }
}

// What a code by itself does.
fn code_words(alloc: Global, code: &Code) -> Result<String, AllocError>
    ensures { IfOk result (λ words. string_bytes words ≡ spec.code_words code.now) }
{
    let mut words = String::from_str(alloc, lead_words(code))?;
    push_rest(alloc, &mut words, code)?;
    Ok(words)
}

/// What a token of a format does, in words: terminfo(5), "Parameterized Strings".
///
/// # Errors
/// Out of memory.
pub fn words_of(alloc: Global, token: &Token) -> Result<String, AllocError>
    ensures { IfOk result (λ words. string_bytes words ≡ spec.words_of token.now) }
{
    match token {
        Token::Literal(_) => String::from_str(alloc, "write this as it is"),
        Token::Operation(code) => code_words(alloc, code),
        Token::If => String::from_str(alloc, "begin a conditional, whose test follows"),
        Token::Then => {
            String::from_str(alloc, "pop a number: what follows is done if it is not 0")
        }
        Token::Else => String::from_str(alloc, "what follows is done, or tested, if it is 0"),
        Token::EndIf => String::from_str(alloc, "end the conditional"),
    }
}
