//! Mappings from a type of port to a type of terminal.
ghost use Rattle.std.specs.Prelude.{◌≡◌, ◌==◌, ◌<◌, ◌≤◌, IfSome, Ok, Some, not, length, map, option_map, position};
ghost use Rattle.std.specs.Option.{ForSome};
ghost use Rattle.everyday_tset.specs.Mappings.{Reads, after_port, after_signs, applies, ends_port, has, has_conflict, inverted};
ghost use Rattle.everyday_tset.specs.Mappings.{is_for, is_test_sign, mapped, mapping_cut, mapping_in, mapping_of, passes, port_named, rated};
ghost use Rattle.everyday_tset.specs.Mappings.{sign_count, test_of, test_taking, with_port};

use crate::rates::{code_named, without_b};
use thiserror::Error;

/// How the rate of the line has to be to that of a mapping.
#[derive(Clone, Copy, Debug, PartialEq, Eq)]
pub enum Test {
    /// It may be any.
    Any,
    /// It is greater.
    Above,
    /// It is no less.
    AtLeast,
    /// It is the same.
    Equal,
    /// It is no greater.
    AtMost,
    /// It is less.
    Below,
    /// No rate passes.
    Never,
}

/// A mapping from a type of port to a type of terminal.
#[derive(Clone, Copy, Debug, PartialEq, Eq)]
pub struct Mapping<'a> {
    /// The type of port; `None` for all of them.
    pub port: Option<&'a [u8]>,
    /// How the rate of the line has to be.
    pub test: Test,
    /// To which rate, by the system's code for it.
    pub rate: u32,
    /// The type of terminal.
    pub terminal: &'a [u8],
}

/// Why a text is no mapping.
#[derive(Clone, Copy, Debug, PartialEq, Eq, Error)]
pub enum MappingFault<'a> {
    /// It has not the form of one.
    #[error("bad form")]
    BadForm,
    /// No line has such a rate.
    #[error("unknown rate")]
    UnknownRate(&'a [u8]),
}

// Whether a sign is part of a test.
fn is_test_sign(sign: u8) -> bool
    ensures { result ≡ is_test_sign sign }
{
    sign == b'>' || sign == b'<' || sign == b'@' || sign == b'=' || sign == b'!'
}

// Whether a sign ends the type of the port.
fn ends_port(sign: u8) -> bool
    ensures { result ≡ ends_port sign }
{
    is_test_sign(sign) || sign == b':'
}

// Whether signs have this one.
fn has(signs: &[u8], sign: u8) -> bool
    ensures { result ≡ has signs.now sign }
{
    signs.iter().any(|s| *s == sign)
}

// Whether signs ask for what is above and for what is below.
fn has_conflict(signs: &[u8]) -> bool
    ensures { result ≡ has_conflict signs.now }
{
    has(signs, b'>') && has(signs, b'<')
}

// The test that takes these rates.
fn test_taking(above: bool, equal: bool, below: bool) -> Test
    ensures { result ≡ test_taking above equal below }
{
    match (above, equal, below) {
        (true, true, false) => Test::AtLeast,
        (true, false, false) => Test::Above,
        (false, true, true) => Test::AtMost,
        (false, true, false) => Test::Equal,
        (false, false, true) => Test::Below,
        _ => Test::Never,
    }
}

// The test that signs make.
fn test_of(signs: &[u8]) -> Test
    ensures { result ≡ test_of signs.now }
{
    if signs.is_empty() {
        return Test::Any;
    }
    let inverts = has(signs, b'!');
    let above = has(signs, b'>');
    let equal = has(signs, b'@') || has(signs, b'=');
    let below = has(signs, b'<');
    test_taking(inverts != above, inverts != equal, inverts != below)
}

impl Test {
    // Whether a rate passes with that of a mapping.
    fn passes(self, mapped: u32, rate: u32) -> bool
        ensures { result ≡ passes self mapped rate }
    {
        match self {
            Test::Any => true,
            Test::Above => mapped < rate,
            Test::AtLeast => mapped <= rate,
            Test::Equal => rate == mapped,
            Test::AtMost => rate <= mapped,
            Test::Below => rate < mapped,
            Test::Never => false,
        }
    }
}

// Where the type of the port ends.
fn port_end(text: &[u8]) -> Option<usize>
    ensures at { result ≡ position ends_port text.now }
    ensures within { IfSome result (λ at. at < length text.now) }
{
    text.iter().position(|s| ends_port(*s))
}

// Where the signs of a test end.
fn signs_end(text: &[u8]) -> Option<usize>
    ensures at { result ≡ position (λ s. not (is_test_sign s)) text.now }
    ensures within { IfSome result (λ at. at < length text.now) }
{
    text.iter().position(|s| !is_test_sign(*s))
}

// Where the colon is.
fn colon_at(text: &[u8]) -> Option<usize>
    ensures at { result ≡ position (λ s. s == 58) text.now }
    ensures within { IfSome result (λ at. at < length text.now) }
{
    text.iter().position(|s| *s == b':')
}

// What is left after a test, given where the colon is.
fn rated_to<'a>(
    port: Option<&'a [u8]>,
    test: Test,
    rest: &'a [u8],
    colon: usize,
) -> Result<Mapping<'a>, MappingFault<'a>>
    requires { colon < length rest.now }
    ensures { Reads (rated (option_map (λ p. p.now) port.entry) test rest.entry.now (Some colon)) result }
{
    if colon == 0 {
        return Err(MappingFault::BadForm);
    }
    let name = without_b(&rest[..colon]);
    match code_named(name) {
        Some(rate) => {
            let terminal = &rest[colon + 1..];
            Ok(Mapping {
                port,
                test,
                rate,
                terminal,
            })
        }
        None => Err(MappingFault::UnknownRate(name)),
    }
}

// What is left after a test.
fn rated<'a>(
    port: Option<&'a [u8]>,
    test: Test,
    rest: &'a [u8],
) -> Result<Mapping<'a>, MappingFault<'a>>
    ensures { Reads (rated (option_map (λ p. p.now) port.entry) test rest.entry.now (position (λ s. s == 58) rest.entry.now)) result }
{
    match colon_at(rest) {
        Some(colon) => rated_to(port, test, rest, colon),
        None => Err(MappingFault::BadForm),
    }
}

// The mapping of a port, with the signs of a test and what follows them.
fn after_signs<'a>(
    port: Option<&'a [u8]>,
    signs: &[u8],
    rest: &'a [u8],
) -> Result<Mapping<'a>, MappingFault<'a>>
    ensures { Reads (after_signs (option_map (λ p. p.now) port.entry) signs.now rest.entry.now) result }
{
    if signs.is_empty() {
        let terminal = rest.get(1..).unwrap_or(b"");
        return Ok(Mapping {
            port,
            test: Test::Any,
            rate: 0,
            terminal,
        });
    }
    if has_conflict(signs) {
        return Err(MappingFault::BadForm);
    }
    rated(port, test_of(signs), rest)
}

// How many signs of a test are at the front.
fn sign_count(text: &[u8]) -> usize
    ensures count { result ≡ sign_count text.now }
    ensures within { result ≤ length text.now }
{
    match signs_end(text) {
        Some(at) => at,
        None => text.len(),
    }
}

// The type of port before the signs, for all of them if there is none.
fn port_named(text: &[u8]) -> Option<&[u8]>
    ensures { option_map (λ p. p.now) result ≡ port_named text.now }
{
    if text.is_empty() { None } else { Some(text) }
}

// The mapping of a type of port, with what follows it.
fn after_port<'a>(port: &'a [u8], after: &'a [u8]) -> Result<Mapping<'a>, MappingFault<'a>>
    ensures { Reads (after_port port.entry.now after.entry.now) result }
{
    let count = sign_count(after);
    after_signs(port_named(port), &after[..count], &after[count..])
}

// The mapping that a text is, given where the type of port ends.
fn mapping_cut(text: &[u8], at: Option<usize>) -> Result<Mapping<'_>, MappingFault<'_>>
    requires { ForSome at (λ n. n ≤ length text.now) }
    ensures { Reads (mapping_cut text.now at) result }
{
    match at {
        Some(at) => after_port(&text[..at], &text[at..]),
        None => Ok(Mapping {
            port: None,
            test: Test::Any,
            rate: 0,
            terminal: text,
        }),
    }
}

// A mapping for the port that its option names, if the option names one.
fn with_port<'a>(
    port: Option<&'a [u8]>,
    mapping: Mapping<'a>,
) -> Result<Mapping<'a>, MappingFault<'a>>
    ensures { Reads (with_port (option_map (λ p. p.now) port.entry) (Ok (mapping_of mapping.entry))) result }
{
    if port.is_none() {
        return Ok(mapping);
    }
    if mapping.port.is_some() {
        return Err(MappingFault::BadForm);
    }
    Ok(Mapping { port, ..mapping })
}

impl<'a> Mapping<'a> {
    /// The mapping that the text of an option is, given the type of port that the option names.
    ///
    /// # Errors
    /// `UnknownRate` if no line has the rate; else `BadForm`.
    pub fn read(port: Option<&'a [u8]>, text: &'a [u8]) -> Result<Mapping<'a>, MappingFault<'a>>
        ensures { Reads (mapping_in (option_map (λ p. p.now) port.entry) text.entry.now) result }
    {
        with_port(port, mapping_cut(text, port_end(text))?)
    }

    // Whether the mapping is for this type of port.
    fn is_for(&self, name: &[u8]) -> bool
        ensures { result ≡ is_for (option_map (λ p. p.now) self.now.port) name.now }
    {
        match self.port {
            Some(port) => port == name,
            None => true,
        }
    }

    // Whether the mapping applies to a type at a rate.
    fn applies(&self, name: &[u8], rate: u32) -> bool
        ensures { result ≡ applies (mapping_of self.now) name.now rate }
    {
        self.is_for(name) && self.test.passes(self.rate, rate)
    }
}

/// The type of terminal for a type, at the rate of this code, by the first mapping that applies.
pub fn mapped<'a>(mappings: &[Mapping<'a>], name: &'a [u8], rate: u32) -> &'a [u8]
    ensures { result.now ≡ mapped (map mapping_of mappings.now) name.entry.now rate }
{
    for mapping in mappings {
        if mapping.applies(name, rate) {
            return mapping.terminal;
        }
    }
    name
}
