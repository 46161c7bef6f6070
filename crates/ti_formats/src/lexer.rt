//! A format as its tokens, up to the first that may not come where it is.
ghost use Rattle.std.specs.Prelude.{◌≡◌, ◌^◌, ◌<◌, [], ◌∷◌, Some, MatchOption, IfNone, length};
ghost use Rattle.ti_formats.specs.Left.{left_of};
ghost use Rattle.ti_formats.specs.Reading.{IsReadingOf};
ghost use Rattle.ti_formats.specs.inside.Formats.{front_of};

use crate::acceptor::Conditionals;
use crate::codes::{Placed, Token};
use crate::reader::read_code;
use std::marker::Model;

/// The tokens of a format that are left, up to the first `%` that begins no code which may come
/// there. Its calls take no memory.
#[derive(Drop)]
pub struct Lexer<'a> {
    // The length of the whole format.
    total: usize,
    rest: &'a [u8],
    phases: Conditionals,
}

impl<'a> Model for Lexer<'a> {
    ghost use Rattle.std.specs.Prelude.{◌-◌, ◌≤◌, length};
    ghost use Rattle.ti_formats.specs.Reading.{Unread};

    ghost Value = { Unread };

    ghost view = { λ lexer. record {
      place = lexer.total - length lexer.rest.now;
      text = lexer.rest.now;
      phases = lexer.phases;
    } };

    ghost invariant = { λ lexer. length lexer.rest.now ≤ lexer.total };
}

impl<'a> Lexer<'a> {
    /// The tokens of a format, from its start.
    pub fn new(format: &'a [u8]) -> Self
        ensures reading { IsReadingOf format.now (left_of result) }
        ensures bound { length (left_of result).tokens < 2 ^ 64 }
    {
        Lexer {
            total: format.len(),
            rest: format,
            phases: Conditionals::new(),
        }
    }

    /// Takes the next token; `None` at the end, and at a `%` that begins no code which may come
    /// there.
    #[inline(always)]
    pub fn next_token(&mut self) -> Option<Placed>
        ensures token { MatchOption result ((left_of self.old).tokens ≡ [])
            (λ found. (left_of self.old).tokens ≡ found ∷ (left_of self.new).tokens) }
        ensures stop { (left_of self.new).stop ≡ (left_of self.old).stop }
        ensures end { IfNone result (self.new ≡ self.old) }
    {
        let (&byte, after) = self.rest.split_first()?;
        if byte != b'%' {
            return self.take(Token::Literal(byte), after);
        }
        let (&letter, rest) = after.split_first()?;
        match letter {
            b'?' => self.take(Token::If, rest),
            b't' => self.take(Token::Then, rest),
            b'e' => self.take(Token::Else, rest),
            b';' => self.take(Token::EndIf, rest),
            _ => match read_code(after) {
                None => None,
                Some((code, rest)) => self.take(Token::Operation(code), rest),
            },
        }
    }

    // Takes the token at the front, before this rest; `None` if it may not come there.
    #[inline(always)]
    fn take(&mut self, token: Token, rest: &'a [u8]) -> Option<Placed>
        requires { front_of self.old.text ≡ Some (token, rest.now) }
        ensures token { MatchOption result ((left_of self.old).tokens ≡ [])
            (λ found. (left_of self.old).tokens ≡ found ∷ (left_of self.new).tokens) }
        ensures stop { (left_of self.new).stop ≡ (left_of self.old).stop }
        ensures end { IfNone result (self.new ≡ self.old) }
    {
        if !self.phases.advance(&token) {
            return None;
        }
        let place = self.total - self.rest.len();
        self.rest = rest;
        Some(Placed { place, token })
    }

    /// Takes all tokens that are left, and returns where the format is stuck, if it is. No token is
    /// left then, and where it is stuck is still known.
    #[inline(always)]
    pub fn end(&mut self) -> Option<usize>
        ensures place { result ≡ (left_of self.old).stop }
        ensures tokens { (left_of self.new).tokens ≡ [] }
        ensures stop { (left_of self.new).stop ≡ (left_of self.old).stop }
    {
        while self.next_token().is_some() {}
        self.stop()
    }

    // If no token is left, the place of the `%` that begins no code which may come there, or
    // `None` at the format's end.
    fn stop(&self) -> Option<usize>
        requires { (left_of self.now).tokens ≡ [] }
        ensures { result ≡ (left_of self.now).stop }
    {
        if self.rest.is_empty() {
            None
        } else {
            Some(self.total - self.rest.len())
        }
    }
}
