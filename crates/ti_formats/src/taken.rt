//! Which parameters a format takes.
ghost use Rattle.std.specs.Prelude.{◌≡◌, ◌+◌, ◌-◌, ◌^◌, ◌<◌, ◌≤◌, ◌∷◌, ◌||◌, ◌&&◌, ◌==◌, if◌then◌else◌, suc, ℕ, List, ◌↔◌, false, IfSome, None, length, max, min, slice_index_or};
ghost use Rattle.ti_text.specs.Limits.{parameters_max};
ghost use Rattle.ti_formats.specs.declared.codes.Placed.{Placed};
ghost use Rattle.ti_formats.specs.Formats.{IsStuck, placed_token};
ghost use Rattle.ti_formats.specs.Left.{left_of};
ghost use Rattle.ti_formats.specs.Parameters.{TakesParameters, number_named, takes_string, is_plain, popped_by, pushed_by, named_in, is_string_in, popped_in};
ghost use Rattle.ti_formats.specs.inside.Parameters.{named_with, string_with, popped_with};

use crate::codes::{Code, Placed, Token};
use crate::lexer::Lexer;
use ti_printing::printf::Conversion;
use ti_text::limits::PARAMETERS_MAX;

/// The parameters that a format takes.
#[derive(Clone, Copy)]
pub struct TakenParameters {
    /// The greatest number of a `%p1` to `%p9`; 0 if there is none.
    pub named: usize,
    /// For each parameter, whether it is a string: a `%s` or `%l` comes after its `%p`, and only bytes
    /// are written between them.
    pub strings: [bool; PARAMETERS_MAX],
    /// How many values, at most nine, the codes pop that no code pushed, if all parts are run in
    /// order. A format of termcap has no `%p`, and takes its parameters in this way.
    pub popped: usize,
}

/// The parameters that a format takes; `None` if it is stuck. Takes no memory.
pub fn parameters(format: &[u8]) -> Option<TakenParameters>
    ensures some { IfSome result (λ found. TakesParameters format.now found) }
    ensures none { result ≡ None ↔ ((place : ℕ) × IsStuck format.now place) }
{
    let mut lexer = Lexer::new(format);
    let mut found = Found::new();
    found.add_all(&mut lexer);
    match lexer.end() {
        Some(_) => None,
        None => Some(found.parameters()),
    }
}

// What is found by the tokens so far.
#[derive(Drop)]
pub(crate) struct Found {
    named: usize,
    strings: [bool; PARAMETERS_MAX],
    popped: usize,
    // The number of the parameter that was pushed last, if since then only bytes were written; else 0.
    last: usize,
    // How many values the tokens have left on the stack.
    height: usize,
}

impl Found {
    // Before any token.
    fn new() -> Self
        ensures named { (tokens : List Placed) → named_with result tokens ≡ named_in tokens }
        ensures strings { (i : ℕ) (tokens : List Placed) → string_with result i tokens ≡ is_string_in i tokens }
        ensures popped { (tokens : List Placed) → popped_with result tokens ≡ min (popped_in tokens) parameters_max }
        ensures height { result.height ≡ 0 }
        ensures last { result.last ≡ 0 }
        ensures few { result.popped ≡ 0 }
    {
        Found {
            named: 0,
            strings: [false; PARAMETERS_MAX],
            popped: 0,
            last: 0,
            height: 0,
        }
    }

    // After the last token.
    fn parameters(&self) -> TakenParameters
        ensures named { result.named ≡ self.now.named }
        ensures strings { result.strings ≡ self.now.strings }
        ensures popped { result.popped ≡ self.now.popped }
    {
        TakenParameters {
            named: self.named,
            strings: self.strings,
            popped: self.popped,
        }
    }

    // Adds all tokens that are left.
    fn add_all(&mut self, lexer: &mut Lexer<'_>)
        requires height { self.old.height + length (left_of lexer.old).tokens < 2 ^ 64 }
        requires last { self.old.last ≤ parameters_max }
        requires few { self.old.popped ≤ parameters_max }
        ensures named { self.new.named ≡ named_with self.old (left_of lexer.old).tokens }
        ensures strings { (i : ℕ) → i < parameters_max → slice_index_or self.new.strings i false ≡ string_with self.old i (left_of lexer.old).tokens }
        ensures popped { self.new.popped ≡ popped_with self.old (left_of lexer.old).tokens }
        ensures stop { (left_of lexer.new).stop ≡ (left_of lexer.old).stop }
    {
        while let Some(Placed { token, .. }) = lexer.next_token() {
            self.add(&token);
        }
    }

    // Adds a token.
    fn add(&mut self, token: &Token)
        requires height { self.old.height + 1 < 2 ^ 64 }
        requires last { self.old.last ≤ parameters_max }
        ensures named { (place : ℕ) (tokens : List Placed) → named_with self.new tokens ≡ named_with self.old (placed_token place token.now ∷ tokens) }
        ensures strings { (i place : ℕ) (tokens : List Placed) → i < parameters_max → string_with self.new i tokens ≡ string_with self.old i (placed_token place token.now ∷ tokens) }
        ensures popped { (place : ℕ) (tokens : List Placed) → popped_with self.new tokens ≡ popped_with self.old (placed_token place token.now ∷ tokens) }
        ensures height { self.new.height ≤ self.old.height + 1 }
        ensures last { self.new.last ≤ parameters_max }
        ensures few { self.new.popped ≤ parameters_max }
    {
        let last = last_after(self.last, token);
        self.add_string(token);
        self.named = self.named.max(number_named(token));
        self.last = last;
        let popped = popped_by(token);
        let more = popped.saturating_sub(self.height);
        self.popped = self.popped.saturating_add(more).min(PARAMETERS_MAX);
        self.height = self.height.saturating_sub(popped) + pushed_by(token);
    }

    // Marks the parameter that was pushed last as a string, if the token takes one.
    fn add_string(&mut self, token: &Token)
        requires { self.old.last ≤ parameters_max }
        ensures strings { (i : ℕ) → i < parameters_max → slice_index_or self.new.strings i false ≡ (slice_index_or self.old.strings i false || (self.old.last == suc i && takes_string token.now)) }
        ensures others { self.new ≡ record self.old { strings = self.new.strings } }
    {
        if self.last > 0 && takes_string(token) {
            self.strings[self.last - 1] = true;
        }
    }
}

// The number of the parameter that a token pushes, 0 if it pushes none.
fn number_named(token: &Token) -> usize
    ensures value { result ≡ number_named token.now }
    ensures bound { result ≤ parameters_max }
{
    match token {
        Token::Operation(Code::Parameter(index)) => index.index() + 1,
        _ => 0,
    }
}

// The number of the parameter that was pushed last, after one more token.
fn last_after(last: usize, token: &Token) -> usize
    requires { last ≤ parameters_max }
    ensures value { result ≡ (if is_plain token.now then last else number_named token.now) }
    ensures bound { result ≤ parameters_max }
{
    if is_plain(token) {
        last
    } else {
        number_named(token)
    }
}

// Whether a token only writes a byte.
fn is_plain(token: &Token) -> bool
    ensures { result ≡ is_plain token.now }
{
    match token {
        Token::Literal(_) | Token::Operation(Code::Percent) => true,
        _ => false,
    }
}

// Whether a token takes a string.
fn takes_string(token: &Token) -> bool
    ensures { result ≡ takes_string token.now }
{
    match token {
        Token::Operation(Code::Length) => true,
        Token::Operation(Code::Print(form)) => match form.conversion {
            Conversion::Text => true,
            _ => false,
        },
        _ => false,
    }
}

// How many values a token pops.
fn popped_by(token: &Token) -> usize
    ensures { result ≡ popped_by token.now }
{
    match token {
        Token::Then => 1,
        Token::Operation(code) => match code {
            Code::Binary(_) => 2,
            Code::Character
            | Code::Print(_)
            | Code::Store(_)
            | Code::Length
            | Code::Not
            | Code::Complement => 1,
            Code::Percent
            | Code::Parameter(_)
            | Code::Fetch(_)
            | Code::Constant(_)
            | Code::Increment => 0,
        },
        Token::Literal(_) | Token::If | Token::Else | Token::EndIf => 0,
    }
}

// How many values a token pushes.
fn pushed_by(token: &Token) -> usize
    ensures value { result ≡ pushed_by token.now }
    ensures bound { result ≤ 1 }
{
    match token {
        Token::Operation(code) => match code {
            Code::Parameter(_)
            | Code::Fetch(_)
            | Code::Constant(_)
            | Code::Length
            | Code::Binary(_)
            | Code::Not
            | Code::Complement => 1,
            Code::Percent | Code::Character | Code::Print(_) | Code::Store(_) | Code::Increment =>
                0,
        },
        _ => 0,
    }
}
