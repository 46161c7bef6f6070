//! What comments allow on the lines of a text.
ghost use Rattle.std.specs.Prelude.{◌≡◌, IfOk, map};
ghost use Rattle.std.specs.List.{list_any};
ghost use Rattle.std.specs.Str.{bytes_eq};
ghost use Rattle.source_settings.specs.Comments as spec;

use crate::walking::{Allowance, allowances_of};
use std::alloc::{AllocError, Global};
use std::marker::Model;

/// What the comments of a text allow on its lines.
#[derive(Debug, Drop)]
pub struct Allowances<'a> {
    text: &'a [u8],
    all: Vec<Allowance<'a>>,
}

impl<'a> Model for Allowances<'a> {
    ghost use Rattle.std.specs.Prelude.{◌≡◌, ℕ, List, []};
    ghost use Rattle.source_settings.specs.Comments.{allowed_on};
    ghost use Rattle.source_settings.specs.inside.Latest.{latest};

    ghost Value = { List ℕ };

    ghost view = { λ a. a.text.now };

    ghost invariant = { λ a. (line : ℕ) → latest [] a.all.items line ≡ allowed_on a.text.now line };
}

// Whether a code is among these.
fn has_code(codes: &[&[u8]], code: &[u8]) -> bool
    ensures { result ≡ list_any (λ allowed. bytes_eq allowed code.now) (map (λ allowed. allowed.now) codes.now) }
{
    for allowed in codes {
        if *allowed == code {
            return true;
        }
    }
    false
}

impl<'a> Allowances<'a> {
    /// What the comments of a text allow on its lines.
    ///
    /// # Errors
    /// Out of memory.
    pub fn of(alloc: Global, text: &'a [u8]) -> Result<Allowances<'a>, AllocError>
        ensures { IfOk result (λ allowances. allowances ≡ text.now) }
    {
        let all = allowances_of(alloc, text)?;
        Ok(Allowances { text, all })
    }

    // The codes that are allowed on a line, counted from 0.
    fn codes_on(&self, line: usize) -> &[&'a [u8]]
        ensures { map (λ code. code.now) result.now ≡ spec.allowed_on self.now line }
    {
        let mut codes: &[&'a [u8]] = &[];
        for allowance in &self.all {
            if allowance.line <= line {
                codes = allowance.codes.as_slice();
            }
        }
        codes
    }

    /// Whether a code is allowed on a line, counted from 0.
    pub fn allows(&self, line: usize, code: &str) -> bool
        ensures { result ≡ spec.is_allowed self.now line code.now }
    {
        has_code(self.codes_on(line), code.as_bytes())
    }
}
