//! A source with fixes made, and what is told of them.
ghost use Rattle.std.specs.Prelude.{◌≡◌, ◌≤◌, ◌++◌, IfOk, OnOk, length, map};
ghost use Rattle.std.specs.String.{string_bytes};
ghost use Rattle.source_edits.specs.Edits.{advice_seen};
ghost use Rattle.everyday_lint.specs.Fixing as spec;
ghost use Rattle.everyday_lint.specs.Fixing.{begins, ends, fix_line, is_made, made};
ghost use Rattle.everyday_forms.specs.Gcc.{ordinal};
ghost use Rattle.everyday_lint.specs.Offers.{made_seen, offer_seen};

use crate::lines::Line;
use crate::offers::Offer;
use crate::words::problem_title;
use source_edits::Advice;
use source_keeping::stays_in_line;
use source_places::offset_of;
use source_types::Position;
use std::alloc::{AllocError, Global};
use std::fmt::Write;
use ti_caps::Kind;

// Where in a text what a fix exchanges begins.
fn begins(text: &[u8], offer: &Offer) -> usize
    ensures begins { result ≡ begins text.now (offer_seen offer.now) }
    ensures within { result ≤ length text.now }
{
    offset_of(text, offer.fix.range.start)
}

// Where it ends.
fn ends(text: &[u8], offer: &Offer) -> usize
    ensures ends { result ≡ ends text.now (offer_seen offer.now) }
    ensures within { result ≤ length text.now }
    ensures forward { begins text.now (offer_seen offer.now) ≤ result }
{
    begins(text, offer).max(offset_of(text, offer.fix.range.end))
}

// Whether a fix of a text is made if the one before it ends at an offset: it begins there or later,
// and is within a line of items, so that each comment and each blank line stays as it is.
fn is_made(text: &[u8], at: usize, offer: &Offer) -> bool
    ensures { result ≡ is_made text.now at (offer_seen offer.now) }
{
    let start = begins(text, offer);
    let end = ends(text, offer);
    at <= start && stays_in_line(text, start, end, offer.fix.text.as_bytes())
}

/// Those of some fixes of a text that are made: each begins where the one before it ends, or later,
/// and is within a line of items.
///
/// # Errors
/// Out of memory.
pub(crate) fn made<'a>(
    alloc: Global,
    text: &[u8],
    offers: &'a [Offer],
) -> Result<Vec<&'a Offer>, AllocError>
    ensures { IfOk result (λ all. map made_seen all.items ≡ made text.now 0 (map offer_seen offers.now)) }
{
    let mut all = Vec::new(alloc);
    let mut at = 0;
    for offer in offers {
        if is_made(text, at, offer) {
            at = ends(text, offer);
            all.push(offer)?;
        }
    }
    Ok(all)
}

/// A law, with no code: a text with fixes made has its comments and blank lines, each on the line that
/// it was on.
pub fn fixes_keep_lines()
    ensures { spec.FixingKeepsLines }
{}

/// A text with these fixes made.
///
/// # Errors
/// Out of memory.
pub(crate) fn fixed_text(
    alloc: Global,
    text: &[u8],
    offers: &[&Offer],
) -> Result<Vec<u8>, AllocError>
    ensures { IfOk result (λ all. all.items ≡ spec.fixed_text text.now 0 (map made_seen offers.now)) }
{
    let mut all = Vec::new(alloc);
    let mut at = 0;
    for offer in offers {
        let start = begins(text, offer);
        all.extend_from_slice(&text[at.min(start)..start])?;
        all.extend_from_slice(offer.fix.text.as_bytes())?;
        at = ends(text, offer);
    }
    all.extend_from_slice(&text[at..])?;
    Ok(all)
}

// What a fix did.
fn deed(advice: &Advice) -> &'static str
    ensures { result.now ≡ spec.deed (advice_seen advice.now) }
{
    match advice {
        Advice::Name { .. } => "wrote another name",
        Advice::Sign(Kind::Flag) => "removed the sign",
        Advice::Sign(Kind::Number) => "wrote `#` before the number",
        Advice::Sign(Kind::Text) => "wrote `=` before the string",
        Advice::Spelling => "rewrote the string as it is read",
        Advice::Caret => "wrote `\\^` at the end",
    }
}

// The number of what is at that place, counted from 0, if it is counted from 1.
fn ordinal(alloc: Global, at: usize) -> Result<String, AllocError>
    ensures { IfOk result (λ text. string_bytes text ≡ ordinal at) }
{
    (at as u128 + 1).to_string(alloc)
}

// Adds the place of a fix that was made in a text.
fn push_place(
    alloc: Global,
    out: &mut Vec<u8>,
    file: &str,
    text: &[u8],
    start: Position,
) -> Result<(), AllocError>
    ensures { OnOk result (out.new.items ≡ out.old.items ++ spec.place file.now text.now start) }
{
    let line = ordinal(alloc, start.line)?;
    let column = ordinal(alloc, Line::at(text, start.line).offset_of(start.column))?;
    out.extend_from_slice(file.as_bytes())?;
    out.push(b':')?;
    out.extend_from_slice(line.as_bytes())?;
    out.push(b':')?;
    out.extend_from_slice(column.as_bytes())
}

// Adds what a fix did, and what it was for.
fn push_deed(alloc: Global, out: &mut Vec<u8>, offer: &Offer) -> Result<(), AllocError>
    ensures { OnOk result (out.new.items ≡ out.old.items ++ spec.words (offer_seen offer.now)) }
{
    let title = problem_title(alloc, offer.problem)?;
    out.extend_from_slice(b": fixed: ")?;
    out.extend_from_slice(deed(&offer.fix.advice).as_bytes())?;
    out.extend_from_slice(b" [")?;
    out.extend_from_slice(title.as_bytes())?;
    out.extend_from_slice(b"]\n")
}

// Adds what is told of a fix that was made in a text.
fn push_fix(
    alloc: Global,
    out: &mut Vec<u8>,
    file: &str,
    text: &[u8],
    offer: &Offer,
) -> Result<(), AllocError>
    ensures { OnOk result (out.new.items ≡ out.old.items ++ fix_line file.now text.now (offer_seen offer.now)) }
{
    push_place(alloc, out, file, text, offer.fix.range.start)?;
    push_deed(alloc, out, offer)
}

/// What is told of fixes that were made in a text.
///
/// # Errors
/// Out of memory.
pub(crate) fn fix_lines(
    alloc: Global,
    file: &str,
    text: &[u8],
    offers: &[&Offer],
) -> Result<Vec<u8>, AllocError>
    ensures { IfOk result (λ lines. lines.items ≡ spec.fix_lines file.now text.now (map made_seen offers.now)) }
{
    let mut lines = Vec::new(alloc);
    for offer in offers {
        push_fix(alloc, &mut lines, file, text, offer)?;
    }
    Ok(lines)
}
