//! What of an entry is written where it is too long for older readers of termcap.
ghost use Rattle.std.specs.Prelude.{◌≡◌, ◌≤◌, ◌<◌, ◌++◌, length, IfOk, OnOk};
ghost use Rattle.std.specs.Option.{option_copied};
ghost use Rattle.ti_layout.specs.View.{names_of, view_contents};
ghost use Rattle.everyday_termcap.specs.Limits.{all_kept, as_it_is, first_lost, has_keys, has_sets, is_fit, is_line, is_one_to_one, kept_in_short, limited_text};
ghost use Rattle.everyday_termcap.specs.Limits.{remark_if, remark_text, shortened, shown, warning, without_graphics, without_keys, without_others, without_sets, source_seen};
ghost use Rattle.everyday_termcap.specs.Contents.{is_there, text_said};

use crate::contents::{Kept, text_said};
use crate::items::{Lines, entry_text};
use itoa::Buffer;
use std::alloc::{AllocError, Global};
use ti_layout::View;

// The most bytes of an entry that older readers take.
const MOST: usize = 1023;

// How many function keys have a code that termcap keeps.
const KEYS: u8 = 10;

/// What a comment says.
#[derive(Clone, Copy)]
pub(crate) enum Remark {
    /// Strings are left out that termcap has no form for.
    Untranslatable,
    /// `sgr` is.
    Graphics,
    /// `rmacs` and `smacs` are.
    Consistency,
    /// `acsc` is.
    Characters,
    /// What only terminfo has is.
    TerminfoOnly,
    /// Function keys are.
    Keys,
    /// The entry is too long, before its size.
    WarningFront,
    /// The same after its size.
    WarningEnd,
}

/// An entry, and how it is written.
#[derive(Clone, Copy)]
pub(crate) struct Source<'a> {
    /// The entry.
    pub view: View<'a>,
    /// Its `me`, where its alternate character set is kept.
    pub with_sets: Option<&'a [u8]>,
    /// Its `me`, where that is not.
    pub without_sets: Option<&'a [u8]>,
    /// Whether all that has a code is written, or what termcap has.
    pub all: bool,
    /// Its lines.
    pub form: Lines,
}

impl<'a> Source<'a> {
    // The entry with what is kept of it.
    #[tactic(auto, unfolding(crate::specs::Limits::shown))]
    fn shown(&self, alloc: Global, kept: Kept) -> Result<Vec<u8>, AllocError>
        requires { kept.keys ≤ 10 }
        ensures { IfOk result (λ text. text.items ≡ shown (source_seen self.now) kept) }
    {
        let plain = if kept.sets {
            self.with_sets
        } else {
            self.without_sets
        };
        entry_text(alloc, &self.view, kept, plain, self.form)
    }

    // Whether the entry has a string by a code.
    fn has(&self, code: &[u8]) -> bool
        ensures { result ≡ is_there (text_said (source_seen self.now).table code.now) }
    {
        text_said(&self.view, code).is_some()
    }

    // Whether the entry keeps `as` and `ae`.
    fn has_sets(&self) -> bool
        ensures { result ≡ has_sets (source_seen self.now).table }
    {
        match text_said(&self.view, b"ac") {
            Some(acsc) => is_one_to_one(acsc),
            None => true,
        }
    }
}

// What is kept of an entry that is too long.
fn kept_in_short(all: bool, graphics: bool, sets: bool, characters: bool, keys: u8) -> Kept
    ensures { result ≡ kept_in_short all graphics sets characters keys }
{
    Kept {
        all,
        untranslatable: false,
        graphics,
        sets,
        characters,
        keys,
    }
}

// Whether a text is short enough.
fn is_fit(text: &[u8]) -> bool
    ensures { result ≡ is_fit text.now }
{
    text.len() <= MOST
}

// Whether a character is a line-drawing one.
fn is_line(byte: u8) -> bool
    ensures { result ≡ is_line byte }
{
    b"lmkjtuvwqxn".iter().any(|line| *line == byte)
}

// Whether each line-drawing character is its own.
fn is_one_to_one(acsc: &[u8]) -> bool
    ensures { result ≡ is_one_to_one acsc.now }
{
    let mut pairs = acsc;
    while pairs.len() >= 2 {
        if is_line(pairs[0]) && pairs[0] != pairs[1] {
            return false;
        }
        pairs = &pairs[2..];
    }
    true
}

// What a comment says.
#[tactic(auto, unfolding(crate::specs::Limits::remark_text))]
fn remark_text(remark: Remark) -> &'static [u8]
    ensures { result.now ≡ remark_text remark }
{
    match remark {
        Remark::Untranslatable => {
            b"# (untranslatable capabilities removed to fit entry within 1023 bytes)\n"
        }
        Remark::Graphics => b"# (sgr removed to fit entry within 1023 bytes)\n",
        Remark::Consistency => b"# (rmacs/smacs removed for consistency)\n",
        Remark::Characters => b"# (acsc removed to fit entry within 1023 bytes)\n",
        Remark::TerminfoOnly => {
            b"# (terminfo-only capabilities suppressed to fit entry within 1023 bytes)\n"
        }
        Remark::Keys => {
            b"# (some function-key capabilities suppressed to fit entry within 1023 bytes)\n"
        }
        Remark::WarningFront => b"# WARNING: this entry, ",
        Remark::WarningEnd => b" bytes long, may core-dump older termcap libraries!\n",
    }
}

// Appends a comment, if it is said.
fn push_remark(out: &mut Vec<u8>, said: bool, remark: Remark) -> Result<(), AllocError>
    ensures { OnOk result (out.new.items ≡ out.old.items ++ remark_if said remark) }
{
    if said {
        out.extend_from_slice(remark_text(remark))?;
    }
    Ok(())
}

// Appends the warning of a text that is too long.
#[tactic(auto, unfolding(crate::specs::Limits::warning))]
fn push_warning(out: &mut Vec<u8>, text: &[u8]) -> Result<(), AllocError>
    ensures { OnOk result (out.new.items ≡ out.old.items ++ warning text.now) }
{
    if is_fit(text) {
        return Ok(());
    }
    out.extend_from_slice(remark_text(Remark::WarningFront))?;
    out.extend_from_slice(Buffer::new().format(text.len()).as_bytes())?;
    out.extend_from_slice(remark_text(Remark::WarningEnd))
}

// Whether an entry has a function key below a number.
#[tactic(auto, unfolding(crate::specs::Limits::has_keys))]
fn has_keys(view: &View<'_>, number: u8) -> bool
    requires { number ≤ 10 }
    ensures { result ≡ has_keys (view_contents view.now) number }
{
    if number == 0 {
        return false;
    }
    text_said(view, &[b'k', b'0' + (number - 1)]).is_some() || has_keys(view, number - 1)
}

// The first function key that is left out, if those from a number on are and so many bytes are too
// many.
#[tactic(auto, unfolding(crate::specs::Limits::first_lost))]
fn first_lost(view: &View<'_>, number: u8, too_many: usize) -> u8
    requires { number ≤ 10 }
    ensures is { result ≡ first_lost (view_contents view.now) number too_many }
    ensures within { result ≤ number }
{
    if number == 0 {
        return 0;
    }
    let key = number - 1;
    match text_said(view, &[b'k', b'0' + key]) {
        None => first_lost(view, key, too_many),
        Some(text) if too_many < text.len() + 5 => key,
        Some(text) => first_lost(view, key, too_many - (text.len() + 5)),
    }
}

// Appends an entry that is too long without what only terminfo has too, given its text so far.
#[tactic(auto, unfolding(crate::specs::Limits::without_keys))]
fn push_without_keys(
    alloc: Global,
    out: &mut Vec<u8>,
    source: &Source<'_>,
    text: &[u8],
) -> Result<(), AllocError>
    ensures { OnOk result (out.new.items ≡ out.old.items ++ without_keys (source_seen source.now) text.now) }
{
    let lost = first_lost(&source.view, KEYS, text.len().saturating_sub(MOST));
    let last = source.shown(
        alloc,
        kept_in_short(false, false, source.has_sets(), false, lost),
    )?;
    push_remark(out, has_keys(&source.view, KEYS), Remark::Keys)?;
    push_warning(out, &last)?;
    out.extend_from_slice(&last)
}

// Appends an entry that is too long without its graphics and sets too.
#[tactic(auto, unfolding(crate::specs::Limits::without_others))]
fn push_without_others(
    alloc: Global,
    out: &mut Vec<u8>,
    source: &Source<'_>,
) -> Result<(), AllocError>
    ensures { OnOk result (out.new.items ≡ out.old.items ++ without_others (source_seen source.now)) }
{
    let kept = kept_in_short(false, false, source.has_sets(), false, KEYS);
    let text = source.shown(alloc, kept)?;
    push_remark(out, true, Remark::TerminfoOnly)?;
    if is_fit(&text) {
        return out.extend_from_slice(&text);
    }
    push_without_keys(alloc, out, source, &text)
}

// Appends an entry that is too long without its graphics.
#[tactic(auto, unfolding(crate::specs::Limits::without_sets))]
fn push_without_sets(
    alloc: Global,
    out: &mut Vec<u8>,
    source: &Source<'_>,
) -> Result<(), AllocError>
    ensures { OnOk result (out.new.items ≡ out.old.items ++ without_sets (source_seen source.now)) }
{
    let sets = source.has_sets();
    let text = source.shown(alloc, kept_in_short(source.all, false, sets, false, KEYS))?;
    push_remark(out, !sets, Remark::Consistency)?;
    push_remark(out, source.has(b"ac"), Remark::Characters)?;
    if is_fit(&text) {
        return out.extend_from_slice(&text);
    }
    push_without_others(alloc, out, source)
}

// Appends an entry that is too long without what termcap has no form for.
#[tactic(auto, unfolding(crate::specs::Limits::without_graphics))]
fn push_without_graphics(
    alloc: Global,
    out: &mut Vec<u8>,
    source: &Source<'_>,
) -> Result<(), AllocError>
    ensures { OnOk result (out.new.items ≡ out.old.items ++ without_graphics (source_seen source.now)) }
{
    let text = source.shown(alloc, kept_in_short(source.all, false, true, true, KEYS))?;
    push_remark(out, source.has(b"sa"), Remark::Graphics)?;
    if is_fit(&text) {
        return out.extend_from_slice(&text);
    }
    push_without_sets(alloc, out, source)
}

// Appends an entry that is too long as it is.
#[tactic(auto, unfolding(crate::specs::Limits::shortened))]
fn push_shortened(alloc: Global, out: &mut Vec<u8>, source: &Source<'_>) -> Result<(), AllocError>
    ensures { OnOk result (out.new.items ≡ out.old.items ++ shortened (source_seen source.now)) }
{
    let text = source.shown(alloc, kept_in_short(source.all, true, true, true, KEYS))?;
    push_remark(out, true, Remark::Untranslatable)?;
    if is_fit(&text) {
        return out.extend_from_slice(&text);
    }
    push_without_graphics(alloc, out, source)
}

// Appends an entry that is short enough, or may be of any length.
#[tactic(auto, unfolding(crate::specs::Limits::as_it_is))]
fn push_as_it_is(alloc: Global, out: &mut Vec<u8>, source: &Source<'_>) -> Result<(), AllocError>
    ensures { OnOk result (out.new.items ≡ out.old.items ++ as_it_is (source_seen source.now)) }
{
    let sets = source.all || source.has_sets();
    let kept = Kept {
        all: source.all,
        untranslatable: true,
        graphics: true,
        sets,
        characters: true,
        keys: KEYS,
    };
    let text = source.shown(alloc, kept)?;
    push_remark(out, !sets, Remark::Consistency)?;
    out.extend_from_slice(&text)
}

// Whether an entry as it is is short enough.
fn is_fit_as_it_is(alloc: Global, source: &Source<'_>) -> Result<bool, AllocError>
    ensures { IfOk result (λ fit. fit ≡ is_fit (shown (source_seen source.now) (all_kept source.now.all))) }
{
    let kept = Kept {
        all: source.all,
        untranslatable: true,
        graphics: true,
        sets: true,
        characters: true,
        keys: KEYS,
    };
    let text = source.shown(alloc, kept)?;
    Ok(is_fit(&text))
}

#[tactic(auto, unfolding(crate::specs::Limits::limited_text))]
/// Appends an entry with its comments, without the newline at its end; `limited` says whether it is
/// to be short enough for older readers.
///
/// # Errors
/// `AllocError` if memory ran out.
pub(crate) fn push_limited(
    alloc: Global,
    out: &mut Vec<u8>,
    limited: bool,
    source: &Source<'_>,
) -> Result<(), AllocError>
    ensures { OnOk result (out.new.items ≡ out.old.items ++ limited_text limited (source_seen source.now)) }
{
    if limited && !is_fit_as_it_is(alloc, source)? {
        return push_shortened(alloc, out, source);
    }
    push_as_it_is(alloc, out, source)
}
