//! Counting the lines of a text, and the law of it.
ghost use Rattle.std.specs.Prelude.{◌≡◌, ◌+◌, ◌≤◌, length};
ghost use Rattle.std.specs.Simd.Lanes.{chunk};
ghost use Rattle.ti_text.specs.Lines.{line_count, LinesAdd};

use std::simd::prelude::*;

// How many bytes are looked at together.
const LANES: usize = 32;

// How many newlines are in the bytes from a place on, of as many bytes as are looked at together.
fn count_in(text: &[u8], at: usize) -> u32
    requires { at + 32 ≤ length text.now }
    ensures { result ≡ line_count (chunk at 32 text.now) }
{
    u8x32::from_slice(&text[at..])
        .simd_eq(u8x32::splat(b'\n'))
        .to_bitmask()
        .count_ones()
}

// How many lines of a text end, counted byte by byte.
fn count_each(text: &[u8]) -> usize
    ensures lines { result ≡ line_count text.now }
    ensures within { result ≤ length text.now }
{
    text.iter().filter(|byte| **byte == b'\n').count()
}

/// How many lines of a text end, each with a newline.
pub fn count_lines(text: &[u8]) -> usize
    ensures lines { result ≡ line_count text.now }
    ensures within { result ≤ length text.now }
{
    let mut lines = 0;
    let mut at = 0;
    while LANES <= text.len() - at {
        lines += count_in(text, at) as usize;
        at += LANES;
    }
    lines + count_each(&text[at..])
}
