//! The lines of `tput -S` with devices that fail at each byte in turn.
use crate::{Drip, End, Narrow, written_before};
use std::alloc::{AllocError, Global};
use std::process::Abort;
use ti_layout::View;
use tools_devices::{Counted, ToolError, entry};
use tools_tput::tput_lines;

// `dumb|80-column dumb tty,` with `cols#80, bel=^G,`.
const DUMB: &[u8] =
    b"\x1a\x01\x18\0\0\0\x01\0\x02\0\x02\0dumb|80-column dumb tty\0\x50\0\xff\xff\0\0\x07\0";

// Lines that write something, that are bad and that are skipped, each with what it writes.
const PIECES: [(&[u8], &[u8]); 6] = [
    (b"cols\n", b"80\n"),
    (b"zz\n", b""),
    (b"bel\n", b"\x07"),
    (b"yy\n", b""),
    (b"\n", b""),
    (b"longname\n", b"80-column dumb tty"),
];

const LINES: &[u8] = b"cols\nzz\nbel\nyy\n\nlongname\n";

const WRITTEN: &[u8] = b"80\n\x0780-column dumb tty";

// A writer with this much room, which then ends so, stops the run: what it took before that is
// whole.
fn expect_write_fault(rt: &impl Abort, alloc: Global, view: &View<'_>, room: usize, end: End) {
    let mut reader = Counted::new(LINES);
    let taken = Vec::new(alloc);
    let mut writer = Counted::new(Narrow { taken, room, end });
    let stop = tput_lines(alloc, view, 0, &mut reader, &mut writer);
    let taken = writer.into_inner().taken;
    assert!(rt; stop == Err(ToolError::WriteFault), "at {room}: {end:?}");
    assert!(rt;
        Some(taken.as_slice()) == WRITTEN.get(..room),
        "at {room}: {end:?}"
    );
}

#[test]
fn each_write_failing_in_turn(rt: HostRuntime) -> Result<(), ToolError> {
    let view = entry(DUMB)?;
    for end in End::ALL {
        for room in 0..WRITTEN.len() {
            expect_write_fault(&rt, rt.alloc(), &view, room, end);
        }
    }
    Ok(())
}

// How a run ends whose reader gives this many bytes and then ends so, and what it writes.
fn run_of(
    alloc: Global,
    view: &View<'_>,
    reads_left: usize,
    end: End,
) -> (Result<u8, ToolError>, Vec<u8>) {
    let mut reader = Counted::new(Drip {
        rest: LINES,
        reads_left,
        end,
    });
    let mut writer = Counted::new(Vec::new(alloc));
    let stop = tput_lines(alloc, view, 0, &mut reader, &mut writer);
    (stop, writer.into_inner())
}

// A reader that fails after this many bytes stops the run, after the lines that are complete.
fn expect_read_fault(
    rt: &impl Abort,
    alloc: Global,
    view: &View<'_>,
    reads: usize,
    end: End,
) -> Result<(), ToolError> {
    let (stop, written) = run_of(alloc, view, reads, end);
    let expected = written_before(alloc, &PIECES, reads)?;
    assert!(rt; stop == Err(ToolError::ReadFault), "at {reads}: {end:?}");
    assert!(rt; written == expected, "at {reads}: {end:?}");
    Ok(())
}

// A reader that ends after this many bytes gives what the lines up to there give.
fn expect_end(rt: &impl Abort, alloc: Global, view: &View<'_>, reads: usize) {
    let (stop, written) = run_of(alloc, view, reads, End::MovesNothing);
    let mut reader = Counted::new(LINES.get(..reads).unwrap_or(LINES));
    let mut writer = Counted::new(Vec::new(alloc));
    assert!(rt; tput_lines(alloc, view, 0, &mut reader, &mut writer) == stop);
    assert!(rt; writer.into_inner() == written, "at {reads}");
}

#[test]
fn each_read_failing_in_turn(rt: HostRuntime) -> Result<(), ToolError> {
    let view = entry(DUMB)?;
    for reads in 0..LINES.len() + 1 {
        expect_read_fault(&rt, rt.alloc(), &view, reads, End::Fails)?;
        expect_read_fault(&rt, rt.alloc(), &view, reads, End::FailsOnce)?;
        expect_read_fault(&rt, rt.alloc(), &view, reads, End::IsInterrupted)?;
        expect_end(&rt, rt.alloc(), &view, reads);
    }
    Ok(())
}
