//! The session with devices that fail at each byte in turn.
use crate::{Drip, End, Narrow, written_before};
use std::alloc::{AllocError, Global};
use std::process::Abort;
use std::test::Fail;
use tools_session::{Counted, ToolError, session};

// Three blocks that are each at fault, one before them, and requests of all kinds.
const SCRIPT: &[u8] = b"i 0\na,foo,\n.\ni 1\nb,use=zz,\n.\ni 2\nc,cols#9x,\n.\nf\n\
i 0\nk,\n# one\n# two\n.\nf\np 0\nd 9\nzap\n";

const REPLIES: &[u8] = b"ok\nok\nok\n\
1: W1 UnknownCapability foo\n2: E6 MissingUse zz\n3: E3 BadNumber cols\n.\n\
ok\n4: W1 UnknownCapability foo\n5: E6 MissingUse zz\n6: E3 BadNumber cols\n.\n\
1a01020000000000000000006b00\nrefused Position\nunknown\n";

// The script in pieces, each with the replies that it adds.
const COMMANDS: [(&[u8], &[u8]); 9] = [
    (b"i 0\na,foo,\n.\n", b"ok\n"),
    (b"i 1\nb,use=zz,\n.\n", b"ok\n"),
    (b"i 2\nc,cols#9x,\n.\n", b"ok\n"),
    (
        b"f\n",
        b"1: W1 UnknownCapability foo\n2: E6 MissingUse zz\n3: E3 BadNumber cols\n.\n",
    ),
    (b"i 0\nk,\n# one\n# two\n.\n", b"ok\n"),
    (
        b"f\n",
        b"4: W1 UnknownCapability foo\n5: E6 MissingUse zz\n6: E3 BadNumber cols\n.\n",
    ),
    (b"p 0\n", b"1a01020000000000000000006b00\n"),
    (b"d 9\n", b"refused Position\n"),
    (b"zap\n", b"unknown\n"),
];

// A writer with this much room, which then ends so, stops the session: the replies before that are
// whole.
fn expect_write_fault(rt: &impl Abort, alloc: Global, room: usize, end: End) {
    let mut reader = Counted::new(SCRIPT);
    let taken = Vec::new(alloc);
    let mut writer = Counted::new(Narrow { taken, room, end });
    let stop = session(alloc, &mut reader, &mut writer);
    let taken = writer.into_inner().taken;
    assert!(rt; stop == Err(ToolError::WriteFault), "at {room}: {end:?}");
    assert!(rt;
        Some(taken.as_slice()) == REPLIES.get(..room),
        "at {room}: {end:?}"
    );
}

#[test]
fn each_write_failing_in_turn(rt: HostRuntime) {
    for end in End::ALL {
        for room in 0..REPLIES.len() {
            expect_write_fault(&rt, rt.alloc(), room, end);
        }
    }
}

// How a session ends whose reader gives this many bytes and then ends so, and its replies.
fn replies_to(alloc: Global, reads_left: usize, end: End) -> (Result<(), ToolError>, Vec<u8>) {
    let mut reader = Counted::new(Drip {
        rest: SCRIPT,
        reads_left,
        end,
    });
    let mut writer = Counted::new(Vec::new(alloc));
    let stop = session(alloc, &mut reader, &mut writer);
    (stop, writer.into_inner())
}

// A reader that fails after this many bytes stops the session, after the replies to what is
// complete.
fn expect_read_fault(
    rt: &impl Abort,
    alloc: Global,
    reads: usize,
    end: End,
) -> Result<(), AllocError> {
    let (stop, written) = replies_to(alloc, reads, end);
    let expected = written_before(alloc, &COMMANDS, reads)?;
    assert!(rt; stop == Err(ToolError::ReadFault), "at {reads}: {end:?}");
    assert!(rt;
        written.as_slice() == expected.as_slice(),
        "at {reads}: {end:?}"
    );
    Ok(())
}

#[test]
fn each_read_failing_in_turn(rt: HostRuntime) -> Result<(), Fail> {
    for end in [End::Fails, End::FailsOnce, End::IsInterrupted] {
        for reads in 0..SCRIPT.len() + 1 {
            expect_read_fault(&rt, rt.alloc(), reads, end)?;
        }
    }
    Ok(())
}

// A reader that ends after this many bytes gives the replies of the script up to there.
fn expect_end(rt: &impl Abort, alloc: Global, reads: usize) {
    let (stop, written) = replies_to(alloc, reads, End::MovesNothing);
    assert!(rt; stop == Ok(()), "at {reads}");
    let mut reader = Counted::new(SCRIPT.get(..reads).unwrap_or(SCRIPT));
    let mut writer = Counted::new(Vec::new(alloc));
    assert!(rt; session(alloc, &mut reader, &mut writer) == Ok(()));
    assert!(rt; writer.into_inner() == written, "at {reads}");
}

#[test]
fn each_read_ending_the_script(rt: HostRuntime) {
    for reads in 0..SCRIPT.len() + 1 {
        expect_end(&rt, rt.alloc(), reads);
    }
}
