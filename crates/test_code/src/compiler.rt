//! `ti-tic` with files and a report that cannot be written.
use crate::{End, Narrow};
use everyday_tic::{TicOptions, TicStop, run};
use std::alloc::{AllocError, Global};
use std::process::Abort;
use tools_devices::{Counted, MemTree};

const SOURCE: &[u8] = b"a|b|two names,am,\nc,cols#x,\n";

// What is reported about it before its files are written.
const SAID: &[u8] =
    b"x.ti:2:3: error: cols: Invalid number. Write it in decimal, in octal after 0, or in hexadecimal after 0x. [E3 BadNumber]\n";

// The same and the line of `-s`.
const REPORT: &[u8] =
    b"x.ti:2:3: error: cols: Invalid number. Write it in decimal, in octal after 0, or in hexadecimal after 0x. [E3 BadNumber]\n1 entries written to out\n";

// How a run with `-s` ends on this tree, and what it says on a writer with this much room.
fn run_of(
    alloc: Global,
    tree: &mut MemTree,
    room: usize,
    end: End,
) -> (Result<u8, TicStop>, Vec<u8>) {
    let options = TicOptions {
        user_defined: false,
        draws: true,
        check: false,
        entries: None,
        directory: "out",
    };
    let taken = Vec::new(alloc);
    let mut errors = Counted::new(Narrow { taken, room, end });
    let stop = run(
        alloc,
        tree,
        &mut errors,
        &[],
        "x.ti",
        SOURCE,
        &options,
        true,
    );
    (stop, errors.into_inner().taken)
}

// A report that has this much room stops the run. No file is written before all of it is said, and
// all are before the line of `-s`.
fn expect_report_fault(rt: &impl Abort, alloc: Global, room: usize, end: End) {
    let mut tree = MemTree::new(alloc);
    let (stop, said) = run_of(alloc, &mut tree, room, end);
    assert!(rt; stop == Err(TicStop::Report), "at {room}: {end:?}");
    assert!(rt;
        Some(said.as_slice()) == REPORT.get(..room),
        "at {room}: {end:?}"
    );
    let is_said = SAID.len() <= room;
    assert!(rt;
        tree.file("out/a/a").is_some() == is_said,
        "at {room}: {end:?}"
    );
    assert!(rt;
        tree.file("out/b/b").is_some() == is_said,
        "at {room}: {end:?}"
    );
}

#[test]
fn each_write_of_the_report_failing_in_turn(rt: HostRuntime) {
    for end in End::ALL {
        for room in 0..REPORT.len() {
            expect_report_fault(&rt, rt.alloc(), room, end);
        }
    }
}

// The run stops at the file of this path, which the tree is to refuse, after the report. Of the
// files only those before it are written.
fn expect_file_fault(
    rt: &impl Abort,
    alloc: Global,
    tree: &mut MemTree,
    path: &str,
    has_first: bool,
) -> Result<(), AllocError> {
    let (stop, said) = run_of(alloc, tree, usize::MAX, End::Fails);
    let path = String::from_str(alloc, path)?;
    assert!(rt; stop == Err(TicStop::File(path)));
    assert!(rt; said.as_slice() == SAID);
    assert!(rt; tree.file("out/a/a").is_some() == has_first);
    assert!(rt; tree.file("out/b/b").is_none());
    Ok(())
}

#[test]
fn each_file_failing_in_turn(rt: HostRuntime) -> Result<(), AllocError> {
    let alloc = rt.alloc();
    let mut tree = MemTree::new(alloc);
    tree.fail_at(1);
    expect_file_fault(&rt, alloc, &mut tree, "out/a/a", false)?;
    tree.fail_at(2);
    expect_file_fault(&rt, alloc, &mut tree, "out/b/b", true)?;
    let (status, said) = run_of(alloc, &mut tree, usize::MAX, End::Fails);
    assert!(&rt; status == Ok(1));
    assert!(&rt; said.as_slice() == REPORT);
    assert!(&rt; tree.file("out/b/b").is_some());
    assert!(&rt; tree.file("out/c/c").is_none());
    Ok(())
}
