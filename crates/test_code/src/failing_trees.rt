//! Sources in a tree of files of which one call fails.
use everyday_fmt::{FmtOptions, FmtOutcome, ReasonedTree, format_files};
use std::alloc::{AllocError, Global};
use std::test::Fail;
use tools_devices::{MemTree, Tree};

// A source that has its layout, and one that has not.
const LAID: &[u8] = b"t,\n\tam, bw, xenl,\n";

const LOOSE: &[u8] = b"t, am,\n   bw, xenl,\n";

// The sources that are given their layout, what is said, and what `loose.ti` and `other.ti` are then, if
// the second call fails: the reading of the second file, or the writing of the first one.
type Row = (
    &'static [&'static str],
    &'static [u8],
    &'static [u8],
    &'static [u8],
);

#[rattlefmt::skip]
static ROWS: [Row; 2] = [
    (&["nosuch", "laid.ti", "loose.ti"],
     b"ti-fmt: nosuch: No such file or directory\nti-fmt: laid.ti: Input/output error\n", LAID, LOOSE),
    (&["loose.ti", "other.ti"], b"ti-fmt: loose.ti: Input/output error\n", LOOSE, LAID),
];

// Puts a file into a tree.
fn put(tree: &mut MemTree, path: &str, bytes: &[u8]) -> Result<(), Fail> {
    match tree.write(path, bytes) {
        Ok(()) => Ok(()),
        Err(_) => Err(Fail::from("no file")),
    }
}

// A tree with sources, of which the second call fails.
fn failing_tree(alloc: Global) -> Result<MemTree, Fail> {
    let mut tree = MemTree::new(alloc);
    put(&mut tree, "laid.ti", LAID)?;
    put(&mut tree, "loose.ti", LOOSE)?;
    put(&mut tree, "other.ti", LOOSE)?;
    tree.fail_at(2);
    Ok(tree)
}

// What comes of sources that are given their layout.
fn formatted(alloc: Global, tree: &mut MemTree, paths: &[&str]) -> Result<FmtOutcome, AllocError> {
    let mut names = Vec::new(alloc);
    for path in paths {
        names.push(String::from_str(alloc, path)?)?;
    }
    let options = FmtOptions {
        check: false,
        width: 80,
        keep: false,
    };
    format_files(alloc, tree, options, names.as_slice())
}

#[test]
fn other_sources_are_formatted_after_a_failure(rt: HostRuntime) -> Result<(), Fail> {
    for (paths, said, loose, other) in ROWS.iter() {
        let mut tree = failing_tree(rt.alloc())?;
        let outcome = formatted(rt.alloc(), &mut tree, paths)?;
        assert!(&rt; outcome.output.is_empty() && outcome.status == 1);
        assert!(&rt; outcome.errors.as_slice() == *said);
        assert!(&rt;
            tree.file("loose.ti") == Some(*loose) && tree.file("other.ti") == Some(*other)
        );
        assert!(&rt; tree.reason(rt.alloc())?.as_str() == "Input/output error");
    }
    Ok(())
}
