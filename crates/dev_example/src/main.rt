//! An example of the crates as a library. Its word names a file with a source. The source is put
//! into a database, its entries are written into a tree of files, the strings of one are expanded
//! and padded, the source is edited, and what the edit changed is written again. `docs/RATTLE.md`
//! walks through it.
#![tactic(auto)]

mod editing;
mod terminal;

use editing::{source_database, write_changes};
use std::alloc::Global;
use std::rt::{Env, Files};
use std::{env, fs, io};
use terminal::{find_entry, string_for};
use ti_base::Database;
use ti_param::Value;
use tools_devices::{MemTree, ToolError, entry};

// Where the entries are in the tree.
const PLACE: &str = "entries";

// The block that the edit puts in the place of the first.
const EDITED: &[u8] =
    b"lamp-base|what all lamps have in common,\n\tcols#132, cup=\\E[%i%p1%d;%p2%df,\n";

// The source in the file that the first word names.
fn read_source<R: Env + Files + AllocGlobal>(rt: &R) -> io::Result<Vec<u8>> {
    let words: Vec<String> = env::args(rt)?.collect(rt.alloc())?;
    match words.get(1) {
        Some(path) => fs::read(rt, path.as_str()),
        None => Err(io::Error::from(io::ErrorKind::InvalidInput)),
    }
}

// What moves the cursor of a terminal to row 4 and column 9, at 9,600 bits per second.
fn cursor_move(alloc: Global, tree: &mut MemTree, name: &str) -> Result<Vec<u8>, ToolError> {
    let file = find_entry(alloc, tree, PLACE, name)?;
    let view = entry(file.as_slice())?;
    string_for(
        alloc,
        &view,
        b"cup",
        &[Value::Number(4), Value::Number(9)],
        9600,
    )
}

// Prints the bytes that move the cursor, in hexadecimal.
fn print_move<R: Print + AllocGlobal>(rt: &R, tree: &mut MemTree) -> io::Result<()> {
    match cursor_move(rt.alloc(), tree, "lamp") {
        Ok(bytes) => {
            for byte in &bytes {
                print!(rt; "{byte:02x}")?;
            }
            println!(rt)
        }
        Err(error) => println!(rt; "{error}"),
    }
}

// Writes what is new of the entries into the tree, and prints how many files that were.
fn print_changes<R: Print + AllocGlobal>(
    rt: &R,
    database: &Database,
    tree: &mut MemTree,
) -> io::Result<()> {
    match write_changes(rt.alloc(), database, tree, PLACE) {
        Ok(count) => println!(rt; "{count} files written"),
        Err(error) => println!(rt; "{error}"),
    }
}

fn run<R: Env + Files + Print + AllocGlobal>(rt: &R) -> io::Result<()> {
    let source = read_source(rt)?;
    let mut database = match source_database(rt.alloc(), source.as_slice()) {
        Ok(database) => database,
        Err(error) => return println!(rt; "{error}"),
    };
    let mut tree = MemTree::new(rt.alloc());
    print_changes(rt, &database, &mut tree)?;
    print_move(rt, &mut tree)?;
    match database.replace(0, EDITED) {
        Ok(_) => println!(rt; "the first block was replaced")?,
        Err(error) => println!(rt; "{error}")?,
    }
    print_changes(rt, &database, &mut tree)?;
    print_move(rt, &mut tree)
}

fn main(rt: HostRuntime) -> io::Result<()> {
    run(&rt)
}
