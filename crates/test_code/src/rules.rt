//! Blocks read by each rule: how many columns each has then. Those by `OwnFirst` are the ones that
//! ncurses's `tic` gives the same blocks.
use std::alloc::{AllocError, Global};
use std::test::Fail;
use ti_base::{Edit, EditError, RuledDatabase, run_by};
use ti_caps::find;
use ti_layout::Value;
use ti_source::Rule;

// A block, and its columns by each rule, if it has any.
#[derive(Drop)]
struct Block {
    text: &'static str,
    leftmost: Option<u32>,
    own_first: Option<u32>,
}

#[rattlefmt::skip]
const BLOCKS: [Block; 8] = [
    Block { text: "u,cols@,\n", leftmost: None, own_first: None },
    Block { text: "v,cols#80,\n", leftmost: Some(80), own_first: Some(80) },
    Block { text: "a,use=v,cols#13,\n", leftmost: Some(80), own_first: Some(13) },
    Block { text: "b,cols#13,cols@,\n", leftmost: Some(13), own_first: None },
    Block { text: "c,cols@,cols#13,\n", leftmost: None, own_first: Some(13) },
    Block { text: "d,use=u,use=v,\n", leftmost: None, own_first: None },
    Block { text: "e,use=d,use=v,\n", leftmost: None, own_first: Some(80) },
    Block { text: "f,use=v,use=u,\n", leftmost: Some(80), own_first: Some(80) },
];

// The columns that are wanted of a block.
fn wanted(block: &Block, rule: Rule) -> Option<u32> {
    match rule {
        Rule::Leftmost => block.leftmost,
        Rule::OwnFirst => block.own_first,
    }
}

// The columns of the block at a position, if it has any.
fn columns(database: &RuledDatabase, at: usize) -> Option<u32> {
    if at >= database.len() {
        return None;
    }
    match database.values(at)?.get(find(b"cols")?) {
        Some(Value::Number(number)) => Some(*number),
        _ => None,
    }
}

// Whether each of the blocks has the columns that are wanted.
fn is_right(database: &RuledDatabase) -> bool {
    for at in 0..BLOCKS.len() {
        if columns(database, at) != wanted(&BLOCKS[at], database.rule()) {
            return false;
        }
    }
    true
}

// The blocks put in by one run.
fn run_blocks(alloc: Global, rule: Rule) -> Result<RuledDatabase, AllocError> {
    let mut edits = Vec::new(alloc);
    for at in 0..BLOCKS.len() {
        let text = BLOCKS[at].text.as_bytes();
        edits.push(Edit::Insert { at, text })?;
    }
    let (database, _) = run_by(alloc, rule, &edits)?;
    Ok(database)
}

// The blocks put in one by one, each before those that it uses, in the place of others.
fn edit_blocks(alloc: Global, rule: Rule) -> Result<RuledDatabase, EditError> {
    let mut database = RuledDatabase::new(alloc, rule);
    for at in 0..BLOCKS.len() {
        database.insert(at, b"z,use=v,\n")?;
    }
    for at in 0..BLOCKS.len() {
        let behind = BLOCKS.len() - 1 - at;
        database.replace(behind, BLOCKS[behind].text.as_bytes())?;
    }
    Ok(database)
}

#[test]
fn a_run_reads_blocks_by_the_rule(rt: HostRuntime) -> Result<(), Fail> {
    let alloc = rt.alloc();
    assert!(rt; is_right(&run_blocks(alloc, Rule::Leftmost)?));
    assert!(rt; is_right(&run_blocks(alloc, Rule::OwnFirst)?));
    Ok(())
}

#[test]
fn edits_read_blocks_by_the_rule(rt: HostRuntime) -> Result<(), Fail> {
    let alloc = rt.alloc();
    assert!(rt; is_right(&edit_blocks(alloc, Rule::Leftmost)?));
    assert!(rt; is_right(&edit_blocks(alloc, Rule::OwnFirst)?));
    Ok(())
}
