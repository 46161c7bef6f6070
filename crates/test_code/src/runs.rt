//! Lists of edits made at random that are made in one call. The outcomes are those of the edits
//! made one by one, and so is what is left.
use super::random::{Draws, is_same, make_edit, make_text};
use std::alloc::{AllocError, Global};
use std::test::Fail;
use ti_base::{Database, Edit, Outcome, run};

// How many lists are made.
const RUNS: u32 = 150;

// How many edits each of them has.
const EDITS: u32 = 24;

// A block, and now and then a text that is not a block.
fn make_any_text(alloc: Global, draws: &mut Draws) -> Result<Vec<u8>, AllocError> {
    if draws.below(8) == 0 {
        return Vec::from_slice(alloc, b"a,\nb,\n");
    }
    make_text(alloc, draws)
}

fn make_texts(alloc: Global, draws: &mut Draws) -> Result<Vec<Vec<u8>>, AllocError> {
    let mut texts = Vec::new(alloc);
    for _ in 0..EDITS {
        texts.push(make_any_text(alloc, draws)?)?;
    }
    Ok(texts)
}

// Makes an edit of these texts, if it is to have one, in the database, and adds it with its
// outcome to the lists.
fn add_edit<'a>(
    database: &mut Database,
    draws: &mut Draws,
    text: &'a [u8],
    edits: &mut Vec<Edit<'a>>,
    outcomes: &mut Vec<Outcome>,
) -> Result<(), AllocError> {
    let edit = make_edit(draws, database.len(), text);
    outcomes.push(Outcome::from(database.apply(&edit)))?;
    edits.push(edit)?;
    Ok(())
}

// Whether a list of edits has equal answers in one call and one by one.
fn try_run(alloc: Global, draws: &mut Draws) -> Result<bool, AllocError> {
    let texts = make_texts(alloc, draws)?;
    let mut one_by_one = Database::new(alloc);
    let mut edits = Vec::new(alloc);
    let mut wanted = Vec::new(alloc);
    for text in &texts {
        add_edit(&mut one_by_one, draws, text, &mut edits, &mut wanted)?;
    }
    let (database, outcomes) = run(alloc, &edits)?;
    Ok(outcomes.as_slice() == wanted.as_slice() && is_same(&database, &one_by_one)?)
}

#[test]
fn a_run_gives_what_its_edits_give_one_by_one(rt: HostRuntime) -> Result<(), Fail> {
    let alloc = rt.alloc();
    let mut draws = Draws { state: 20_261_126 };
    for number in 0..RUNS {
        let is_right = try_run(alloc, &mut draws)?;
        assert!(rt; is_right, "run {number}");
    }
    Ok(())
}
