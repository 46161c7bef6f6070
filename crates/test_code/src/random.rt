//! Edits made at random of blocks with few names. A list of the texts is edited too, and after each
//! edit the database is compared with one that is made anew of the list.
use std::alloc::{AllocError, Global};
use std::test::Fail;
use ti_base::{Database, Edit, EditError, Fault, run};

// How many edits are made.
const EDITS: u32 = 2_000;

// The blocks that the list has room for.
const BLOCKS_MAX: usize = 9;

const HEADS: [&str; 8] = [
    "a,", "b,", "c,", "d,", "a|b,", "b|c|d,", "d|d|a,", "c|words,",
];

#[rattlefmt::skip]
const ITEMS: [&str; 16] = [
    "am,", "am@,", "cols#1,", "cols#2,", "cols#x,", "pairs#65536,", "bel=^G,", "bel=\\q,", "bel=\\400,",
    "foo,", "lines=x,", "use=a,", "use=b,", "use=c,", "use=d,", "use=zz,",
];

const NAMES: [&str; 5] = ["a", "b", "c", "d", "zz"];

/// Numbers drawn from a linear congruential generator.
#[derive(Drop)]
pub(crate) struct Draws {
    pub(crate) state: u64,
}

impl Draws {
    /// A number below the count, and 0 if the count is 0.
    pub(crate) fn below(&mut self, count: usize) -> usize {
        self.state = self
            .state
            .wrapping_mul(6_364_136_223_846_793_005)
            .wrapping_add(1_442_695_040_888_963_407);
        if count == 0 {
            return 0;
        }
        (self.state >> 33) as usize % count
    }

    // One of the words.
    fn word(&mut self, words: &[&'static str]) -> &'static str {
        let at = self.below(words.len());
        if at < words.len() { words[at] } else { "" }
    }
}

/// A block with up to four items.
pub(crate) fn make_text(alloc: Global, draws: &mut Draws) -> Result<Vec<u8>, AllocError> {
    let mut text = Vec::from_slice(alloc, draws.word(&HEADS).as_bytes())?;
    let count = draws.below(5);
    for _ in 0..count {
        text.extend_from_slice(draws.word(&ITEMS).as_bytes())?;
    }
    text.push(b'\n')?;
    Ok(text)
}

/// An edit of a list of this many blocks. Its positions may lie one after the list.
pub(crate) fn make_edit<'a>(draws: &mut Draws, len: usize, text: &'a [u8]) -> Edit<'a> {
    let places = len.saturating_add(1);
    let at = draws.below(places);
    match draws.below(6) {
        0 | 1 if len < BLOCKS_MAX => Edit::Insert { at, text },
        2 => Edit::Replace { at, text },
        3 => Edit::Remove { at },
        4 => Edit::Relocate {
            from: at,
            to: draws.below(places),
        },
        _ if len == 0 => Edit::Insert { at: 1, text },
        _ => Edit::Replace { at, text },
    }
}

// Makes the edit in a list of texts, if its positions are of the list. Returns whether they are.
fn change_texts(
    alloc: Global,
    texts: &mut Vec<Vec<u8>>,
    edit: &Edit<'_>,
) -> Result<bool, AllocError> {
    match *edit {
        Edit::Insert { at, text } if at <= texts.len() => {
            let text = Vec::from_slice(alloc, text)?;
            texts.insert(at, text)?;
        }
        Edit::Replace { at, text } if at < texts.len() => {
            texts[at] = Vec::from_slice(alloc, text)?;
        }
        Edit::Remove { at } if at < texts.len() => {
            texts.remove(at);
        }
        Edit::Relocate { from, to } if from < texts.len() && to < texts.len() => {
            let text = texts.remove(from);
            texts.insert(to, text)?;
        }
        _ => return Ok(false),
    }
    Ok(true)
}

fn has_same_entries(one: &Database, other: &Database) -> bool {
    if one.len() != other.len() {
        return false;
    }
    for at in 0..one.len() {
        if one.text(at) != other.text(at) || one.compiled(at) != other.compiled(at) {
            return false;
        }
    }
    true
}

fn has_same_owners(one: &Database, other: &Database) -> bool {
    NAMES.iter().all(|name| one.owner(name.as_bytes()) == other.owner(name.as_bytes()))
}

fn is_same_fault(one: &Fault, other: &Fault) -> bool {
    let is_same_detail = match (&one.detail, &other.detail) {
        (Some(one), Some(other)) => one.as_slice() == other.as_slice(),
        (None, None) => true,
        _ => false,
    };
    one.block == other.block && one.line == other.line && one.code == other.code && is_same_detail
}

fn has_same_faults(one: &Database, other: &Database) -> Result<bool, AllocError> {
    let found = one.faults()?;
    let wanted = other.faults()?;
    if found.len() != wanted.len() {
        return Ok(false);
    }
    for at in 0..found.len() {
        if !is_same_fault(&found[at], &wanted[at]) {
            return Ok(false);
        }
    }
    Ok(one.report(1)?.as_slice() == other.report(1)?.as_slice())
}

/// Whether two databases show equal texts, entries and reports.
pub(crate) fn is_same(one: &Database, other: &Database) -> Result<bool, AllocError> {
    Ok(has_same_entries(one, other) && has_same_owners(one, other) && has_same_faults(one, other)?)
}

// Whether the database shows what a run of insertions of these texts makes.
fn is_afresh(alloc: Global, database: &Database, texts: &[Vec<u8>]) -> Result<bool, AllocError> {
    let mut edits = Vec::with_capacity(alloc, texts.len())?;
    for text in texts {
        edits.push(Edit::Insert {
            at: edits.len(),
            text,
        })?;
    }
    let (fresh, _) = run(alloc, &edits)?;
    is_same(database, &fresh)
}

// Makes an edit in the database and in the list. Returns whether the outcome is right, and both
// show the same.
fn try_edit(
    alloc: Global,
    database: &mut Database,
    texts: &mut Vec<Vec<u8>>,
    draws: &mut Draws,
) -> Result<bool, AllocError> {
    let text = make_text(alloc, draws)?;
    let edit = make_edit(draws, texts.len(), text.as_slice());
    let is_accepted = change_texts(alloc, texts, &edit)?;
    let is_right = match database.apply(&edit) {
        Ok(_) => is_accepted,
        Err(EditError::Position) => !is_accepted,
        Err(EditError::Memory) => return Err(AllocError),
        Err(_) => false,
    };
    Ok(is_right && is_afresh(alloc, database, texts.as_slice())?)
}

#[test]
fn edits_made_at_random_leave_what_the_list_gives(rt: HostRuntime) -> Result<(), Fail> {
    let alloc = rt.alloc();
    let mut database = Database::new(alloc);
    let mut texts = Vec::new(alloc);
    let mut draws = Draws { state: 20_261_124 };
    for number in 0..EDITS {
        let is_right = try_edit(alloc, &mut database, &mut texts, &mut draws)?;
        assert!(rt; is_right, "edit {number}");
    }
    Ok(())
}
