//! Calls of `ti_compiled`: entries changed in place.
use std::alloc::Global;
use test_rows::RowError::{Bad, Memory};
use test_rows::values::{NO_CAPABILITY, has_no_nul, split, split_at_plus, table_of, value_of};
use test_rows::{NO_CALL, Row, RowResult};
use ti_caps::find;
use ti_compiled::Image;
use ti_layout::{Table, WriteError};

/// An image that is changed from row to row, and a copy of an earlier state of it.
#[derive(Drop)]
pub struct Images {
    now: Option<Image>,
    copy: Option<Image>,
}

impl Images {
    /// No image.
    pub fn new() -> Images {
        Images {
            now: None,
            copy: None,
        }
    }
}

fn held(image: &Option<Image>) -> RowResult<&Image> {
    image.as_ref().ok_or(Bad("there is no image"))
}

// The cause as an answer.
fn say_cause(row: &mut Row<'_>, cause: WriteError) -> RowResult {
    if cause == WriteError::Memory {
        return Err(Memory);
    }
    row.fail(format!(in row.alloc; "{cause}")?.as_str())
}

// The image of names and the values of one table, patched to those of another if there is one.
fn image_of(
    alloc: Global,
    names: &[u8],
    old: &Table,
    new: Option<&Table>,
) -> RowResult<Result<Image, WriteError>> {
    if names.is_empty() || !has_no_nul(names) {
        return Err(Bad("the names cannot be those of an entry"));
    }
    Ok(match (Image::new(alloc, names, old), new) {
        (Ok(image), Some(new)) => image.patch(old, new),
        (made, _) => made,
    })
}

// A new image of names and values.
fn make(row: &mut Row<'_>, images: &mut Images) -> RowResult {
    let table = table_of(row.alloc, row.from(1))?;
    match image_of(row.alloc, row.bytes(0)?, &table, None)? {
        Ok(image) => {
            row.show(&image.bytes().len())?;
            images.now = Some(image);
            Ok(())
        }
        Err(cause) => say_cause(row, cause),
    }
}

// Gives an image a value, or takes one away.
fn change(alloc: Global, image: &mut Image, word: &[u8]) -> RowResult<Option<WriteError>> {
    if let [b'-', name @ ..] = word {
        let Some(cap) = find(name) else {
            return Err(NO_CAPABILITY);
        };
        return Ok(image.set(cap, None).err());
    }
    let (name, rest) = split(word);
    let Some(cap) = find(name) else {
        return Err(NO_CAPABILITY);
    };
    let value = value_of(alloc, cap, rest)?;
    Ok(image.set(cap, Some(value)).err())
}

// Changes the image, and says how long it is then. A change that is refused leaves it as it was.
fn set(row: &mut Row<'_>, images: &mut Images) -> RowResult {
    let Some(image) = &mut images.now else {
        return Err(Bad("there is no image"));
    };
    let before = image.copy()?;
    match change(row.alloc, image, row.bytes(0)?)? {
        Some(cause) => {
            say_cause(row, cause)?;
            row.say_yes(image.bytes() == before.bytes())
        }
        None => row.show(&image.bytes().len()),
    }
}

// Keeps a copy of the image.
fn keep(row: &mut Row<'_>, images: &mut Images) -> RowResult {
    let copy = held(&images.now)?.copy()?;
    row.show(&copy.bytes().len())?;
    images.copy = Some(copy);
    Ok(())
}

// So many bytes of an image from a place on; all if no place is given.
fn say_bytes(row: &mut Row<'_>, image: &Option<Image>) -> RowResult {
    let image = held(image)?;
    if row.len() == 0 {
        return row.say(image.bytes());
    }
    let (place, count) = (row.count(0)?, row.count(1)?);
    match image.bytes().get(place..place.saturating_add(count)) {
        Some(bytes) => row.say(bytes),
        None => Err(Bad("there are fewer bytes")),
    }
}

// The bytes and the names of a patched image, or its length.
fn say_patched(row: &mut Row<'_>, is_whole: bool) -> RowResult {
    let (old, new) = split_at_plus(row.from(1));
    let (old, new) = (table_of(row.alloc, old)?, table_of(row.alloc, new)?);
    match image_of(row.alloc, row.bytes(0)?, &old, Some(&new))? {
        Ok(image) if is_whole => {
            row.say(image.bytes())?;
            row.say(image.names())
        }
        Ok(image) => row.show(&image.bytes().len()),
        Err(cause) => say_cause(row, cause),
    }
}

/// Makes a call of this library.
pub fn call(images: &mut Images, name: &str, row: &mut Row<'_>) -> RowResult {
    match name {
        "new" => make(row, images),
        "set" => set(row, images),
        "bytes" => say_bytes(row, &images.now),
        "keep" => keep(row, images),
        "kept" => say_bytes(row, &images.copy),
        "patch" => say_patched(row, true),
        "patched_length" => say_patched(row, false),
        _ => Err(NO_CALL),
    }
}
