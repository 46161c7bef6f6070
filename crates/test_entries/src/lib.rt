//! Worked rows of the libraries that read sources, strings and entries. Each module is named after the
//! group of its calls.
#![tactic(auto)]

mod caps;
mod entry;
mod extension;
mod image;
mod list;
mod param;
mod printing;
mod source;
mod text;

use entry::Bytes;
use image::Images;
use list::Entries;
use std::alloc::{AllocError, Global};
use test_rows::{Calls, NO_CALL, Row, RowResult};
use ti_param::Statics;
use ti_source::SharedTexts;

// What is kept from row to row of a file.
#[derive(Drop)]
pub struct EntryCalls {
    // The static variables of `param.expand_keeping`.
    statics: Statics,
    // The strings of `source.parse_sharing`.
    shared: SharedTexts,
    // The bytes of `entry.read`.
    bytes: Bytes,
    // The images of `image.new`.
    images: Images,
    // The entries of `list.keep`.
    entries: Entries,
}

impl Calls for EntryCalls {
    fn new(alloc: Global) -> Result<EntryCalls, AllocError> {
        Ok(EntryCalls {
            statics: Statics::new(),
            shared: SharedTexts::new(alloc)?,
            bytes: Bytes::new(alloc),
            images: Images::new(),
            entries: Entries::new(alloc),
        })
    }

    fn call(&mut self, group: &str, name: &str, row: &mut Row<'_>) -> RowResult {
        match group {
            "caps" => caps::call(name, row),
            "text" => text::call(name, row),
            "source" => source::call(&mut self.shared, name, row),
            "printing" => printing::call(name, row),
            "param" => param::call(&mut self.statics, name, row),
            "entry" => entry::call(&mut self.bytes, name, row),
            "image" => image::call(&mut self.images, name, row),
            "extension" => extension::call(&self.bytes, name, row),
            "list" => list::call(&mut self.entries, name, row),
            _ => Err(NO_CALL),
        }
    }
}
