//! Files of cases.
use crate::trees::SOURCE_LIMIT;
use anyhow::{Result, bail};
use campl_text::{FileShelf, Text, read_text};
use std::alloc::Global;
use std::rt::Files;

/// The text of a file.
pub fn text_of(rt: &impl Files, alloc: Global, file: &str) -> Result<Text> {
    let mut shelf = FileShelf::new(rt, alloc);
    match read_text(alloc, &mut shelf, file, SOURCE_LIMIT) {
        Ok(text) => Ok(text),
        Err(_) => bail!("the file is no text within the limit"),
    }
}
