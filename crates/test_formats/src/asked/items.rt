//! Items, read from their text.
use std::alloc::Global;
use std::test::Fail;
use svn_wire::{ItemStream, Limits, Token};

/// The item that the text has.
pub fn item_of(alloc: Global, text: &str) -> Result<Vec<Token>, Fail> {
    let limits = Limits {
        text: 1024,
        depth: 16,
        tokens: 1024,
    };
    let mut stream = ItemStream::new(alloc, limits);
    stream.feed(text.as_bytes())?;
    Ok(stream.next_item()?.ok_or("no item")?)
}
