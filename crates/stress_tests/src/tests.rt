//! What the tests share.

use orc_stress::{Refused, Settings, settings_of};
use std::alloc::{AllocError, Global};
use std::test::Fail;

mod keys;
mod pairs;
mod shelves;
mod words;

// The words of a command line.
fn words_of(alloc: Global, words: &[&str]) -> Result<Vec<String>, AllocError> {
    let mut all = Vec::new(alloc);
    for word in words {
        all.push(String::from_str(alloc, word)?)?;
    }
    Ok(all)
}

// What these words give.
fn asked(alloc: Global, words: &[&str]) -> Result<Result<Settings, Refused>, Fail> {
    let words = words_of(alloc, words)?;
    Ok(settings_of(alloc, words.as_slice()))
}
