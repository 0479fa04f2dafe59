//! The files of a block, as a library.

use crate::block::{Block, spelled};
use sb_base::MemLibrary;
use std::alloc::{AllocError, Global};

fn add_file(
    alloc: Global,
    files: &mut Vec<(Vec<u8>, Vec<u8>)>,
    name: &str,
    text: &str,
    case: &[u8],
) -> Result<(), AllocError> {
    let name = spelled(alloc, name, b"")?;
    let bytes = spelled(alloc, text, case)?;
    files.push((name, bytes))?;
    Ok(())
}

/// The files of a block; where it has none, the file `t.c` of the case.
fn files_of(
    alloc: Global,
    block: &Block,
    line: &str,
) -> Result<Vec<(Vec<u8>, Vec<u8>)>, AllocError> {
    let mut files = Vec::new(alloc);
    let case = spelled(alloc, line, b"")?;
    match block.files {
        Some(texts) => {
            for text in texts.split("\n-- ") {
                let (name, text) = text.split_once('\n').unwrap_or((text, ""));
                add_file(alloc, &mut files, name, text, &case)?;
            }
        }
        None => add_file(alloc, &mut files, "t.c", line, b"")?,
    }
    Ok(files)
}

/// The library of those files, of which this call fails.
pub fn library(
    alloc: Global,
    block: &Block,
    line: &str,
    failing: Option<u32>,
) -> Result<MemLibrary, AllocError> {
    let files = files_of(alloc, block, line)?;
    Ok(MemLibrary::new(files, calls(alloc, failing)?))
}

/// The call, if there is one, as a list.
pub fn calls(alloc: Global, call: Option<u32>) -> Result<Vec<u64>, AllocError> {
    let mut calls = Vec::new(alloc);
    if let Some(call) = call {
        calls.push(u64::from(call))?;
    }
    Ok(calls)
}
