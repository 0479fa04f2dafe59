//! The program: `prefast check FILE...` checks the functions of some files, and ends with the number of the status.
#![tactic(auto)]

ghost use Rattle.std.specs.Prelude.{◌≡◌};

use sb_base::{FolderLibrary, OutSink};
use sb_top::{Status, prefast};
use std::alloc::AllocError;
use std::env::{self, Env};
use std::io::ErrorKind;
use std::process::ExitCode;

/// The words after the program's name; none where one of them is not UTF-8, since no command has such a word.
fn words<R: Env + AllocGlobal>(rt: &R) -> Result<Vec<String>, AllocError> {
    let mut words = Vec::new(rt.alloc());
    match env::args(rt) {
        Ok(args) => {
            for word in args.skip(1) {
                words.push(word)?;
            }
            Ok(words)
        }
        Err(error) if error.kind() == ErrorKind::InvalidData => Ok(words),
        Err(_) => Err(AllocError),
    }
}

fn main(rt: HostRuntime) -> ExitCode {
    let status = match words(&rt) {
        Ok(words) => {
            let mut lib = FolderLibrary::new(&rt);
            let mut out = OutSink::new(&rt);
            prefast(rt.alloc(), words.as_slice(), &mut lib, &mut out)
        }
        Err(AllocError) => Status::Memory,
    };
    ExitCode::from(status as u8)
}
