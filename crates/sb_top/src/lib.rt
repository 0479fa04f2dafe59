//! From bytes to bytes: the words of a command line, the reading of a file, the rules that judge each function, the texts.
#![tactic(auto)]

mod answering;
mod command;
mod reply;
mod sets;
mod status;
mod texts;

ghost use Rattle.std.specs.Prelude.{◌≡◌, ℕ, List, Option, Some, map, string_bytes};
ghost use Rattle.sb_base.specs.Outside.{Rose};
ghost use Rattle.sb_top.specs.Stands.{Stands};
ghost use Rattle.sb_top.specs.Outcomes.{IsDefined, HasOneOutcome, AreSafeIn};

use answering::reply_to;
use sb_base::{FetchFault, Library, PutFault, Sink};
pub use status::Status;
use std::alloc::Global;

/// Does what the words of a command line ask for, with the files of `lib`, and writes what there is to say into `out`.
///
/// `check FILE...` checks the functions of 1 to 256 files, each preprocessed to a unit of its own. Where it ends as
/// `Clean`, each of them is safe: from each state that its annotations let in, no run follows a null or wild pointer
/// or leaves its object. Over a library that tells its content, one text is defined for the words, under one status.
#[tactic(auto, using(crate::proofs::OneOutcome::one_outcome))]
pub fn prefast<L: Library, S: Sink>(
    alloc: Global,
    words: &[String],
    lib: &mut L,
    out: &mut S,
) -> Status
    ensures stands { Stands (IsDefined (L.held lib.old) (map string_bytes words.now))
        (S.written out.old) (S.written out.new) result }
    ensures safe { result ≡ Status.Clean → (told : List ℕ → Option (List ℕ)) → L.held lib.old
        ≡ Some told → AreSafeIn told (map string_bytes words.now) }
    ensures only { (told : List ℕ → Option (List ℕ)) → L.held lib.old ≡ Some told
        → HasOneOutcome told (map string_bytes words.now) }
    ensures held { L.held lib.new ≡ L.held lib.old }
    ensures read_fault { result ≡ Status.ReadFault → Rose (L.faults lib.old) (L.faults lib.new) }
    ensures read_told { (result ≡ Status.ReadFault → ⊥) → L.faults lib.new ≡ L.faults lib.old }
    ensures write_fault { result ≡ Status.WriteFault → Rose (S.faults out.old) (S.faults out.new) }
    ensures write_told { (result ≡ Status.WriteFault → ⊥) → S.faults out.new ≡ S.faults out.old }
{
    let reply = match reply_to(alloc, words, lib) {
        Ok(reply) => reply,
        Err(FetchFault::Failed) => return Status::ReadFault,
        Err(FetchFault::Memory) => return Status::Memory,
    };
    match out.put(reply.text.as_slice()) {
        Ok(()) => reply.status,
        Err(PutFault::Failed) => Status::WriteFault,
        Err(PutFault::Memory) => Status::Memory,
    }
}
