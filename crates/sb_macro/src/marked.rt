//! Tokens under expansion.
ghost use Rattle.std.specs.Prelude.{◌≡◌, IfOk, map, false};
ghost use Rattle.sb_macro.specs.Tokens.{Tok, tok_of, toks, fresh, all_names};

use crate::stored::holds;
use sb_base::Name;
use sb_lex::PpToken;
use std::alloc::{AllocError, Global};
use std::collections::VecDeque;

/// A token, and the names that it may no longer expand (C99 6.10.3.4 paragraph 2).
#[derive(Drop)]
pub struct Marked {
    pub token: PpToken,
    pub hidden: Vec<Name>,
}

/// A list of tokens whose front is taken and put back.
pub type Tokens = VecDeque<Marked>;

/// A text before it is expanded.
pub fn fresh(alloc: Global, list: &[PpToken]) -> Result<Tokens, AllocError>
    ensures { IfOk result (λ tokens. toks tokens.items ≡ fresh list.now) }
{
    let mut tokens = VecDeque::new(alloc);
    for token in list {
        tokens.push_back(Marked {
            token: *token,
            hidden: Vec::new(alloc),
        })?;
    }
    Ok(tokens)
}

/// The tokens without the names that they hide.
pub fn pieces(alloc: Global, list: &[Marked]) -> Result<Vec<PpToken>, AllocError>
    ensures { IfOk result (λ tokens. tokens.items ≡ map (λ t. t.piece) (toks list.now)) }
{
    let mut tokens = Vec::new(alloc);
    for marked in list {
        tokens.push(marked.token)?;
    }
    Ok(tokens)
}

/// Both lists of names, each name of the second only where the first lacks it.
pub fn all_names(alloc: Global, names: &[Name], more: &[Name]) -> Result<Vec<Name>, AllocError>
    ensures { IfOk result (λ all. all.items ≡ all_names names.now more.now) }
{
    let mut all = Vec::from_slice(alloc, names)?;
    for name in more {
        if !holds(names, *name) {
            all.push(*name)?;
        }
    }
    Ok(all)
}
