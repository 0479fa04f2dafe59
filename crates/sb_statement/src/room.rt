//! Why there is no statement where none has room.
ghost use Rattle.std.specs.Prelude.{◌≡◌};
ghost use Rattle.sb_parse.specs.Parser.{refuse};
ghost use Rattle.sb_lexicon.specs.Meaning.{meant, IsFault};
ghost use Rattle.sb_lexicon.specs.Tokens as expr;
ghost use Rattle.sb_specifier.specs.Specified as specified;
ghost use Rattle.sb_statement.specs.Parts as part;
ghost use Rattle.sb_statement.specs.Readers as spec;
ghost use Rattle.sb_tree.specs.Trees.{StmtTree};

use crate::lexemes::{is_statement_next, reading};
use sb_base::{Names, Token};
use sb_lexicon::{Lexicon, ReadFault, is_mark_next};
use sb_scope::Typedefs;
use sb_sign::Mark;
use sb_specifier::{Seat, barred};

/// Why there is no statement where none has room.
pub fn no_statement(names: &Names, types: &Typedefs, cases: bool, tokens: &[Token]) -> ReadFault
    ensures { IsFault (spec.no_statement {A = StmtTree}
        (specified.reading names.now.texts types.now) cases (refuse expr.unexpected) tokens.now)
        result }
{
    if is_statement_next(&reading(names, types), cases, tokens) {
        return ReadFault::too_deep(tokens);
    }
    ReadFault::unexpected(tokens)
}

/// Why there is no block where none has room.
pub fn no_block(names: &Names, types: &Typedefs, tokens: &[Token]) -> ReadFault
    ensures { IsFault (part.no_block (specified.reading names.now.texts types.now) tokens.now)
        result }
{
    if is_mark_next(&reading(names, types), Mark::OpenBrace, tokens) {
        return ReadFault::too_deep(tokens);
    }
    ReadFault::unexpected(tokens)
}

/// Why there is no part of a block where none has room.
pub fn no_item(lexicon: &Lexicon, cases: bool, tokens: &[Token]) -> ReadFault
    ensures { IsFault (part.no_item (meant lexicon.now) cases tokens.now) result }
{
    if is_statement_next(lexicon, cases, tokens) {
        return ReadFault::too_deep(tokens);
    }
    barred(lexicon, Seat::Scope, tokens)
}
