//! Laws of the definitions that the lexer is stated by.
ghost use Rattle.sb_lex.specs.Splicing.{IsPlaceFree, JoinsLines};

/// Does nothing. Its clauses say what splicing lines (C99 5.1.1.2, phase 2) does to the bytes of a text: they do not
/// depend on where it stands in its file, and a backslash before a newline joins what stands before and behind it.
pub fn laws()
    ensures places { IsPlaceFree }
    ensures splices { JoinsLines }
{}
