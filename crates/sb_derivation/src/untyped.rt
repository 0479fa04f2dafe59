//! What specifiers say beside a type, which a structure behind them keeps (C99 6.7).
ghost use Rattle.std.specs.Prelude.{◌≡◌};
ghost use Rattle.sb_derivation.specs.Meaning.{plain_untyped};
ghost use Rattle.sb_lexicon.specs.Words.{Nothing};
ghost use Rattle.sb_specifier.specs.Meaning.{plain_said, plain_specified};
ghost use Rattle.sb_specifier.specs.Specified as spec;

use sb_scope::Typedefs;
use sb_specifier::{Said, Specified};
use sb_tree::Storage;

/// Specifiers that say nothing of a type.
#[derive(Drop)]
pub struct Untyped {
    pub constant: bool,
    pub storage: Option<Storage>,
    pub types: Typedefs,
}

impl Untyped {
    /// Specifiers without what they say of a type.
    pub fn of(specified: Specified) -> Untyped
        ensures same { plain_untyped result ≡ spec.saying Nothing (plain_specified specified) }
        ensures constant { result.constant ≡ specified.constant }
    {
        Untyped {
            constant: specified.constant,
            storage: specified.storage,
            types: specified.types,
        }
    }

    /// The same with a type, which is not deep.
    pub fn saying(self, said: Said) -> Specified
        ensures same { plain_specified result ≡ spec.saying (plain_said said) (plain_untyped self) }
        ensures depth { result.depth ≡ 1 }
        ensures constant { result.constant ≡ self.constant }
    {
        Specified {
            said,
            depth: 1,
            constant: self.constant,
            storage: self.storage,
            types: self.types,
        }
    }
}
