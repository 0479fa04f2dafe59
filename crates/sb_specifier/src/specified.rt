//! What the specifiers of a declaration say, with the typedef names in force (C99 6.7, 6.2.1).
ghost use Rattle.std.specs.Prelude.{◌≡◌, ◌≤◌, ◌+◌, IfOk, false};
ghost use Rattle.std.specs.Option.{option_map};
ghost use Rattle.sb_lexicon.specs.SpecifierReaders as expr;
ghost use Rattle.sb_lexicon.specs.Words as words;
ghost use Rattle.sb_tree.specs.Plain.{plain_type};
ghost use Rattle.sb_specifier.specs.Meaning.{plain_said, plain_specified, plain_later, plain_named, type_in, named_by, IsBaseKnown, IsKnown};
ghost use Rattle.sb_specifier.specs.Readers.{place_of_base, is_structure};
ghost use Rattle.sb_specifier.specs.Specified as spec;

use crate::seat::Seat;
use sb_base::{Name, Place};
use sb_lexicon::TypeWords;
use sb_scope::Typedefs;
use sb_sign::Keyword;
use sb_tree::{Decl, Item, Storage, TypeName};
use std::alloc::{AllocError, Global};

/// What specifiers say of a type so far.
#[derive(Drop)]
pub enum Said {
    Nothing,
    /// Words of an arithmetic type, from this place on.
    Words(TypeWords, Place),
    Struct {
        tag: Option<Name>,
        members: Option<Vec<Decl>>,
        place: Place,
    },
    Enum {
        tag: Option<Name>,
        items: Option<Vec<Item>>,
        place: Place,
    },
    Defined(Name, Place),
}

/// The specifiers so far. `depth`: how deep the type is that they name without `const`; `types`: the typedef names in
/// force behind them.
#[derive(Drop)]
pub struct Specified {
    pub said: Said,
    pub depth: u32,
    pub constant: bool,
    pub storage: Option<Storage>,
    pub types: Typedefs,
}

/// The type that the specifiers of a declaration name, without `const`, as its later declarators have it.
#[derive(Clone, Copy)]
pub enum Named {
    Base(u8, Place),
    Struct(Option<Name>, Place),
    Enum(Option<Name>, Place),
    Defined(Name, Place),
    Same(Place),
}

/// The type of a later declarator: one that defines a structure or an enumeration is named by its place.
#[derive(Clone, Copy)]
pub struct Later {
    pub named: Named,
    pub constant: bool,
}

/// A type on the heap, and how deep it is.
#[derive(Drop)]
pub struct Based {
    pub tree: Box<TypeName>,
    pub depth: u32,
}

pub const NOWHERE: Place = Place {
    file: 0,
    line: 0,
    col: 0,
};

// ---- typedef names

/// A name is declared: a typedef name comes into force, and any other one hides a typedef.
pub fn declare(
    alloc: Global,
    types: &mut Typedefs,
    storage: Storage,
    name: Name,
) -> Result<(), AllocError>
    ensures { IfOk result (λ _. types.new ≡ spec.declared storage name types.old) }
{
    if matches!(storage, Storage::Typedef) {
        types.add(alloc, name)
    } else {
        types.hide(alloc, name)
    }
}

// ---- storage

/// What a word of storage says (6.7.1); `register` says nothing that a tree keeps.
fn storage_by(word: Keyword) -> Option<Storage>
    ensures { result ≡ spec.storage_by word }
{
    match word {
        Keyword::Typedef => Some(Storage::Typedef),
        Keyword::Extern => Some(Storage::Extern),
        Keyword::Static => Some(Storage::Static),
        Keyword::Register => Some(Storage::Plain),
        _ => None,
    }
}

/// A word of storage where it may stand: one a declaration, only `register` before a parameter, none in a structure.
pub(crate) fn storage_in(seat: Seat, so_far: Option<Storage>, word: Keyword) -> Option<Storage>
    ensures { result ≡ spec.storage_in seat so_far word }
{
    match (seat, so_far) {
        (Seat::Scope, None) => storage_by(word),
        (Seat::Prototype, None) if matches!(word, Keyword::Register) => storage_by(word),
        _ => None,
    }
}

pub(crate) fn is_structure(seat: Seat) -> bool
    ensures { result ≡ is_structure seat }
{
    matches!(seat, Seat::Structure)
}

// ---- types

impl Said {
    pub fn is_nothing(&self) -> bool
        ensures { result ≡ words.is_nothing (plain_said self.now) }
    {
        matches!(self, Said::Nothing)
    }

    /// Whether `double` and `_Complex` may follow.
    pub fn may_be_floating(&self) -> bool
        ensures { result ≡ expr.may_be_floating (plain_said self.now) }
    {
        match self {
            Said::Nothing => true,
            Said::Words(words, _place) => words.may_be_floating(),
            _ => false,
        }
    }

    /// Whether a structure or an enumeration is named by its tag alone.
    pub fn is_tag_alone(&self) -> bool
        ensures { result ≡ spec.is_tag_alone (plain_said self.now) }
    {
        match self {
            Said::Struct { members, .. } => members.is_none(),
            Said::Enum { items, .. } => items.is_none(),
            _ => false,
        }
    }

    /// The words of the type with one more, which stands at this place, and where they begin.
    pub fn with_word(&self, word: Keyword, place: Place) -> Option<(TypeWords, Place)>
        ensures { option_map (λ w. words.Words w.0 w.1) result
            ≡ words.said_after word place (plain_said self.now) }
    {
        match self {
            Said::Nothing => Some((TypeWords::none().put(word)?, place)),
            Said::Words(words, from) => Some((words.put(word)?, *from)),
            _ => None,
        }
    }

    /// The place of the type: its tag, or its first word where it has none.
    pub fn place(&self) -> Place
        ensures { result ≡ place_of_base (named_by (plain_said self.now)) }
    {
        match self {
            Said::Nothing => NOWHERE,
            Said::Words(_, place)
            | Said::Struct { place, .. }
            | Said::Enum { place, .. }
            | Said::Defined(_, place) => *place,
        }
    }

    /// The type without `const`.
    #[tactic(auto, unfolding(sb_tree::specs::Plain::plain_type))]
    fn named(self) -> TypeName
        ensures { plain_type result ≡ named_by (plain_said self) }
    {
        match self {
            Said::Nothing => TypeName::same(NOWHERE),
            Said::Words(words, place) => TypeName::base(words.number(), place),
            Said::Struct {
                tag,
                members,
                place,
            } => TypeName::structure(tag, members, place),
            Said::Enum { tag, items, place } => TypeName::enumeration(tag, items, place),
            Said::Defined(name, place) => TypeName::named(name, place),
        }
    }

    /// The type, which is `depth` deep without `const`.
    #[tactic(auto, using(crate::proofs::Growing::depth_of_said))]
    pub fn based(self, alloc: Global, depth: u32, constant: bool) -> Result<Based, AllocError>
        requires known { depth ≡ spec.depth_said (plain_said self) }
        requires shallow { depth ≤ 200 }
        ensures tree { IfOk result
            (λ b. plain_type b.tree.value ≡ words.qualified constant (named_by (plain_said self))) }
        ensures known { IfOk result (λ b. IsBaseKnown b) }
        ensures depth { IfOk result (λ b. b.depth ≡ depth + spec.one_if constant) }
    {
        let tree = Box::new(alloc, self.named())?;
        if !constant {
            return Ok(Based { tree, depth });
        }
        Ok(Based {
            tree: Box::new(alloc, TypeName::constant(tree))?,
            depth: depth + 1,
        })
    }
}

impl Specified {
    /// No specifiers, where these typedef names are in force.
    pub fn none(types: Typedefs) -> Specified
        ensures none { plain_specified result ≡ spec.unspecified types }
        ensures known { IsKnown result }
        ensures flat { result.depth ≡ 1 }
        ensures free { result.constant ≡ false }
    {
        Specified {
            said: Said::Nothing,
            depth: 1,
            constant: false,
            storage: None,
            types,
        }
    }

    /// The same with `const`.
    pub fn constantly(self) -> Specified
        ensures same { plain_specified result ≡ spec.constantly (plain_specified self) }
        ensures depth { result.depth ≡ self.depth }
    {
        Specified {
            said: self.said,
            depth: self.depth,
            constant: true,
            storage: self.storage,
            types: self.types,
        }
    }

    /// The same with another type, which is not deep.
    pub fn saying(self, said: Said) -> Specified
        ensures same { plain_specified result
            ≡ spec.saying (plain_said said) (plain_specified self) }
        ensures depth { result.depth ≡ 1 }
    {
        Specified {
            said,
            depth: 1,
            constant: self.constant,
            storage: self.storage,
            types: self.types,
        }
    }

    /// The same with a word of storage.
    pub fn stored(self, storage: Storage) -> Specified
        ensures same { plain_specified result ≡ spec.stored storage (plain_specified self) }
        ensures depth { result.depth ≡ self.depth }
    {
        Specified {
            said: self.said,
            depth: self.depth,
            constant: self.constant,
            storage: Some(storage),
            types: self.types,
        }
    }

    /// How the declaration is stored.
    pub fn storage(&self) -> Storage
        ensures { result ≡ spec.storage_of (plain_specified self.now) }
    {
        match self.storage {
            Some(storage) => storage,
            None => Storage::Plain,
        }
    }

    /// The type as later declarators of the declaration have it.
    pub fn later(&self) -> Later
        ensures { plain_later result ≡ spec.again (type_in (plain_specified self.now)) }
    {
        match &self.said {
            Said::Nothing => self.again(Named::Same(NOWHERE)),
            Said::Words(words, place) => self.again(Named::Base(words.number(), *place)),
            Said::Struct {
                tag,
                members: None,
                place,
            } => self.again(Named::Struct(*tag, *place)),
            Said::Enum {
                tag,
                items: None,
                place,
            } => self.again(Named::Enum(*tag, *place)),
            Said::Struct { place, .. } | Said::Enum { place, .. } => Later {
                named: Named::Same(*place),
                constant: false,
            },
            Said::Defined(name, place) => self.again(Named::Defined(*name, *place)),
        }
    }

    /// A type with `const` where that was read.
    fn again(&self, named: Named) -> Later
        ensures named { result.named ≡ named }
        ensures constant { result.constant ≡ self.now.constant }
    {
        Later {
            named,
            constant: self.constant,
        }
    }
}

impl Later {
    #[tactic(auto, unfolding(sb_tree::specs::Plain::plain_type))]
    fn named(self) -> TypeName
        ensures { plain_type result ≡ plain_named self.named }
    {
        match self.named {
            Named::Base(code, place) => TypeName::base(code, place),
            Named::Struct(tag, place) => TypeName::structure(tag, None, place),
            Named::Enum(tag, place) => TypeName::enumeration(tag, None, place),
            Named::Defined(name, place) => TypeName::named(name, place),
            Named::Same(place) => TypeName::same(place),
        }
    }

    /// The type.
    pub fn based(self, alloc: Global) -> Result<Based, AllocError>
        ensures tree { IfOk result (λ b. plain_type b.tree.value ≡ plain_later self) }
        ensures known { IfOk result (λ b. IsBaseKnown b) }
        ensures depth { IfOk result (λ b. b.depth ≡ 1 + spec.one_if self.constant) }
    {
        let tree = Box::new(alloc, self.named())?;
        if !self.constant {
            return Ok(Based { tree, depth: 1 });
        }
        Ok(Based {
            tree: Box::new(alloc, TypeName::constant(tree))?,
            depth: 2,
        })
    }
}
