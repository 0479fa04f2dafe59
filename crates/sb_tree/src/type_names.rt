//! Types put together as they are written: each call makes one node of its parts (C99 6.7.2, 6.7.5, 6.7.6).
ghost use Rattle.std.specs.Prelude.{◌≡◌};
ghost use Rattle.std.specs.Option.{option_map};
ghost use Rattle.sb_tree.specs.Trees as tree;
ghost use Rattle.sb_tree.specs.Plain.{boxed, plain_expr, plain_type, plain_decls, plain_items, decl_list, listed, optional_expr, optional_decls, optional_items};

use crate::syntax::{Decl, Expr, Item, TypeName};
use sb_base::{Name, Place};

impl TypeName {
    /// A type that keywords name, by its code.
    #[tactic(auto, unfolding(crate::specs::Plain::plain_type))]
    pub fn base(code: u8, place: Place) -> TypeName
        ensures { plain_type result ≡ tree.Base code place }
    {
        TypeName::Base { code, place }
    }

    /// A type with `const`.
    #[tactic(auto, unfolding(crate::specs::Plain::plain_type))]
    pub fn constant(of: Box<TypeName>) -> TypeName
        ensures { plain_type result ≡ tree.Const (plain_type of.value) }
    {
        TypeName::Const(of)
    }

    /// A pointer to a type.
    #[tactic(auto, unfolding(crate::specs::Plain::plain_type))]
    pub fn pointer(to: Box<TypeName>, place: Place) -> TypeName
        ensures { plain_type result ≡ tree.Pointer (plain_type to.value) place }
    {
        TypeName::Pointer(to, place)
    }

    /// An array, with its length where one is written.
    #[tactic(auto, unfolding(crate::specs::Plain::plain_type, crate::specs::Plain::plain_expr))]
    pub fn array(of: Box<TypeName>, length: Option<Box<Expr>>, place: Place) -> TypeName
        ensures { plain_type result
            ≡ tree.Array (plain_type of.value)
            (optional_expr (option_map plain_expr (boxed length))) place }
    {
        TypeName::Array { of, length, place }
    }

    /// A function with its parameters.
    #[tactic(auto, unfolding(crate::specs::Plain::plain_type, crate::specs::Plain::plain_decl))]
    pub fn function(returned: Box<TypeName>, params: Vec<Decl>, place: Place) -> TypeName
        ensures { plain_type result
            ≡ tree.Function (plain_type returned.value) (decl_list (plain_decls params.items))
            place }
    {
        TypeName::Function {
            result: returned,
            params,
            place,
        }
    }

    /// A structure, with its members where they are written.
    #[tactic(auto, unfolding(crate::specs::Plain::plain_type, crate::specs::Plain::plain_decl))]
    pub fn structure(tag: Option<Name>, members: Option<Vec<Decl>>, place: Place) -> TypeName
        ensures { plain_type result
            ≡ tree.Struct tag (optional_decls (option_map plain_decls (listed members))) place }
    {
        TypeName::Struct {
            tag,
            members,
            place,
        }
    }

    /// An enumeration, with its constants where they are written.
    #[tactic(auto, unfolding(crate::specs::Plain::plain_type, crate::specs::Plain::plain_item))]
    pub fn enumeration(tag: Option<Name>, items: Option<Vec<Item>>, place: Place) -> TypeName
        ensures { plain_type result
            ≡ tree.Enum tag (optional_items (option_map plain_items (listed items))) place }
    {
        TypeName::Enum { tag, items, place }
    }

    /// A type that a typedef named.
    #[tactic(auto, unfolding(crate::specs::Plain::plain_type))]
    pub fn named(name: Name, place: Place) -> TypeName
        ensures { plain_type result ≡ tree.Defined name place }
    {
        TypeName::Named(name, place)
    }

    /// The type of the declaration before.
    #[tactic(auto, unfolding(crate::specs::Plain::plain_type))]
    pub fn same(place: Place) -> TypeName
        ensures { plain_type result ≡ tree.Same place }
    {
        TypeName::Same(place)
    }

    /// A declarator in parentheses.
    #[tactic(auto, unfolding(crate::specs::Plain::plain_type))]
    pub fn paren(of: Box<TypeName>, place: Place) -> TypeName
        ensures { plain_type result ≡ tree.ParenType (plain_type of.value) place }
    {
        TypeName::Paren(of, place)
    }
}
