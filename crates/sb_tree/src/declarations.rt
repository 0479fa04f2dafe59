//! Declarations put together of their parts: constants, annotations, initialisers and declarators (C99 6.7, 6.9).
ghost use Rattle.std.specs.Prelude.{◌≡◌};
ghost use Rattle.std.specs.Option.{option_map};
ghost use Rattle.sb_tree.specs.Trees as tree;
ghost use Rattle.sb_tree.specs.Plain.{plain_arg, plain_args, plain_decl, plain_expr, plain_init, plain_inits, plain_item, plain_note, plain_notes, plain_stmt, plain_type, arg_list, init_list, note_list, optional_expr, optional_init, optional_stmt};

use crate::syntax::{Arg, Decl, Expr, Init, Item, Note, Stmt, Storage, TypeName};
use sb_base::{Name, Place};

impl Item {
    /// A constant of an enumeration, with its value where one is written.
    #[tactic(auto, unfolding(crate::specs::Plain::plain_item, crate::specs::Plain::plain_expr))]
    pub fn new(name: Name, value: Option<Expr>, place: Place) -> Item
        ensures { plain_item result ≡ tree.Item name (optional_expr (option_map plain_expr value))
            place }
    {
        Item { name, value, place }
    }
}

impl Note {
    /// An annotation with its arguments.
    #[tactic(auto, unfolding(crate::specs::Plain::plain_note, crate::specs::Plain::plain_arg))]
    pub fn new(name: Name, args: Vec<Arg>, place: Place) -> Note
        ensures { plain_note result ≡ tree.Note name (arg_list (plain_args args.items)) place }
    {
        Note { name, args, place }
    }
}

impl Arg {
    /// An expression as an argument of an annotation.
    #[tactic(auto, unfolding(crate::specs::Plain::plain_arg, crate::specs::Plain::plain_expr))]
    pub fn expression(value: Expr) -> Arg
        ensures { plain_arg result ≡ tree.ExprArg (plain_expr value) }
    {
        Arg::Expr(value)
    }

    /// An annotation as an argument of another.
    #[tactic(auto, unfolding(crate::specs::Plain::plain_arg, crate::specs::Plain::plain_note))]
    pub fn annotation(note: Box<Note>) -> Arg
        ensures { plain_arg result ≡ tree.NoteArg (plain_note note.value) }
    {
        Arg::Note(note)
    }
}

impl Init {
    /// An expression as an initialiser.
    #[tactic(auto, unfolding(crate::specs::Plain::plain_init, crate::specs::Plain::plain_expr))]
    pub fn value(value: Expr) -> Init
        ensures { plain_init result ≡ tree.One (plain_expr value) }
    {
        Init::One(value)
    }

    /// Initialisers in braces.
    #[tactic(auto, unfolding(crate::specs::Plain::plain_init))]
    pub fn braces(list: Vec<Init>, place: Place) -> Init
        ensures { plain_init result ≡ tree.Braces (init_list (plain_inits list.items)) place }
    {
        Init::List(list, place)
    }
}

impl Decl {
    /// A declarator with its type; with its initialiser, or the body of a function, where there is one.
    #[tactic(auto, unfolding(crate::specs::Plain::plain_decl, crate::specs::Plain::plain_type, crate::specs::Plain::plain_note, crate::specs::Plain::plain_init, crate::specs::Plain::plain_stmt))]
    pub fn new(
        notes: Vec<Note>,
        storage: Storage,
        type_name: TypeName,
        name: Option<Name>,
        place: Place,
        init: Option<Init>,
        body: Option<Stmt>,
    ) -> Decl
        ensures { plain_decl result ≡ tree.Decl (note_list (plain_notes notes.items)) storage
            (plain_type type_name) name place (optional_init (option_map plain_init init))
            (optional_stmt (option_map plain_stmt body)) }
    {
        Decl {
            notes,
            storage,
            type_name,
            name,
            place,
            init,
            body,
        }
    }
}
