//! The tree of a translation unit, at most 200 deep.
ghost use Rattle.std.specs.Prelude.{◌≡◌, ◌≤◌};
ghost use Rattle.sb_tree.specs.Depths.{decls_depth};

use crate::depth::depth_of_decls;
use crate::syntax::Decl;
use std::marker::Model;

/// The declarations of a translation unit (6.9), in order, whose depth is at most 200.
#[derive(Drop)]
pub struct Tree {
    decls: Vec<Decl>,
}

impl Model for Tree {
    ghost use Rattle.std.specs.Prelude.{◌≤◌, List};
    ghost use Rattle.std.specs.Coded.{coded_list};
    ghost use Rattle.sb_tree.specs.contracts.syntax.Decl as decl;
    ghost use Rattle.sb_tree.specs.declared.syntax.Decl.{Decl};
    ghost use Rattle.sb_tree.specs.Depths.{decls_depth};

    ghost Value = { List Decl };

    ghost coded = { coded_list decl.the_row.coded };

    ghost view = { λ t. t.decls.items };

    ghost invariant = { λ t. decls_depth t.decls.items ≤ 200 };
}

impl Tree {
    /// The tree of these declarations.
    pub fn new(decls: Vec<Decl>) -> Tree
        requires { decls_depth decls.items ≤ 200 }
        ensures { result ≡ decls.items }
    {
        Tree { decls }
    }

    /// The declarations, in order.
    pub fn decls(&self) -> &[Decl]
        ensures decls { result.now ≡ self.now }
        ensures depth { decls_depth result.now ≤ 200 }
    {
        self.decls.as_slice()
    }

    /// How deep the tree is: one more than the deepest node in its fields, for each node, and 0 of no declaration.
    pub fn depth(&self) -> u32
        ensures depth { result ≡ decls_depth self.now }
        ensures limit { result ≤ 200 }
    {
        depth_of_decls(&self.decls)
    }
}
