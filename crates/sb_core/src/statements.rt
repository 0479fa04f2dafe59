//! Statements put together: each call makes one node of its parts.
ghost use Rattle.std.specs.Prelude.{◌≡◌};
ghost use Rattle.std.specs.Option.{option_map};
ghost use Rattle.sb_core.specs.Trees as core;
ghost use Rattle.sb_core.specs.Plain.{plain_expression, plain_expressions, plain_entries, plain_statement, plain_statements, plain_section, plain_sections, statement_list, section_list};

use crate::expression::CoreExpr;
use crate::statement::{CoreStmt, Entry, Section};
use crate::types::TypeId;
use sb_base::Place;

impl CoreStmt {
    /// A plain local takes a value.
    #[tactic(auto, unfolding(crate::specs::Plain::plain_statement, crate::specs::Plain::plain_expression))]
    pub fn set(local: u32, value: CoreExpr) -> CoreStmt
        ensures { plain_statement result ≡ core.Set local (plain_expression value) }
    {
        CoreStmt::Set { local, value }
    }

    /// A value is written at a pointer.
    #[tactic(auto, unfolding(crate::specs::Plain::plain_statement, crate::specs::Plain::plain_expression))]
    pub fn store(
        at: CoreExpr,
        value: CoreExpr,
        kind: TypeId,
        size: u64,
        pad: u64,
        place: Place,
    ) -> CoreStmt
        ensures { plain_statement result ≡ core.Store (plain_expression at) (plain_expression value)
            kind size pad place }
    {
        CoreStmt::Store {
            at,
            value,
            kind,
            size,
            pad,
            place,
        }
    }

    /// A struct is assigned (6.5.16.1).
    #[tactic(auto, unfolding(crate::specs::Plain::plain_statement, crate::specs::Plain::plain_expression))]
    pub fn copy(
        to: CoreExpr,
        from: CoreExpr,
        size: u64,
        to_place: Place,
        from_place: Place,
    ) -> CoreStmt
        ensures { plain_statement result ≡ core.Copy (plain_expression to) (plain_expression from)
            size to_place from_place }
    {
        CoreStmt::Copy {
            to,
            from,
            size,
            to_place,
            from_place,
        }
    }

    /// A local is initialised (6.7.8).
    #[tactic(auto, unfolding(crate::specs::Plain::plain_statement, crate::specs::Plain::plain_expression))]
    pub fn init(local: u32, values: Vec<Entry>) -> CoreStmt
        ensures { plain_statement result ≡ core.Init local (plain_entries values.items) }
    {
        CoreStmt::Init { local, values }
    }

    /// A call (6.5.2.2).
    #[tactic(auto, unfolding(crate::specs::Plain::plain_statement, crate::specs::Plain::plain_expression))]
    pub fn call(
        function: u32,
        args: Vec<CoreExpr>,
        places: Vec<Place>,
        into: Option<u32>,
        place: Place,
    ) -> CoreStmt
        ensures { plain_statement result ≡ core.Call function (plain_expressions args.items)
            places.items into place }
    {
        CoreStmt::Call {
            function,
            args,
            places,
            into,
            place,
        }
    }

    /// `if` (6.8.4.1).
    #[tactic(auto, unfolding(crate::specs::Plain::plain_statement, crate::specs::Plain::plain_expression))]
    pub fn if_else(test: CoreExpr, yes: Box<CoreStmt>, no: Box<CoreStmt>) -> CoreStmt
        ensures { plain_statement result
            ≡ core.If (plain_expression test) (plain_statement yes.value)
            (plain_statement no.value) }
    {
        CoreStmt::If { test, yes, no }
    }

    /// A loop (6.8.5).
    #[tactic(auto, unfolding(crate::specs::Plain::plain_statement, crate::specs::Plain::plain_expression))]
    pub fn repeat(
        body_first: bool,
        before: Vec<CoreStmt>,
        test: CoreExpr,
        body: Box<CoreStmt>,
        after: Vec<CoreStmt>,
    ) -> CoreStmt
        ensures { plain_statement result
            ≡ core.Loop body_first (statement_list (plain_statements before.items))
            (plain_expression test) (plain_statement body.value)
            (statement_list (plain_statements after.items)) }
    {
        CoreStmt::Loop {
            body_first,
            before,
            test,
            body,
            after,
        }
    }

    /// `switch` (6.8.4.2).
    #[tactic(auto, unfolding(crate::specs::Plain::plain_statement, crate::specs::Plain::plain_expression))]
    pub fn switch(on: CoreExpr, cases: Vec<(Option<i128>, u32)>, body: Box<CoreStmt>) -> CoreStmt
        ensures { plain_statement result ≡ core.Switch (plain_expression on) cases.items
            (plain_statement body.value) }
    {
        CoreStmt::Switch { on, cases, body }
    }

    /// `break` (6.8.6.3).
    #[tactic(auto, unfolding(crate::specs::Plain::plain_statement, crate::specs::Plain::plain_expression))]
    pub fn break_out() -> CoreStmt
        ensures { plain_statement result ≡ core.Break }
    {
        CoreStmt::Break
    }

    /// `continue` (6.8.6.2).
    #[tactic(auto, unfolding(crate::specs::Plain::plain_statement, crate::specs::Plain::plain_expression))]
    pub fn continue_on() -> CoreStmt
        ensures { plain_statement result ≡ core.Continue }
    {
        CoreStmt::Continue
    }

    /// A jump to a label (6.8.6.1).
    #[tactic(auto, unfolding(crate::specs::Plain::plain_statement, crate::specs::Plain::plain_expression))]
    pub fn goto(label: u32) -> CoreStmt
        ensures { plain_statement result ≡ core.Goto label }
    {
        CoreStmt::Goto(label)
    }

    /// `return` (6.8.6.4).
    #[tactic(auto, unfolding(crate::specs::Plain::plain_statement, crate::specs::Plain::plain_expression))]
    pub fn give_back(value: Option<CoreExpr>, place: Place) -> CoreStmt
        ensures { plain_statement result ≡ core.Return (option_map plain_expression value) place }
    {
        CoreStmt::Return { value, place }
    }

    /// A block with its locals (6.8.2).
    #[tactic(auto, unfolding(crate::specs::Plain::plain_statement, crate::specs::Plain::plain_section))]
    pub fn block(locals: Vec<u32>, sections: Vec<Section>) -> CoreStmt
        ensures { plain_statement result
            ≡ core.Block locals.items (section_list (plain_sections sections.items)) }
    {
        CoreStmt::Block { locals, sections }
    }

    /// The end of a statement of the text.
    #[tactic(auto, unfolding(crate::specs::Plain::plain_statement, crate::specs::Plain::plain_expression))]
    pub fn end(temporaries: Vec<u32>) -> CoreStmt
        ensures { plain_statement result ≡ core.End temporaries.items }
    {
        CoreStmt::End(temporaries)
    }
}

impl Section {
    /// Statements behind a label.
    #[tactic(auto, unfolding(crate::specs::Plain::plain_section, crate::specs::Plain::plain_statement))]
    pub fn new(label: Option<u32>, list: Vec<CoreStmt>) -> Section
        ensures { plain_section result
            ≡ core.Section label (statement_list (plain_statements list.items)) }
    {
        Section { label, list }
    }
}
