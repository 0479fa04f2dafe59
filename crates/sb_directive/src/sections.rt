//! Which groups of an if-section are read, as C99 6.10.1 has it.
ghost use Rattle.std.specs.Prelude.{◌≡◌, ◌↔◌, ◌⊎◌, ◌++◌, ℕ, Bool, true, false, List, [], All, length, Option, Some, None, is_some};
ghost use Rattle.sb_directive.specs.Asking.{asks};
ghost use Rattle.sb_directive.specs.Branches.{is_read};
ghost use Rattle.sb_directive.specs.Lines.{place_of};
ghost use Rattle.sb_directive.specs.Sections.{Section, Stands, IsSection, IsChosen, Turn, behind, behind_all, begins_section, conditions, directive, first_true, is_evaluated, lines, nested_lines};
ghost use Rattle.sb_directive.specs.declared.asks.Asks.TheVariants as asked;
ghost use Rattle.sb_directive.specs.declared.directive.Branch.{Branch};
ghost use Rattle.sb_directive.specs.declared.directive.Directive.TheVariants as word;

/// Does nothing. Its clauses are the laws of if-sections, which the branches behind their lines keep:
///
/// - where the text around a section is read, the group is read whose condition is the first that holds, whatever
///   stands behind it, and that of the `#else` where none holds; it is the only one, and where the text around is
///   skipped, none is;
/// - the expression of an `#elif` is evaluated where that text is read and no condition before it holds, that of an
///   `#if` where it is read;
/// - an `#if` is not refused, nor is any first line in text that is skipped; behind a first line that is not, no
///   `#elif` is refused and no first `#else`, and behind an `#else` each `#elif` and `#else` is;
/// - behind the `#endif` the branches are those from before the section;
/// - text in sections is read where in each of them the group around it is the one that is read.
pub fn laws()
    ensures group { (s : Section) (bs now : List Branch) (others : List Bool) →
        Stands s bs now → s.last ≡ None →
        (is_read now ≡ true)
        ↔ ((is_read bs ≡ true) × (first_true (conditions s ++ others) ≡ Some (length s.elifs))) }
    ensures otherwise { (s : Section) (bs now : List Branch) (e : Turn) →
        Stands s bs now → s.last ≡ Some e →
        (is_read now ≡ true) ↔ ((is_read bs ≡ true) × (first_true (conditions s) ≡ None)) }
    ensures one_group { (s u : Section) (bs now later : List Branch) (others more : List Bool) →
        Stands s bs now → Stands u bs later → s.last ≡ None → u.last ≡ None →
        conditions s ++ others ≡ conditions u ++ more →
        is_read now ≡ true → is_read later ≡ true → length s.elifs ≡ length u.elifs }
    ensures or_the_last { (s u : Section) (bs now later : List Branch) (others : List Bool) (e : Turn) →
        Stands s bs now → Stands u bs later → s.last ≡ None → u.last ≡ Some e →
        conditions s ++ others ≡ conditions u →
        is_read now ≡ true → is_read later ≡ true → ⊥ }
    ensures evaluated { (s : Section) (bs now : List Branch) (t : Turn) →
        Stands s bs now → s.last ≡ None → directive t ≡ word.Elif →
        (is_evaluated (asks t.texts t.table now t.line) ≡ true)
        ↔ ((is_read bs ≡ true) × (first_true (conditions s) ≡ None)) }
    ensures evaluated_first { (bs : List Branch) (t : Turn) → directive t ≡ word.If →
        is_evaluated (asks t.texts t.table bs t.line) ≡ is_read bs }
    ensures begun { (bs : List Branch) (t : Turn) → begins_section (directive t) →
        (directive t ≡ word.If) ⊎ (is_read bs ≡ false) → is_some (behind bs t) ≡ true }
    ensures accepted { (s : Section) (bs middle : List Branch) →
        IsSection s → behind bs s.first ≡ Some middle →
        (now : List Branch) × (behind_all (lines s) bs ≡ Some now) }
    ensures refused { (s : Section) (bs now : List Branch) (e t : Turn) →
        Stands s bs now → s.last ≡ Some e →
        (directive t ≡ word.Elif) ⊎ (directive t ≡ word.Else) →
        asks t.texts t.table now t.line ≡ asked.Refused 25 (place_of t.line) }
    ensures ended { (s : Section) (bs now : List Branch) (t : Turn) →
        Stands s bs now → directive t ≡ word.Endif → behind now t ≡ Some bs }
    ensures nested { (ss : List Section) (now : List Branch) →
        All IsSection ss → behind_all (nested_lines ss) [] ≡ Some now →
        (is_read now ≡ true) ↔ All IsChosen ss }
{}
