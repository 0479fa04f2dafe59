//! Parsers over lists of tokens, as functions, and the laws that each way of putting them together keeps: for
//! grammars whose readers in code compute the same as such a parser.
//!
//! `specs/Parser.antt` has the parsers, `specs/Lawful.antt` what a parser owes the relation between texts and
//! values that it reads by, and `specs/Read.antt` what that comes to in the subject's words: one value a text,
//! the longest text, the place of a refusal. `proofs/` has the laws, for any type of tokens and of values.
#![tactic(auto)]

ghost use Rattle.std.specs.Prelude.{◌≡◌, ℕ, Bool, List, []};
ghost use Rattle.sb_parse.specs.Parser.{Parser, done, stop, whole};
ghost use Rattle.sb_parse.specs.Lawful.{Lawful};
ghost use Rattle.sb_parse.specs.Read.{HasOneTree, IsLongest, IsRefused, tested};

/// Does nothing. Its clauses are the main laws, at tokens and values that are numbers and a relation that a test
/// decides: no text has two values, a parser reads the longest text that a list begins with, and where it
/// refuses a list, no text goes on with the token at which it does; the same of a list that has to be read whole;
/// and a list is refused at one place, and never where it is a text.
pub fn laws()
    ensures one_tree { (is : List ℕ → ℕ → Bool) (more : ℕ → ℕ → Bool) (p : Parser ℕ ℕ)
        → Lawful (tested is) more p → HasOneTree (tested is) }
    ensures longest { (is : List ℕ → ℕ → Bool) (more : ℕ → ℕ → Bool) (p : Parser ℕ ℕ) → Lawful (tested is) more p →
        (ts : List ℕ) (a : ℕ) (rest : List ℕ) → p ts ≡ done a rest → IsLongest (tested is) ts a rest }
    ensures refused { (is : List ℕ → ℕ → Bool) (more : ℕ → ℕ → Bool) (p : Parser ℕ ℕ) → Lawful (tested is) more p →
        (ts : List ℕ) (n left : ℕ) → p ts ≡ stop n left → IsRefused (tested is) ts left }
    ensures whole_read { (is : List ℕ → ℕ → Bool) (more : ℕ → ℕ → Bool) (p : Parser ℕ ℕ) → Lawful (tested is) more p →
        (n : ℕ) (ts : List ℕ) (a : ℕ) → tested is ts a → whole n p ts ≡ done a [] }
    ensures whole_refused { (is : List ℕ → ℕ → Bool) (more : ℕ → ℕ → Bool) (p : Parser ℕ ℕ) → Lawful (tested is) more p →
        (n : ℕ) (ts : List ℕ) (m left : ℕ) → whole n p ts ≡ stop m left → IsRefused (tested is) ts left }
    ensures one_place { (is : List ℕ → ℕ → Bool) (ts : List ℕ) (left other : ℕ)
        → IsRefused (tested is) ts left → IsRefused (tested is) ts other → left ≡ other }
    ensures none_is_refused { (is : List ℕ → ℕ → Bool) (ts : List ℕ) (left a : ℕ)
        → IsRefused (tested is) ts left → tested is ts a → ⊥ }
{}
