//! How a call answers that tokens were not read.
ghost use Rattle.std.specs.Prelude.{◌≡◌, ◌≤◌, ◌+◌};
ghost use Rattle.sb_lexicon.specs.Meaning.{feature_number, stop_number};
ghost use Rattle.sb_lexicon.specs.Outcomes.{number_of, feature_of, left_of, place_of, IsStopBy};

use crate::reading::{Feature, ReadFault, Reason};
use sb_base::{Place, Refusal, Stop, Token};

impl Feature {
    /// Its place in the list of the features that are left out, from 1.
    fn number(self) -> u16
        ensures number { result ≡ feature_number self }
        ensures some { 1 ≤ result }
        ensures few { result ≤ 16 }
    {
        match self {
            Feature::Floating => 1,
            Feature::Union => 2,
            Feature::BitField => 3,
            Feature::FunctionPointer => 4,
            Feature::VariableArray => 5,
            Feature::VariableArguments => 6,
            Feature::Volatile => 7,
            Feature::Complex => 8,
            Feature::OldDefinition => 9,
            Feature::BackwardGoto => 10,
            Feature::GotoIntoBlock => 11,
            Feature::PointerCast => 12,
            Feature::NumberCast => 13,
            Feature::StructByValue => 14,
            Feature::Designated => 15,
            Feature::CompoundLiteral => 16,
        }
    }
}

impl Reason {
    /// The number of the refusal.
    fn number(self) -> u16
        ensures { result ≡ number_of (stop_number self) }
    {
        match self {
            Reason::Unexpected => 31,
            Reason::TooDeep => 32,
            Reason::Feature(_feature) => 33,
            Reason::Arguments | Reason::ArgumentBefore(_) => 35,
            Reason::UnknownAnnotation | Reason::UnknownAnnotationBefore => 36,
            Reason::Misplaced | Reason::MisplacedBefore(_) => 37,
            Reason::TooManyParameters => 38,
        }
    }

    /// The feature that the refusal names, or 0.
    fn feature(self) -> u16
        ensures { result ≡ feature_of (stop_number self) }
    {
        match self {
            Reason::Feature(feature) => feature.number(),
            _ => 0,
        }
    }

    /// Where tokens are refused of which so many are left where it showed.
    fn place(self, tokens: &[Token], left: usize) -> Place
        ensures { result ≡ place_of tokens.now (left_of (stop_number self) left) }
    {
        match self {
            Reason::ArgumentBefore(count) => place_before(tokens, left, count as usize),
            Reason::UnknownAnnotationBefore => place_before(tokens, left, 1),
            Reason::MisplacedBefore(count) => place_before(tokens, left, count),
            _ => place_at(tokens, left),
        }
    }
}

/// Where tokens are refused of which so many are left.
fn place_at(tokens: &[Token], left: usize) -> Place
    ensures { result ≡ place_of tokens.now left }
{
    match tokens.get(tokens.len().saturating_sub(left.max(1))) {
        Some(token) => token.place,
        None => Place {
            file: 0,
            line: 0,
            col: 0,
        },
    }
}

/// So many tokens before those of which so many are left.
fn place_before(tokens: &[Token], left: usize, before: usize) -> Place
    ensures { result ≡ place_of tokens.now (left + before) }
{
    place_at(tokens, left.saturating_add(before))
}

/// A fault of a reader in a list of tokens, as a call answers it.
pub fn stop_at(tokens: &[Token], fault: ReadFault) -> Stop
    ensures { IsStopBy tokens.now fault result }
{
    match fault {
        ReadFault::Refused { reason, left } => Stop::Refused(Refusal {
            number: reason.number(),
            place: reason.place(tokens, left),
            feature: reason.feature(),
        }),
        ReadFault::Memory => Stop::Memory,
    }
}
