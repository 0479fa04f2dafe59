//! The readers of parameters.

ghost use Rattle.std.specs.Prelude.{◌≡◌, ◌≤◌, ◌+◌, length, IfOk, IfErr};
ghost use Rattle.sb_function.specs.declared.reading.ReadFault.TheVariants.{Memory};
ghost use Rattle.sb_function.specs.Grammar.{is_among};
ghost use Rattle.sb_function.specs.Headers.{seen_of};
ghost use Rattle.sb_function.specs.Marks.{name_of};
ghost use Rattle.sb_function.specs.Params as spec;

use crate::lexeme::Lexeme;
use crate::reading::ReadFault;
use crate::words::is_name;
use crate::written::{Written, WrittenKind};
use sb_base::Name;

/// The parameters so far, and the sizes that none of them has as its name.
#[derive(Drop)]
pub(crate) struct Header {
    pub(crate) written: Vec<Written>,
    pub(crate) pending: Vec<Name>,
}

fn is_among(name: Name, names: &[Name]) -> bool
    ensures among { result ≡ is_among name names.now }
{
    for other in names {
        if is_name(name, *other) {
            return true;
        }
    }
    false
}

fn is_written(name: Name, written: &[Written]) -> bool
    ensures among { result ≡ is_among name (spec.written_names written.now) }
{
    for other in written {
        if is_name(name, other.name) {
            return true;
        }
    }
    false
}

fn counts(kind: WrittenKind) -> bool
    ensures counts { result ≡ spec.counts kind }
{
    match kind {
        WrittenKind::Int | WrittenKind::Unsigned => true,
        WrittenKind::OutWrites(_size) => false,
    }
}

fn has_number(name: Name, written: &[Written]) -> bool
    ensures has { result ≡ spec.has_number name written.now }
{
    for other in written {
        if is_name(name, other.name) && counts(other.kind) {
            return true;
        }
    }
    false
}

impl Header {
    fn is_known(&self, name: Name) -> bool
        ensures known { result ≡ spec.is_known (seen_of self.now) name }
    {
        has_number(name, &self.written) || is_among(name, &self.pending)
    }

    fn may_be_number(&self, name: Name, room: usize) -> bool
        ensures may { result ≡ spec.number_name room (seen_of self.now) name }
    {
        !is_written(name, &self.written)
            && (is_among(name, &self.pending) || self.pending.len() <= room)
    }

    fn may_be_size(&self, name: Name, room: usize) -> bool
        ensures may { result ≡ spec.size_name room (seen_of self.now) name }
    {
        self.is_known(name) || (!is_written(name, &self.written) && self.pending.len() < room)
    }

    fn may_be_pointer(&self, size: Name, name: Name) -> bool
        ensures may { result ≡ spec.pointer_name (seen_of self.now) size name }
    {
        !is_written(name, &self.written) && !self.is_pending_with(size, name)
    }

    /// A name is pending, or would be as the size.
    #[tactic(auto, using(crate::proofs::Steps::Headers::among_with))]
    fn is_pending_with(&self, size: Name, name: Name) -> bool
        ensures pending { result ≡ is_among name (spec.pending_with (seen_of self.now) size) }
    {
        is_among(name, &self.pending) || (!self.is_known(size) && is_name(name, size))
    }

    pub(crate) fn number_at(&self, lexeme: Lexeme, room: usize) -> Option<Name>
        ensures name { result ≡ spec.name_if (spec.number_name room (seen_of self.now))
            (name_of lexeme) }
    {
        let name = name_at(lexeme)?;
        if self.may_be_number(name, room) {
            Some(name)
        } else {
            None
        }
    }

    pub(crate) fn size_at(&self, lexeme: Lexeme, room: usize) -> Option<Name>
        ensures name { result ≡ spec.name_if (spec.size_name room (seen_of self.now))
            (name_of lexeme) }
    {
        let name = name_at(lexeme)?;
        if self.may_be_size(name, room) {
            Some(name)
        } else {
            None
        }
    }

    pub(crate) fn pointer_at(&self, lexeme: Lexeme, size: Name) -> Option<Name>
        ensures name { result ≡ spec.name_if (spec.pointer_name (seen_of self.now) size)
            (name_of lexeme) }
    {
        let name = name_at(lexeme)?;
        if self.may_be_pointer(size, name) {
            Some(name)
        } else {
            None
        }
    }

    /// The header with a number parameter more.
    pub(crate) fn with_number(self, kind: WrittenKind, name: Name) -> Result<Header, ReadFault>
        ensures with { IfOk result (λ h. seen_of h ≡ spec.with_number (seen_of self) kind name) }
        ensures longer { IfOk result (λ h. length h.written.items ≡ length self.written.items + 1) }
        ensures err { IfErr result (λ e. e ≡ Memory) }
    {
        let Header {
            mut written,
            mut pending,
        } = self;
        written.push(Written { name, kind })?;
        drop_name(&mut pending, name);
        Ok(Header { written, pending })
    }

    /// The header with a pointer parameter more.
    pub(crate) fn with_pointer(self, size: Name, name: Name) -> Result<Header, ReadFault>
        ensures with { IfOk result (λ h. seen_of h ≡ spec.with_pointer (seen_of self) size name) }
        ensures longer { IfOk result (λ h. length h.written.items ≡ length self.written.items + 1) }
        ensures err { IfErr result (λ e. e ≡ Memory) }
    {
        let is_new = !self.is_known(size);
        let Header {
            mut written,
            mut pending,
        } = self;
        let kind = WrittenKind::OutWrites(size);
        written.push(Written { name, kind })?;
        if is_new {
            pending.insert(0, size)?;
        }
        Ok(Header { written, pending })
    }
}

#[tactic(auto, unfolding(crate::specs::Marks::name_of))]
pub(crate) fn name_at(lexeme: Lexeme) -> Option<Name>
    ensures name { result ≡ name_of lexeme }
{
    match lexeme {
        Lexeme::Named(name) => Some(name),
        _ => None,
    }
}

/// Where the name stands first, and the length of the list where it does not.
pub(crate) fn place_of(name: Name, names: &[Name]) -> usize
    ensures place { result ≡ spec.place_of name names.now }
    ensures within { result ≤ length names.now }
{
    for (place, other) in names.iter().enumerate() {
        if is_name(name, *other) {
            return place;
        }
    }
    names.len()
}

/// Takes the first of this name out.
#[tactic(auto, using(crate::proofs::Steps::Headers::goes_at, crate::proofs::Steps::Headers::stays_at))]
fn drop_name(names: &mut Vec<Name>, name: Name)
    ensures dropped { names.new.items ≡ spec.without name names.old.items }
{
    let place = place_of(name, names);
    if place < names.len() {
        names.remove(place);
    }
}
