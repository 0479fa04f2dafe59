//! The base of a struct of the bases of its members.
ghost use Rattle.std.specs.Prelude.{◌≡◌, ◌<◌, ◌≤◌, ◌+◌, MatchOption};
ghost use Rattle.std.specs.List.{All};
ghost use Rattle.sb_core.specs.Layout as core;
ghost use Rattle.sb_layout.specs.Faults.{IsSmall};

use sb_core::Base;

/// A type has fewer bytes.
pub(crate) const LIMIT: u64 = 2_147_483_648;

/// The next multiple of an alignment.
pub(crate) fn rounded(at: u64, align: u64) -> u64
    requires small { at < 8589934592 }
    requires positive { 0 < align }
    requires most { align ≤ 32 }
    ensures gives { result ≡ core.rounded at align }
    ensures from { at ≤ result }
    ensures near { result < at + align }
{
    (at + (align - 1)) / align * align
}

/// Where members end, if that is below the limit.
fn end_of(bases: &[Base]) -> Option<u64>
    requires small { All IsSmall bases.now }
    ensures { MatchOption result (2147483648 ≤ core.end_from 0 bases.now)
        (λ end. (end ≡ core.end_from 0 bases.now) × (end < 2147483648)) }
{
    let mut end = 0;
    for b in bases {
        end = rounded(end, b.align) + b.size;
        if end >= LIMIT {
            return None;
        }
    }
    Some(end)
}

/// The greatest alignment of members, at least 1.
pub(crate) fn greatest_align(bases: &[Base]) -> u64
    requires small { All IsSmall bases.now }
    ensures gives { result ≡ core.greatest_align 1 bases.now }
    ensures positive { 0 < result }
    ensures most { result ≤ 32 }
{
    let mut most = 1;
    for b in bases {
        most = most.max(b.align);
    }
    most
}

/// The base of a struct whose members end there, if it is below the limit.
fn struct_to(end: u64, align: u64) -> Option<Base>
    requires end { end < 2147483648 }
    requires positive { 0 < align }
    requires most { align ≤ 32 }
    ensures { MatchOption result (2147483648 ≤ core.rounded end align)
        (λ b. (b ≡ record { size = core.rounded end align; align = align }) × IsSmall b) }
{
    let size = rounded(end, align);
    if size < LIMIT {
        Some(Base { size, align })
    } else {
        None
    }
}

/// The base of a struct of such members, if it is below the limit.
pub(crate) fn struct_of(bases: &[Base]) -> Option<Base>
    requires small { All IsSmall bases.now }
    ensures { MatchOption result (2147483648 ≤ (core.struct_of bases.now).size)
        (λ b. (b ≡ core.struct_of bases.now) × IsSmall b) }
{
    let align = greatest_align(bases);
    match end_of(bases) {
        Some(end) => struct_to(end, align),
        None => None,
    }
}

/// The base of an array, if it is below the limit.
pub(crate) fn array_of(count: u64, of: Base) -> Option<Base>
    requires small { IsSmall of }
    ensures { MatchOption result (2147483648 ≤ (core.array_of count of).size)
        (λ b. (b ≡ core.array_of count of) × IsSmall b) }
{
    let size = count.checked_mul(of.size)?;
    if size < LIMIT {
        Some(Base {
            size,
            align: of.align,
        })
    } else {
        None
    }
}
