//! The spellings of annotations (SAL 2.0), and which arguments each takes.
ghost use Rattle.std.specs.Prelude.{◌≡◌};
ghost use Rattle.sb_sign.specs.Spellings as spec;

/// What stands in the parentheses behind an annotation's name.
#[derive(Clone, Copy)]
pub enum Arguments {
    /// There are no parentheses.
    Nothing,
    Size,
    /// Two sizes, or the ends of a range.
    Sizes,
    Condition,
    /// The word `Mem`.
    Memory,
    /// An annotation.
    Note,
    /// A condition and an annotation.
    GuardedNote,
    /// A location and an annotation.
    LocatedNote,
}

/// Annotations of what is read.
fn of_input(text: &[u8]) -> Option<Arguments>
    ensures { result ≡ spec.of_input text.now }
{
    if text == b"_In_".as_slice() {
        Some(Arguments::Nothing)
    } else if text == b"_In_opt_".as_slice() {
        Some(Arguments::Nothing)
    } else if text == b"_In_z_".as_slice() {
        Some(Arguments::Nothing)
    } else if text == b"_In_opt_z_".as_slice() {
        Some(Arguments::Nothing)
    } else if text == b"_In_reads_".as_slice() {
        Some(Arguments::Size)
    } else if text == b"_In_reads_bytes_".as_slice() {
        Some(Arguments::Size)
    } else if text == b"_In_reads_opt_".as_slice() {
        Some(Arguments::Size)
    } else if text == b"_In_reads_bytes_opt_".as_slice() {
        Some(Arguments::Size)
    } else if text == b"_In_range_".as_slice() {
        Some(Arguments::Sizes)
    } else {
        None
    }
}

/// Annotations of what is changed in place, and of pointers that are set.
fn of_update(text: &[u8]) -> Option<Arguments>
    ensures { result ≡ spec.of_update text.now }
{
    if text == b"_Inout_".as_slice() {
        Some(Arguments::Nothing)
    } else if text == b"_Inout_opt_".as_slice() {
        Some(Arguments::Nothing)
    } else if text == b"_Outptr_".as_slice() {
        Some(Arguments::Nothing)
    } else if text == b"_Outptr_result_maybenull_".as_slice() {
        Some(Arguments::Nothing)
    } else if text == b"_Inout_updates_".as_slice() {
        Some(Arguments::Size)
    } else if text == b"_Inout_updates_bytes_".as_slice() {
        Some(Arguments::Size)
    } else if text == b"_Inout_updates_opt_".as_slice() {
        Some(Arguments::Size)
    } else if text == b"_Outptr_result_buffer_".as_slice() {
        Some(Arguments::Size)
    } else {
        None
    }
}

/// Annotations of what is written.
fn of_output(text: &[u8]) -> Option<Arguments>
    ensures { result ≡ spec.of_output text.now }
{
    if text == b"_Out_".as_slice() {
        Some(Arguments::Nothing)
    } else if text == b"_Out_opt_".as_slice() {
        Some(Arguments::Nothing)
    } else if text == b"_Out_writes_".as_slice() {
        Some(Arguments::Size)
    } else if text == b"_Out_writes_bytes_".as_slice() {
        Some(Arguments::Size)
    } else if text == b"_Out_writes_opt_".as_slice() {
        Some(Arguments::Size)
    } else if text == b"_Out_writes_bytes_opt_".as_slice() {
        Some(Arguments::Size)
    } else {
        of_output_extent(text)
    }
}

/// Annotations of what is written whole, up to a zero, in part, or within a range.
fn of_output_extent(text: &[u8]) -> Option<Arguments>
    ensures { result ≡ spec.of_output_extent text.now }
{
    if text == b"_Out_writes_all_".as_slice() {
        Some(Arguments::Size)
    } else if text == b"_Out_writes_bytes_all_".as_slice() {
        Some(Arguments::Size)
    } else if text == b"_Out_writes_all_opt_".as_slice() {
        Some(Arguments::Size)
    } else if text == b"_Out_writes_z_".as_slice() {
        Some(Arguments::Size)
    } else if text == b"_Out_writes_to_".as_slice() {
        Some(Arguments::Sizes)
    } else if text == b"_Out_writes_bytes_to_".as_slice() {
        Some(Arguments::Sizes)
    } else if text == b"_Out_writes_to_opt_".as_slice() {
        Some(Arguments::Sizes)
    } else if text == b"_Out_range_".as_slice() {
        Some(Arguments::Sizes)
    } else {
        None
    }
}

/// Annotations of results.
fn of_result(text: &[u8]) -> Option<Arguments>
    ensures { result ≡ spec.of_result text.now }
{
    if text == b"_Ret_notnull_".as_slice() {
        Some(Arguments::Nothing)
    } else if text == b"_Ret_maybenull_".as_slice() {
        Some(Arguments::Nothing)
    } else if text == b"_Ret_z_".as_slice() {
        Some(Arguments::Nothing)
    } else if text == b"_Ret_writes_".as_slice() {
        Some(Arguments::Size)
    } else if text == b"_Ret_writes_bytes_".as_slice() {
        Some(Arguments::Size)
    } else if text == b"_Ret_writes_maybenull_".as_slice() {
        Some(Arguments::Size)
    } else if text == b"_Ret_writes_bytes_maybenull_".as_slice() {
        Some(Arguments::Size)
    } else if text == b"_Ret_range_".as_slice() {
        Some(Arguments::Sizes)
    } else {
        None
    }
}

/// Annotations of members.
fn of_field(text: &[u8]) -> Option<Arguments>
    ensures { result ≡ spec.of_field text.now }
{
    if text == b"_Field_size_".as_slice() {
        Some(Arguments::Size)
    } else if text == b"_Field_size_full_".as_slice() {
        Some(Arguments::Size)
    } else if text == b"_Field_size_opt_".as_slice() {
        Some(Arguments::Size)
    } else if text == b"_Field_size_part_".as_slice() {
        Some(Arguments::Sizes)
    } else {
        None
    }
}

/// Conditions, and annotations around others.
fn of_condition(text: &[u8]) -> Option<Arguments>
    ensures { result ≡ spec.of_condition text.now }
{
    if text == b"_Use_decl_annotations_".as_slice() {
        Some(Arguments::Nothing)
    } else if text == b"_Check_return_".as_slice() {
        Some(Arguments::Nothing)
    } else if text == b"_Must_inspect_result_".as_slice() {
        Some(Arguments::Nothing)
    } else if text == b"_Pre_satisfies_".as_slice() {
        Some(Arguments::Condition)
    } else if text == b"_Post_satisfies_".as_slice() {
        Some(Arguments::Condition)
    } else if text == b"_Success_".as_slice() {
        Some(Arguments::Condition)
    } else if text == b"__drv_allocatesMem".as_slice() {
        Some(Arguments::Memory)
    } else if text == b"_Always_".as_slice() {
        Some(Arguments::Note)
    } else if text == b"_On_failure_".as_slice() {
        Some(Arguments::Note)
    } else if text == b"_When_".as_slice() {
        Some(Arguments::GuardedNote)
    } else if text == b"_At_".as_slice() {
        Some(Arguments::LocatedNote)
    } else {
        None
    }
}

/// The arguments of the annotation that is spelled so.
pub fn arguments_in(text: &[u8]) -> Option<Arguments>
    ensures { result ≡ spec.arguments_in text.now }
{
    of_input(text)
        .or_else(|| of_update(text))
        .or_else(|| of_output(text))
        .or_else(|| of_result(text))
        .or_else(|| of_field(text))
        .or_else(|| of_condition(text))
}

// ---- words that look like an annotation

fn is_capital(byte: u8) -> bool
    ensures { result ≡ spec.is_capital byte }
{
    byte.is_ascii_uppercase()
}

fn begins_reserved(text: &[u8]) -> bool
    ensures { result ≡ spec.begins_reserved text.now }
{
    match text {
        [first, second, ..] => *first == b'_' && is_capital(*second),
        _ => false,
    }
}

/// Whether a text begins with another one.
#[tactic(auto, using(crate::proofs::Words::begins_so))]
pub fn begins_with(text: &[u8], front: &[u8]) -> bool
    ensures { result ≡ spec.begins_with text.now front.now }
{
    text.starts_with(front)
}

/// Whether a word looks like an annotation: `_` and a capital letter, or `__drv_`.
pub fn looks_like_note(text: &[u8]) -> bool
    ensures { result ≡ spec.looks_like_note text.now }
{
    begins_reserved(text) || begins_with(text, b"__drv_")
}
