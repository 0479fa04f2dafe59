//! The spellings of annotations (SAL 2.0): an annotation of the core is known by the position of its spelling.
ghost use Rattle.std.specs.Prelude.{◌≡◌};
ghost use Rattle.sb_core.specs.Spellings.{position_of};

/// The spelling of each annotation.
pub const SPELLINGS: [&str; 54] = [
    "_In_",
    "_In_opt_",
    "_In_reads_",
    "_In_reads_opt_",
    "_In_reads_bytes_",
    "_In_reads_bytes_opt_",
    "_In_z_",
    "_In_opt_z_",
    "_Out_",
    "_Out_opt_",
    "_Out_writes_",
    "_Out_writes_opt_",
    "_Out_writes_bytes_",
    "_Out_writes_bytes_opt_",
    "_Out_writes_to_",
    "_Out_writes_to_opt_",
    "_Out_writes_bytes_to_",
    "_Out_writes_all_",
    "_Out_writes_all_opt_",
    "_Out_writes_bytes_all_",
    "_Out_writes_z_",
    "_Inout_",
    "_Inout_opt_",
    "_Inout_updates_",
    "_Inout_updates_opt_",
    "_Inout_updates_bytes_",
    "_Outptr_",
    "_Outptr_result_maybenull_",
    "_Outptr_result_buffer_",
    "_Ret_notnull_",
    "_Ret_maybenull_",
    "_Ret_writes_",
    "_Ret_writes_bytes_",
    "_Ret_writes_maybenull_",
    "_Ret_writes_bytes_maybenull_",
    "_Ret_z_",
    "_Field_size_",
    "_Field_size_part_",
    "_Field_size_full_",
    "_Field_size_opt_",
    "_In_range_",
    "_Out_range_",
    "_Ret_range_",
    "_Pre_satisfies_",
    "_Post_satisfies_",
    "_Success_",
    "_Always_",
    "_On_failure_",
    "_When_",
    "_At_",
    "_Use_decl_annotations_",
    "_Check_return_",
    "_Must_inspect_result_",
    "__drv_allocatesMem",
];

/// The position of a spelling, or None where no annotation is spelled so.
pub fn spelling_position(text: &[u8]) -> Option<u16>
    ensures { result ≡ position_of text.now }
{
    match SPELLINGS
        .iter()
        .position(|spelling| spelling.as_bytes() == text)
    {
        Some(position) => Some(position as u16),
        None => None,
    }
}
