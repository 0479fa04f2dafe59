//! On which declarations annotations stand (SAL 2.0).
ghost use Rattle.std.specs.Prelude.{◌≡◌};
ghost use Rattle.sb_sal.specs.Spellings as spec;

use crate::bearer::Bearer;
use sb_sign::begins_with;

fn is_of_parameter(text: &[u8]) -> bool
    ensures { result ≡ spec.is_of_parameter text.now }
{
    begins_with(text, b"_In_")
        || begins_with(text, b"_Out_")
        || begins_with(text, b"_Inout_")
        || begins_with(text, b"_Outptr_")
}

fn is_of_member(text: &[u8]) -> bool
    ensures { result ≡ spec.is_of_member text.now }
{
    begins_with(text, b"_Field_")
}

fn is_of_function(text: &[u8]) -> bool
    ensures { result ≡ spec.is_of_function text.now }
{
    begins_with(text, b"_Ret_")
        || text == b"__drv_allocatesMem".as_slice()
        || text == b"_Success_".as_slice()
        || text == b"_Use_decl_annotations_".as_slice()
        || text == b"_Check_return_".as_slice()
        || text == b"_Must_inspect_result_".as_slice()
}

/// Whether an annotation that is spelled so may stand on a declaration of a kind. On other objects and on types none does,
/// and where the kind is not known yet each may.
pub(crate) fn may_stand_by(bearer: Bearer, text: &[u8]) -> bool
    ensures { result ≡ spec.may_stand_by bearer text.now }
{
    match bearer {
        Bearer::Parameter => !is_of_member(text) && !is_of_function(text),
        Bearer::Member => is_of_member(text),
        Bearer::Function => !is_of_member(text) && !is_of_parameter(text),
        Bearer::Object => false,
        Bearer::Any => true,
    }
}
