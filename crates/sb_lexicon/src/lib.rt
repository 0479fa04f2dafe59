//! What tokens are to the readers of C's grammar: by the table of names and the typedef names in force (C99 6.4,
//! 6.7.7), as operators (6.5) and as specifiers of a type name (6.7.2, 6.7.3); and why readers stop.
#![tactic(auto)]

mod annotations;
mod lexicon;
mod operators;
mod reading;
mod specifiers;
mod stops;
mod words;

pub use annotations::{arguments_of, begins_note, is_listed, is_unlisted, word_of};
pub use lexicon::{
    Lexicon, begins_type, is_keyword, is_keyword_next, is_mark, is_mark_next, is_qualifier,
    is_qualifier_next, is_type_name, is_type_name_next, is_type_next, is_type_second, is_type_word,
    is_type_word_next, name_of, names_type,
};
pub use operators::{
    Suffix, binary_at, is_assignment, is_assignment_next, is_operator_next, is_prefix,
    is_prefix_next, is_step, is_step_next, is_suffix, is_suffix_next, take_assignment,
    take_operator, take_prefix, take_step, take_suffix,
};
pub use reading::{
    Feature, Read, ReadFault, Reason, take, take_keyword, take_mark, take_member, take_type_name,
    tokens_from,
};
pub use specifiers::{
    Said, Specifiers, defined, is_complex_next, is_floating_next, is_tag_word_next, is_union_next,
    keyword_specifiers, names_type_next,
};
pub use stops::stop_at;
pub use words::{Kind, Length, Signedness, TypeWords};
