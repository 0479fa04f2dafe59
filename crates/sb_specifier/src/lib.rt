//! What the specifiers of declarations are made of (C99 6.7.1 to 6.7.4): words, typedef names in force, enumerations, the sizes of arrays, and where a declaration has no room.
#![tactic(auto)]

mod barring;
mod enumerations;
mod seat;
mod sizes;
mod specified;
mod tags;
mod tokens;
mod words;

pub use barring::{barred, barred_by, begins_declaration, begins_parameter};
pub use enumerations::{enumeration, room_inside};
pub use seat::Seat;
pub use sizes::array_size;
pub use specified::{Based, Later, NOWHERE, Named, Said, Specified, declare};
pub use tags::{is_tag_next, past_tag, tagged_enumeration};
pub use tokens::{
    comma_behind, is_mark_next, is_name, is_name_next, is_other_next, is_specifier_next,
    is_storage_word, take_keyword, take_mark, take_name,
};
pub use words::{completed, names_type, tagless, typedef_name};
