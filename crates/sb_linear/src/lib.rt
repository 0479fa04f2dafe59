//! Sizes and conditions in annotations (SAL 2.0): which are linear, and the sums that they stand for.
#![tactic(auto)]

mod conditions;
mod constants;
mod fault;
mod meaning;
mod moment;
mod names;
mod scope;
mod sizes;
mod sums;
mod values;

pub use conditions::condition;
pub use fault::SizeFault;
pub use meaning::laws;
pub use moment::Moment;
pub use names::{
    is_number_type, member_named, member_type, members_of, param_named, param_type, target_type,
};
pub use scope::{Inside, Scope};
pub use sizes::{bytes_of, linear};
