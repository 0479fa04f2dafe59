use crate::numbered::Numbered;
use sqlite_items::Items;

/// The rows set aside for a symbol: those where its coefficient is positive, and those where it is negative.
#[derive(Drop)]
pub struct Aside {
    pub symbol: u64,
    pub positive: Items<Numbered>,
    pub negative: Items<Numbered>,
}
