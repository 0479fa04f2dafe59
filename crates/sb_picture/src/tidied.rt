use sb_term::Row;
use sqlite_items::Items;

/// Facts, and the dead symbols that stay in them since their elimination would make more rows.
#[derive(Drop)]
pub struct Tidied {
    pub facts: Items<Row>,
    pub stay: Items<u64>,
}
