// What all visitors are lent to read: the records, and what is noted of each.
use pool::notes::Notes;

#[derive(Clone, Copy)]
pub struct Tree<'a> {
    pub records: &'a [u32],
    pub notes: &'a Notes,
}
