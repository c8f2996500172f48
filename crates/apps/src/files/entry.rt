// A file of a table: its id, and the place of its content in lent bytes.
#[derive(Clone, Copy, Debug, PartialEq, Eq)]
pub struct Entry {
    pub id: u16,
    pub start: usize,
    pub length: usize,
}
