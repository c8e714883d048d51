// A record of the tree (01, 'The tree'): its four words, as one read gives them.
#[derive(Clone, Copy, PartialEq, Eq)]
pub struct Record {
    pub kind: u64,
    pub span: u64,
    pub position: u64,
    pub value: u64,
}
