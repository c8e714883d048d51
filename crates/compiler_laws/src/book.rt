// The counts of a book under compilation: the state that the relation between memory and a book is about.

// The book under compilation: the first full area, the entries in use of each area, the book's index, where its context locals and public names start,
// the entry point, how many methods stood before the bundle (2026-01), and the mode (2026-07). Where the mark is `FIRST_NOT_PUBLIC` or more it is no
// area's but row 11's.
#[derive(Clone, Copy)]
pub struct Book {
    pub full: u64,
    pub code: usize,
    pub constants: usize,
    pub functions: usize,
    pub models: usize,
    pub properties: usize,
    pub methods: usize,
    pub locals: usize,
    pub publics: usize,
    pub errors: usize,
    pub file: u64,
    pub first_local: usize,
    pub first_public: usize,
    pub entry_point: u64,
    pub standing_methods: usize,
    pub strict: bool,
}
