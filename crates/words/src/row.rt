// The rows of refusals (01, 'Replies of the compiler'), and what a refusal says: its row and its place.
ghost use Rattle.std.specs.Prelude.{◌≡◌};
ghost use Rattle.words.specs.Row.{row_number};

#[derive(Clone, Copy, PartialEq, Eq)]
pub enum Row {
    BadLine = 1,
    BadLength = 2,
    BadShape = 3,
    TooDeep = 4,
    BookTwice = 5,
    BookMissing = 6,
    BookFaulty = 7,
    Ring = 8,
    AreaFull = 9,
    NotATable = 10,
    NameNotPublic = 11,
    StaleTrial = 12,
    TotalsDiffer = 13,
}

#[derive(Clone, Copy, PartialEq, Eq)]
pub struct Refused {
    pub row: Row,
    pub place: usize,
}

impl Row {
    // The row's number in 01's table.
    pub fn number(self) -> u64
        ensures { result ≡ row_number self }
    {
        self as u64
    }

    // A refusal by the row at a place.
    pub fn at(self, place: usize) -> Refused
        ensures { result ≡ record { row = self; place = place } }
    {
        Refused { row: self, place }
    }
}
