//! Why a line is not read.
ghost use Rattle.std.specs.Prelude.{◌≡◌};
ghost use Rattle.lines.specs.Misreads.{misread_number, misread_column};

/// Why a line is not read, and the column that it is about, counted from 1.
#[derive(Clone, Copy, PartialEq, Eq, Debug)]
pub enum Misread {
    /// A column's name is unknown, repeated or lacking.
    Name(u64),
    /// A value is malformed, lacking or one too many. Column 0 stands for a line that is too long.
    Field(u64),
}

impl Misread {
    /// The number that the misreading goes by.
    // By a match, since a variant with a field can't be declared with a number.
    pub fn number(self) -> u64
        ensures { result ≡ misread_number self }
    {
        match self {
            Misread::Name(_) => 14,
            Misread::Field(_) => 15,
        }
    }

    /// The column that the misreading is about.
    pub fn column(self) -> u64
        ensures { result ≡ misread_column self }
    {
        match self {
            Misread::Name(column) | Misread::Field(column) => column,
        }
    }
}
