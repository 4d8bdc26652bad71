// The kinds of records.
ghost use Rattle.std.specs.Prelude.{◌≡◌};
ghost use Rattle.oracle_tables.specs.Kinds.{kind_numbered};

// What a record asks for. The number of each kind stands beside it.
#[derive(Clone, Copy)]
pub enum Kind {
    // 0, and any other: the text is built, and the mesh refined in numbered order
    Whole,
    // 1: the same, the lists of the text changed
    Changed,
    // 2: each text that is cut short of this one is built
    CutShort,
    // 3: each text that has another byte at one place is built
    OtherByte,
    // 4: lists of zeros are built
    Zeros,
    // 5: as 0, in listed orders
    Listed,
    // 6: as 0, a word of the built tables changed
    Spoilt,
}

// The kind that stands as the first number in the head of a record.
impl From<usize> for Kind {
    ghost from_gives = { λ n kind. kind ≡ kind_numbered n };

    fn from(n: usize) -> Kind {
        match n {
            1 => Kind::Changed,
            2 => Kind::CutShort,
            3 => Kind::OtherByte,
            4 => Kind::Zeros,
            5 => Kind::Listed,
            6 => Kind::Spoilt,
            _ => Kind::Whole,
        }
    }
}
