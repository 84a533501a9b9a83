// The table of the kinds of box: type code, container and count rule.
ghost use Rattle.std.specs.Prelude.{◌≡◌};
ghost use Rattle.boxes.specs.Kinds.{rules};

// A kind of box: its type.
#[derive(Clone, Copy, PartialEq, Eq)]
pub struct Kind {
    pub code: u32,
}

pub const FTYP: Kind = Kind { code: 0x66747970 };

pub const PFIL: Kind = Kind { code: 0x7066696c };

pub const PFHD: Kind = Kind { code: 0x70666864 };

pub const SURL: Kind = Kind { code: 0x7375726c };

pub const PSEG: Kind = Kind { code: 0x70736567 };

pub const PSHD: Kind = Kind { code: 0x70736864 };

pub const PLOC: Kind = Kind { code: 0x706c6f63 };

pub const PDAT: Kind = Kind { code: 0x70646174 };

pub const FIDX: Kind = Kind { code: 0x66696478 };

pub const BIDX: Kind = Kind { code: 0x62696478 };

pub const FRPA: Kind = Kind { code: 0x66727061 };

pub const UUID: Kind = Kind { code: 0x75756964 };

// Where a kind of box stands.
#[derive(Clone, Copy, PartialEq, Eq)]
pub enum Container {
    File,
    Pfil,
    Pseg,
    Fidx,
    Bidx,
}

// How many of a kind a container holds.
#[derive(Clone, Copy, PartialEq, Eq)]
pub enum Count {
    One,
    OneOrMore,
    AtMostOne,
    Any,
}

// A row of the table: a kind, a container that it stands in, and how many of it that holds.
#[derive(Clone, Copy)]
pub struct Rule {
    pub kind: Kind,
    pub container: Container,
    pub count: Count,
}

// How many rows the table has.
pub const RULE_COUNT: usize = 14;

pub const RULES: [Rule; RULE_COUNT] = [
    Rule {
        kind: FTYP,
        container: Container::File,
        count: Count::One,
    },
    Rule {
        kind: PFIL,
        container: Container::File,
        count: Count::One,
    },
    Rule {
        kind: PFHD,
        container: Container::Pfil,
        count: Count::One,
    },
    Rule {
        kind: SURL,
        container: Container::Pfil,
        count: Count::Any,
    },
    Rule {
        kind: SURL,
        container: Container::Pseg,
        count: Count::Any,
    },
    Rule {
        kind: PSEG,
        container: Container::File,
        count: Count::OneOrMore,
    },
    Rule {
        kind: PSHD,
        container: Container::Pseg,
        count: Count::One,
    },
    Rule {
        kind: PLOC,
        container: Container::Pseg,
        count: Count::One,
    },
    Rule {
        kind: PDAT,
        container: Container::File,
        count: Count::Any,
    },
    Rule {
        kind: FIDX,
        container: Container::Pfil,
        count: Count::AtMostOne,
    },
    Rule {
        kind: FIDX,
        container: Container::Pseg,
        count: Count::AtMostOne,
    },
    Rule {
        kind: BIDX,
        container: Container::Fidx,
        count: Count::Any,
    },
    Rule {
        kind: BIDX,
        container: Container::Bidx,
        count: Count::Any,
    },
    Rule {
        kind: FRPA,
        container: Container::Bidx,
        count: Count::AtMostOne,
    },
];

// The table.
pub fn table() -> [Rule; RULE_COUNT]
    ensures { result ≡ rules }
{
    RULES
}
