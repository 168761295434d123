// The catalogue of the 48 fields: the one place in the code that knows an offset.
// Document 01, "The 'OS/2' fields", the table of fields.
ghost use Rattle.std.specs.Prelude.{◌≡◌, ◌+◌, ◌<◌};
ghost use Rattle.os2_fields.specs.Catalogue.{catalogue, field_count, field_of};

// A field: where it stands, its width in bytes, whether it is signed, and the version that it came in with.
#[derive(Clone, Copy)]
pub struct Field {
    pub offset: u8,
    pub width: u8,
    pub signed: bool,
    pub since: u8,
}

// How many fields there are.
pub const FIELD_COUNT: usize = 48;

// Fields that the reader uses by name: their numbers.
pub const VERSION: usize = 0;

pub const WEIGHT: usize = 2;

pub const WIDTH: usize = 3;

pub const FSTYPE: usize = 4;

pub const FSSELECTION: usize = 31;

pub const LOWER_SIZE: usize = 46;

pub const UPPER_SIZE: usize = 47;

// And their entries, which the compiler puts in place where they are used.
pub const VERSION_ENTRY: Field = Field {
    offset: 0,
    width: 2,
    signed: false,
    since: 0,
};

pub const WEIGHT_ENTRY: Field = Field {
    offset: 4,
    width: 2,
    signed: false,
    since: 0,
};

pub const WIDTH_ENTRY: Field = Field {
    offset: 6,
    width: 2,
    signed: false,
    since: 0,
};

pub const FSTYPE_ENTRY: Field = Field {
    offset: 8,
    width: 2,
    signed: false,
    since: 0,
};

pub const FSSELECTION_ENTRY: Field = Field {
    offset: 62,
    width: 2,
    signed: false,
    since: 0,
};

pub const LOWER_SIZE_ENTRY: Field = Field {
    offset: 96,
    width: 2,
    signed: false,
    since: 5,
};

pub const UPPER_SIZE_ENTRY: Field = Field {
    offset: 98,
    width: 2,
    signed: false,
    since: 5,
};

const RANGE_0_ENTRY: Field = Field {
    offset: 42,
    width: 4,
    signed: false,
    since: 0,
};

const RANGE_1_ENTRY: Field = Field {
    offset: 46,
    width: 4,
    signed: false,
    since: 0,
};

const RANGE_2_ENTRY: Field = Field {
    offset: 50,
    width: 4,
    signed: false,
    since: 0,
};

const RANGE_3_ENTRY: Field = Field {
    offset: 54,
    width: 4,
    signed: false,
    since: 0,
};

const PAGE_0_ENTRY: Field = Field {
    offset: 78,
    width: 4,
    signed: false,
    since: 1,
};

const PAGE_1_ENTRY: Field = Field {
    offset: 82,
    width: 4,
    signed: false,
    since: 1,
};

// Field number k.
pub fn entry(k: usize) -> Field
    requires { k < field_count }
    ensures { result ≡ field_of k }
{
    let fields = entries();
    fields[k]
}

// Unicode range 0 to 3.
pub fn unicode_range(i: u32) -> Field
    requires { i < 4 }
    ensures { result ≡ field_of (26 + i) }
{
    if i == 0 {
        return RANGE_0_ENTRY;
    }
    if i == 1 {
        return RANGE_1_ENTRY;
    }
    if i == 2 {
        return RANGE_2_ENTRY;
    }
    RANGE_3_ENTRY
}

// Code pages 0 or 1.
pub fn code_pages(i: u32) -> Field
    requires { i < 2 }
    ensures { result ≡ field_of (39 + i) }
{
    if i == 0 {
        return PAGE_0_ENTRY;
    }
    PAGE_1_ENTRY
}

// The whole catalogue, for a loop over the fields.
pub fn entries() -> [Field; FIELD_COUNT]
    ensures { result ≡ catalogue }
{
    FIELDS
}

const FIELDS: [Field; FIELD_COUNT] = [
    // 0 version, 1 average width, 2 weight, 3 width, 4 fsType
    VERSION_ENTRY,
    Field {
        offset: 2,
        width: 2,
        signed: true,
        since: 0,
    },
    WEIGHT_ENTRY,
    WIDTH_ENTRY,
    FSTYPE_ENTRY,
    // 5 to 8 subscript x size, y size, x offset, y offset; 9 to 12 superscript, same
    Field {
        offset: 10,
        width: 2,
        signed: true,
        since: 0,
    },
    Field {
        offset: 12,
        width: 2,
        signed: true,
        since: 0,
    },
    Field {
        offset: 14,
        width: 2,
        signed: true,
        since: 0,
    },
    Field {
        offset: 16,
        width: 2,
        signed: true,
        since: 0,
    },
    Field {
        offset: 18,
        width: 2,
        signed: true,
        since: 0,
    },
    Field {
        offset: 20,
        width: 2,
        signed: true,
        since: 0,
    },
    Field {
        offset: 22,
        width: 2,
        signed: true,
        since: 0,
    },
    Field {
        offset: 24,
        width: 2,
        signed: true,
        since: 0,
    },
    // 13 strikeout size, 14 its position, 15 family class
    Field {
        offset: 26,
        width: 2,
        signed: true,
        since: 0,
    },
    Field {
        offset: 28,
        width: 2,
        signed: true,
        since: 0,
    },
    Field {
        offset: 30,
        width: 2,
        signed: true,
        since: 0,
    },
    // 16 to 25 PANOSE
    Field {
        offset: 32,
        width: 1,
        signed: false,
        since: 0,
    },
    Field {
        offset: 33,
        width: 1,
        signed: false,
        since: 0,
    },
    Field {
        offset: 34,
        width: 1,
        signed: false,
        since: 0,
    },
    Field {
        offset: 35,
        width: 1,
        signed: false,
        since: 0,
    },
    Field {
        offset: 36,
        width: 1,
        signed: false,
        since: 0,
    },
    Field {
        offset: 37,
        width: 1,
        signed: false,
        since: 0,
    },
    Field {
        offset: 38,
        width: 1,
        signed: false,
        since: 0,
    },
    Field {
        offset: 39,
        width: 1,
        signed: false,
        since: 0,
    },
    Field {
        offset: 40,
        width: 1,
        signed: false,
        since: 0,
    },
    Field {
        offset: 41,
        width: 1,
        signed: false,
        since: 0,
    },
    // 26 to 29 Unicode ranges
    RANGE_0_ENTRY,
    RANGE_1_ENTRY,
    RANGE_2_ENTRY,
    RANGE_3_ENTRY,
    // 30 vendor
    Field {
        offset: 58,
        width: 4,
        signed: false,
        since: 0,
    },
    // 31 fsSelection, 32 first char, 33 last char
    FSSELECTION_ENTRY,
    Field {
        offset: 64,
        width: 2,
        signed: false,
        since: 0,
    },
    Field {
        offset: 66,
        width: 2,
        signed: false,
        since: 0,
    },
    // 34 to 36 typo ascender, descender, gap; 37, 38 win ascent, descent
    Field {
        offset: 68,
        width: 2,
        signed: true,
        since: 0,
    },
    Field {
        offset: 70,
        width: 2,
        signed: true,
        since: 0,
    },
    Field {
        offset: 72,
        width: 2,
        signed: true,
        since: 0,
    },
    Field {
        offset: 74,
        width: 2,
        signed: false,
        since: 0,
    },
    Field {
        offset: 76,
        width: 2,
        signed: false,
        since: 0,
    },
    // 39, 40 code pages
    PAGE_0_ENTRY,
    PAGE_1_ENTRY,
    // 41 x height, 42 cap height, 43 default, 44 break, 45 max context
    Field {
        offset: 86,
        width: 2,
        signed: true,
        since: 2,
    },
    Field {
        offset: 88,
        width: 2,
        signed: true,
        since: 2,
    },
    Field {
        offset: 90,
        width: 2,
        signed: false,
        since: 2,
    },
    Field {
        offset: 92,
        width: 2,
        signed: false,
        since: 2,
    },
    Field {
        offset: 94,
        width: 2,
        signed: false,
        since: 2,
    },
    // 46, 47 lower, upper optical size
    LOWER_SIZE_ENTRY,
    UPPER_SIZE_ENTRY,
];
