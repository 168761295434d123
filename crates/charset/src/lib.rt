// The characters of a PostScript name: whether a byte is the code of one.
// Document 01, "PostScript name and version number": the codes 33 to 126 without ten, which leaves 84. Document 02, Ask 6: by one read in a table.
#![tactic(auto)]

ghost use Rattle.std.specs.Prelude.{◌≡◌};
ghost use Rattle.charset.specs.Allowed.{allowed};
ghost use Rattle.charset.specs.Table.{AllowsExactly};

// An entry of one bit for each of the 256 codes, 64 in a word, the last digit that of the word's lowest code. Above the digits of the codes 32 to 126 stand their
// characters, from the first place behind the slashes on.
const ENTRIES: [u64; 4] = [
    //?>=<;:98 76543210 /.-,+*)( '&%$#"!  and the codes 31 to 0
    0b10101111_11111111_01111100_11011110_00000000_00000000_00000000_00000000,
    // ~}|{zyx wvutsrqp onmlkjih gfedcba` _^]\[ZYX WVUTSRQP ONMLKJIH GFEDCBA@
    0b01010111_11111111_11111111_11111111_11010111_11111111_11111111_11111111,
    // the codes 191 to 128, and 255 to 192
    0b00000000_00000000_00000000_00000000_00000000_00000000_00000000_00000000,
    0b00000000_00000000_00000000_00000000_00000000_00000000_00000000_00000000,
];

// Whether a PostScript name may hold the character of this code.
pub fn is_allowed(code: u8) -> bool
    ensures { result ≡ allowed code }
{
    entry(ENTRIES, code)
}

// The entry of a code. Each arm reads at a place that is written out, so that the compiler keeps the words in read-only memory: where the place is worked
// out, it builds the whole table anew at each call.
fn entry(entries: [u64; 4], code: u8) -> bool
    requires { AllowsExactly entries }
    ensures { result ≡ allowed code }
{
    let word = match code / 64 {
        0 => entries[0],
        1 => entries[1],
        2 => entries[2],
        _ => entries[3],
    };
    (word >> (code % 64)) % 2 == 1
}
