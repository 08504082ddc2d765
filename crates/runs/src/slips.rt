// What goes wrong in a line, and words and lines that cannot be read.

// Of a command.
#[derive(Clone, Copy)]
pub enum Slip {
    OtherName,
    WordFewer,
    WordMore,
    BadWord,
}

// Of a row.
#[derive(Clone, Copy)]
pub enum Flaw {
    Short,
    Long,
    NoHeight,
    BadWord,
}

pub static FLAWS: &[Flaw] = &[Flaw::Short, Flaw::Long, Flaw::NoHeight, Flaw::BadWord];

// Of these the first three are numbers of a row alone, the fourth of a command alone, and the others none.
pub static BAD_WORDS: &[&[u8]] = &[
    b"-0",
    b"-1",
    b"-007",
    b"9223372036854775808",
    b"x",
    b"-",
    b"1-2",
    b"+3",
    b"12a",
    b"99999999999999999999",
    b"18446744073709551616",
    b"--1",
    b"-9223372036854775808",
    b"5-",
    b"0x1",
    b"1\x0c2",
    b"3\x0b",
    b"1\x00",
    b"7\xc2\xa0",
    b"\xff",
];

// Numbers of a row that are no heights.
pub static NO_HEIGHTS: &[&[u8]] = &[
    b"65536",
    b"-1",
    b"-65535",
    b"4294967296",
    b"4295032831",
    b"-4294967295",
    b"9223372036854775807",
    b"-9223372036854775807",
    b"000065536",
];

// Names that no command has.
pub static BAD_NAMES: &[&[u8]] = &[
    b"MAP",
    b"Level",
    b"WINDOW",
    b"sets",
    b"towe",
    b"towers",
    b"t\xc3\xb6wer",
    b"tower\x0c",
    b"coarse,",
    b"\xff\xfe",
    b"#",
    b".",
];

// Lines that cannot be read, rows behind no map among them.
pub static BAD_LINES: &[&[u8]] = &[
    b"map",
    b"map x",
    b"map -1",
    b"map 1 2",
    b"map1",
    b"map 18446744073709551616",
    b"Map 1",
    b"map\x0b1",
    b"1 2",
    b"7",
    b"-",
    b"-5",
    b"+5",
    b"0tower",
    b"9 x",
    b".5",
    b"window",
    b"window 0 0 1",
    b"window 0 0 1 1 0",
    b"window 0 0 -1 1",
    b"set 0 0",
    b"set 0 0 -1",
    b"set 0 0 1 1",
    b"window 0 0 1 1x",
    b"tower 0",
    b"TOWER",
    b"level",
    b"level -0",
    b"level +0",
    b"level\x0c0",
    b"coarse",
    b"\xff\xfe",
];

// What parts words, and what ends or begins a line, beside the plain.
pub static GAPS: &[&[u8]] = &[b"\t", b"  ", b" \r", b"\t \t"];

pub static ENDS: &[&[u8]] = &[b"\r\n", b" \n", b"\t\n", b" \r\n"];

pub static BEGINS: &[&[u8]] = &[b" ", b"\t", b"\r "];

// Heights in other words than their digits.
pub static ODD_HEIGHTS: &[&[u8]] = &[b"-0", b"00", b"0", b"65535", b"0065535", b"-00"];

// Numbers past every side and level.
pub static LARGE: &[u64] = &[
    18446744073709551615,
    18446744073709551614,
    18446744073709551612,
    9223372036854775808,
    4294967296,
    65536,
    128,
];
