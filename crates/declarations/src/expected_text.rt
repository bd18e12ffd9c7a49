//! How the signs that can come next are named in messages.
ghost use Rattle.std.specs.Prelude.{◌≡◌, ◌∷◌, ◌++◌, [], MatchOption};
ghost use Rattle.std.specs.Fmt.{WritesOnOk};
ghost use Rattle.declarations.specs.ExpectedText.{NamesOnly, all_names, listed, more_listed, names_of, rows_of};
ghost use Rattle.declarations.specs.ExpectedText.{separator};
ghost use Rattle.declarations.specs.declared.expected.Expected.{Expected as ExpectedValue};

use crate::expected::Expected;
use std::fmt;

/// The names of signs. In a row bit `n` stands for the class with the number `n`, and bit 127 for the end. What is
/// named together comes before its parts.
const NAMES: [(u128, &str); 104] = [
    (0xf_ffff_ffff_ffff_ffff, "`;` or more of the expression"),
    (0xf_ffef_ffff_ffff_ffff, "an expression"),
    (1 << 50, "`,`"),
    (1 << 52, "`;`"),
    (0xd_dfeb_df3f_bfff_ffff, "an expression"),
    (0xc_dba3_df3f_bfff_ffff, "an expression"),
    (0xc_db81_df1f_bfff_ffff, "an expression"),
    (0xc_0b01_de3b_ffff_ffff, "a type"),
    (0x5_cfeb_dfb3_41ff_ffe0, "an operator"),
    (1 << 49, "`>`"),
    (1 << 51, "`:`"),
    (0x9_8aa1_de14_bf00_801f, "more of the pattern"),
    (1 << 53, "`=`"),
    (0xc_2f81_de1c_be60_9ebf, "a generic argument"),
    (0x8_0080_0017_dfff_ffff, "an entry"),
    (0x8_af01_ce18_3e60_9ebf, "a type or `...`"),
    (0x8_2f01_ce18_3e60_9ebf, "a type"),
    (0x8_0000_0003_5fff_ffff, "a name"),
    (0x8_1000_6010_1a7f_777f, "an item"),
    (0x8_9281_ce14_bf00_801f, "a parameter"),
    (0x8_8281_ce14_bd00_801f, "a pattern"),
    (0x8_0000_0000_007e_776f, "an item"),
    (0x8_1000_2000_0021_0666, "a function"),
    (0x1000_2000_0005_0108, "a struct, an enum or a union"),
    (0x1000_2000_0021_1002, "an impl"),
    (0x8_1000_0008_0000_005f, "a generic parameter"),
    (0x8_0000_0000_1e00_001f, "a name"),
    (0x8_0000_0000_1a00_001f, "a name"),
    (0x8_0000_0000_0000_001f, "a name"),
    (0x8_0000_0000_0020_0666, "a function"),
    (0x8_0000_0000_0020_0664, "a function"),
    (0x8_0000_0000_0020_0624, "a function"),
    (0x8_0000_0000_0020_0604, "a function"),
    (0x20_0604, "a function"),
    (1 << 16 | 1 << 45, "a visibility"),
    (1 << 44 | 1 << 66, "`{`"),
    (0x1e00_0000_0000, "a group"),
    (1 << 44, "`{`"),
    (1 << 23, "`where`"),
    (1 << 11, "`for`"),
    (0x841_8630_0000_0000, "more of the type"),
    (1 << 41 | 1 << 42, "`(`"),
    (1 << 47 | 1 << 48, "`<`"),
    (1 << 37, "`->`"),
    (1 << 36, "`::`"),
    (1 << 59, "`!`"),
    (1 << 18, "`struct`"),
    (1 << 8, "`enum`"),
    (1 << 10, "`fn`"),
    (1 << 12, "`impl`"),
    (1 << 19, "`trait`"),
    (1 << 14, "`mod`"),
    (1 << 20, "`type`"),
    (1 << 17, "`static`"),
    (1 << 22, "`use`"),
    (1 << 3, "`union`"),
    (1 << 13, "`macro`"),
    (1 << 25, "`self`"),
    (1 << 26, "`Self`"),
    (1 << 27, "`super`"),
    (1 << 28, "`crate`"),
    (1 << 21, "`unsafe`"),
    (1 << 9, "`extern`"),
    (1 << 6, "`const`"),
    (1 << 5, "`async`"),
    (1 << 2, "`safe`"),
    (1 << 67, "`gen`"),
    (1 << 1, "`default`"),
    (1 << 0, "`auto`"),
    (1 << 15, "`mut`"),
    (1 << 7, "`dyn`"),
    (1 << 16, "`pub`"),
    (1 << 30, "`as`"),
    (1 << 29, "`_`"),
    (1 << 35, "a lifetime"),
    (1 << 34, "a literal"),
    (1 << 60, "an attribute"),
    (1 << 38, "an inner attribute"),
    (1 << 43, "`[`"),
    (1 << 42, "`(`"),
    (1 << 41, "`(crate)`"),
    (1 << 45, "a visibility"),
    (1 << 47, "`<`"),
    (1 << 48, "`<`"),
    (1 << 39, "`<=`"),
    (1 << 54, "`+`"),
    (1 << 55, "`-`"),
    (1 << 56, "`*`"),
    (1 << 57, "`&`"),
    (1 << 58, "`?`"),
    (1 << 61, "`~`"),
    (1 << 62, "`|`"),
    (1 << 40, "`||`"),
    (1 << 63, "`.`"),
    (1 << 64, "`/`"),
    (1 << 65, "`$`"),
    (1 << 66, "a block"),
    (1 << 4, "a name"),
    (1 << 24, "a keyword"),
    (1 << 31, "`true`"),
    (1 << 32, "`await`"),
    (1 << 33, "`return`"),
    (1 << 46, "a group without delimiters"),
    (1 << 127, "the end"),
];

impl fmt::Display for Expected {
    ghost use Rattle.std.specs.Prelude.{Some};
    ghost use Rattle.declarations.specs.ExpectedText.{expected_text};

    ghost output = { λ set. Some (expected_text set) };

    fn fmt<W: fmt::Write>(&self, f: &mut fmt::Formatter<W>) -> fmt::Result {
        write_names(self.bits(), names(), f)
    }
}

/// The table of names. Each name that is taken from it for a set is true: all its classes are in the set.
fn names() -> &'static [(u128, &'static str)]
    ensures table { rows_of result.now ≡ all_names }
    ensures only { (set : ExpectedValue) → NamesOnly set set.bits all_names }
{
    &NAMES
}

/// The name in the first row whose bits are all left, the bits without these, and the rows after it.
fn next_name<'a>(
    left: u128,
    rows: &'a [(u128, &'static str)],
) -> Option<(&'static str, u128, &'a [(u128, &'static str)])>
    ensures { MatchOption result (names_of left (rows_of rows.now) ≡ [])
        (λ next. names_of left (rows_of rows.now) ≡ next.0.now ∷ names_of next.1 (rows_of next.2.now)) }
{
    let (row, more) = rows.split_first()?;
    if left & row.0 == row.0 {
        return Some((row.1, left ^ row.0, more));
    }
    next_name(left, more)
}

/// Writes the names of the bits, with four of them at most.
fn write_names<W: fmt::Write>(
    left: u128,
    rows: &[(u128, &'static str)],
    f: &mut fmt::Formatter<W>,
) -> fmt::Result
    ensures { WritesOnOk W.write_str_gives f.old result (listed (names_of left (rows_of rows.now))) f.new }
{
    match next_name(left, rows) {
        Some((name, left, rows)) => {
            f.write_str(name)?;
            write_more(3, left, rows, f)
        }
        None => Ok(()),
    }
}

/// Writes the names after the first one, with `count` of them at most.
fn write_more<W: fmt::Write>(
    count: u8,
    left: u128,
    rows: &[(u128, &'static str)],
    f: &mut fmt::Formatter<W>,
) -> fmt::Result
    ensures { WritesOnOk W.write_str_gives f.old result (more_listed count (names_of left (rows_of rows.now))) f.new }
{
    match next_name(left, rows) {
        Some((name, left, rows)) => {
            if count == 0 {
                return f.write_str(", among others");
            }
            write_both(separator(count - 1, left, rows), name, f)?;
            write_more(count - 1, left, rows, f)
        }
        None => Ok(()),
    }
}

/// Writes a separator and a name.
fn write_both<W: fmt::Write>(separator: &str, name: &str, f: &mut fmt::Formatter<W>) -> fmt::Result
    ensures { WritesOnOk W.write_str_gives f.old result (separator.now ++ name.now) f.new }
{
    f.write_str(separator)?;
    f.write_str(name)
}

/// What is written before a name, if `count` more names can be written after it.
fn separator(count: u8, left: u128, rows: &[(u128, &'static str)]) -> &'static str
    ensures { result.now ≡ separator count (names_of left (rows_of rows.now)) }
{
    if count == 0 {
        return " or ";
    }
    match next_name(left, rows) {
        Some(_) => ", ",
        None => " or ",
    }
}
