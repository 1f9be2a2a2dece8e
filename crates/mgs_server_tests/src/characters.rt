// Characters past ASCII, of one column and of two.
use super::replay::{NOTES, plays};
use super::steps::scripts_show;
use std::alloc::AllocError;
use std::test::Fail;

#[test]
fn characters_are_edited(rt: HostRuntime) -> Result<(), Fail> {
    let scripts = "
        == they are typed and gone over
        open a ann 6 60
        a 'é漢                | é漢     | **L1-C3  | 1 4
        a C-b                 | é漢     | **L1-C1  | 1 2
        a C-b                 | é漢     | **L1-C0  | 1 1
        a C-f C-f 'x          | é漢x    | **L1-C4  | 1 5
        a C-u '3 'ß           | é漢xßßß | **L1-C7  | 1 8
        a C-q '語             | é漢xßßß語 | **L1-C9 | 1 10
        a DEL DEL             | é漢xßß  | **L1-C6  | 1 7
        a C-_                 | é漢xßßß | **L1-C7  | 1 8
        a C-a C-d             | 漢xßßß  | **L1-C0  | 1 1
        a C-f C-t             | x漢ßßß  | **L1-C3  | 1 4
        == they are killed and yanked
        text notes 'Grüße RET 'naïve SPC 'café
        open a ann 6 60
        a C-k                 | /naïve café      | **L1-C0 | 1 1
        a C-n C-e C-y         | /naïve caféGrüße | **L2-C15 | 2 16
        a M-x 'upcase-region RET | /naïve caféGRüßE | **L2-C15 | 2 16
        == goal columns and shifts count columns
        text notes '漢漢 RET 'abcd
        open a ann 6 60
        a C-n C-f C-f C-f     | 漢漢/abcd | --L2-C3 | 2 4
        a C-p                 | 漢漢/abcd | --L1-C2 | 1 3
        a C-n                 | 漢漢/abcd | --L2-C3 | 2 4
        == a combining character and one of no column
        open a ann 6 60
        a 'a\u{301}\u{200b}  | a\\u{301}\\u{200b} | **L1-C16 | 1 17
        == behind a prefix they are no keys
        open a ann 6 60
        a C-x 'é 'a           | a | **L1-C1 | 1 2
        == a macro keeps bytes
        open a ann 6 60
        a C-x '( 'é漢 C-x ') C-u '2 C-x 'e | é漢é漢é漢 | **L1-C9 | 1 10
        == a paragraph is filled by columns
        text notes '漢 SPC '漢 SPC '漢 SPC '漢
        open a ann 6 60
        a C-u '8 C-x 'f M-q   | 漢 漢 漢/漢 | **L2-C2 | 2 3
    ";
    scripts_show(&rt, rt.alloc(), NOTES, scripts)
}

// A screen of 6 rows of 20 columns that shows one row of a text.
fn push_screen(
    output: &mut String,
    row: &str,
    place: &str,
    cursor: &str,
) -> Result<(), AllocError> {
    writeln!(output, "screen a")?;
    writeln!(output, "|{row}|")?;
    for _ in 0..3 {
        writeln!(output, "|                    |")?;
    }
    writeln!(output, "!-**-notes-{place:-<10}!")?;
    writeln!(output, "|                    |")?;
    writeln!(output, "cursor {cursor}")
}

// Keys in an empty text, and the row, the place in the mode line and the cursor then.
const NARROW: [(&str, &str, &str, &str); 6] = [
    ("'é漢", "é漢                 ", "L1-C3", "1 4"),
    ("C-u '10 '漢", "$漢漢漢漢漢         ", "L1-C20", "1 12"),
    ("C-u '10 '漢 C-a", "漢漢漢漢漢漢漢漢漢漢", "L1-C0", "1 1"),
    // The tenth would be cut in its middle.
    ("C-u '11 '漢 C-a", "漢漢漢漢漢漢漢漢漢 $", "L1-C0", "1 1"),
    // The fifth would be cut by the sign at the row's start.
    ("'a C-u '10 '漢", "$ 漢漢漢漢漢        ", "L1-C21", "1 13"),
    (
        "'aaaaaaaaaaaaaaaaaa漢 C-a",
        "aaaaaaaaaaaaaaaaaa漢",
        "L1-C0",
        "1 1",
    ),
];

#[test]
fn no_wide_character_is_cut(rt: HostRuntime) -> Result<(), Fail> {
    for &(keys, row, place, cursor) in &NARROW {
        let lines = format!(in rt.alloc(); "open a ann 6 20\nkeys a {keys}\nshow a\n")?;
        let mut output = String::new(rt.alloc());
        push_screen(&mut output, row, place, cursor)?;
        plays(
            &rt,
            rt.alloc(),
            keys,
            lines.as_str(),
            output.as_str(),
            Ok(()),
        )?;
    }
    Ok(())
}
