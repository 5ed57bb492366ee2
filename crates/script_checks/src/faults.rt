// The first line that cannot be read, and how that is told.
use scripts::script_of;
use std::alloc::{AllocError, Global};
use std::test::Fail;

// What is wrong with a text, or how many lines its script has.
fn wrong(heap: Global, bytes: &[u8]) -> Result<String, AllocError> {
    match script_of(heap, bytes) {
        Err(wrong) => format!(in heap; "{wrong}"),
        Ok(script) => {
            let lines = script.lines.len();
            format!(in heap; "{lines} lines")
        }
    }
}

const LINES: [(&str, &str); 24] = [
    ("", "0 lines"),
    (" # \u{e9}\r\n\n", "0 lines"),
    ("show\r\n\nstatus#\tx\nshow", "3 lines"),
    ("foo", "line 1: unknown line 'foo'"),
    ("show\n\n# c\r\nShow", "line 4: unknown line 'Show'"),
    ("-", "line 1: unknown line '-'"),
    ("show x", "line 1: show takes no operands, found 1"),
    ("status 1 2", "line 1: status takes no operands, found 2"),
    ("curve 0", "line 1: curve takes no operands, found 1"),
    (
        "withdraw",
        "line 1: withdraw takes 1 operand (TICKET), found 0",
    ),
    (
        "trial 1 # 2",
        "line 1: trial takes 2 operands (TICKET BITS), found 1",
    ),
    (
        "report 1 2 0",
        "line 1: report takes 4 operands (TICKET BITS SHOWN DROPPABLE), found 3",
    ),
    (
        "choose 0 0 0 0",
        "line 1: choose takes 3 operands (SUBTYPE PREVIOUS MEAN), found 4",
    ),
    (
        "stair",
        "line 1: stair takes 256 operands (C0 ... C255), found 0",
    ),
    (
        "withdraw 18446744073709551616",
        "line 1: operand 1 of withdraw, '18446744073709551616', is no whole number from 0 to 18446744073709551615",
    ),
    (
        "trial 18446744073709551615 4294967296",
        "line 1: operand 2 of trial, '4294967296', is no whole number from 0 to 4294967295",
    ),
    (
        "choose 256 - -",
        "line 1: operand 1 of choose, '256', is no whole number from 0 to 255",
    ),
    (
        "choose 255 -- 0",
        "line 1: operand 2 of choose, '--', is neither - nor a whole number from -9223372036854775808 to 9223372036854775807",
    ),
    (
        "choose 255 - -",
        "line 1: operand 3 of choose, '-', is no whole number from -9223372036854775808 to 9223372036854775807",
    ),
    (
        "report 1 1 2 2",
        "line 1: operand 3 of report, '2', is neither 0 nor 1",
    ),
    (
        "show\nlist 0 255 256",
        "line 2: operand 3 of list, '256', is no whole number from 0 to 255",
    ),
    (
        "pattern -",
        "line 1: operand 1 of pattern, '-', is no whole number from 0 to 255",
    ),
    (
        "choose 0 -9223372036854775808 +9223372036854775807",
        "1 lines",
    ),
    (
        "report 0 4294967295 0 1\nwithdraw +007\nlist\npattern",
        "4 lines",
    ),
];

const OPENINGS: [(&str, &str); 6] = [
    ("open 0 0 0 0 0 0 0 0 0 0 0 0", "1 lines"),
    (
        "open 4294967295 4294967295 4294967295 4294967295 4294967295 255 255 255 255 4294967295 4294967295 1",
        "1 lines",
    ),
    ("open 1 1 1 1 1 8 0 0 - 1 - 0", "1 lines"),
    (
        "open 1 1 1 1 1 8 0 0 256 1 - 0",
        "line 1: operand 9 of open, '256', is neither - nor a whole number from 0 to 255",
    ),
    (
        "open 1 1 1 1 1 8 0 0 - 1 4294967296 0",
        "line 1: operand 11 of open, '4294967296', is neither - nor a whole number from 0 to 4294967295",
    ),
    (
        "open 1 1 1 1 1 8 0 0 - - - 0",
        "line 1: operand 10 of open, '-', is no whole number from 0 to 4294967295",
    ),
];

#[test]
fn first_wrong_line(rt: HostRuntime) -> Result<(), Fail> {
    let heap = rt.alloc();
    for (text, want) in LINES {
        assert_eq!(rt; wrong(heap, text.as_bytes())?.as_str(), want);
    }
    for (text, want) in OPENINGS {
        assert_eq!(rt; wrong(heap, text.as_bytes())?.as_str(), want);
    }
    assert_eq!(rt; wrong(heap, b"show\n\xff")?.as_str(), "line 2: not UTF-8");
    assert_eq!(rt;
        wrong(heap, b"foo\nshow \xc3")?.as_str(),
        "line 1: unknown line 'foo'"
    );
    Ok(())
}
