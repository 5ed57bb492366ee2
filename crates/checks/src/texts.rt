// Lines, words and numbers of text: on both sides of every width, and where a text is cut.
use std::alloc::{AllocError, Global};
use std::test::Fail;
use words::{FromWord, NotText, lines_of, text_of, words_of};

const BYTES: [(&str, Option<u8>); 10] = [
    ("0", Some(0)),
    ("255", Some(255)),
    ("256", None),
    ("+5", Some(5)),
    ("007", Some(7)),
    ("-0", None),
    ("", None),
    ("+", None),
    ("1 ", None),
    ("0x1", None),
];

const LOGS: [(&str, Option<i64>); 9] = [
    ("9223372036854775807", Some(i64::MAX)),
    ("9223372036854775808", None),
    ("-9223372036854775808", Some(i64::MIN)),
    ("-9223372036854775809", None),
    ("-0", Some(0)),
    ("+0009", Some(9)),
    ("-", None),
    ("--1", None),
    ("", None),
];

// What a word writes, by the trait alone.
fn written<T: FromWord>(word: &str) -> Option<T> {
    T::from_word(word)
}

#[test]
fn numbers(rt: HostRuntime) {
    for (word, want) in BYTES {
        assert_eq!(rt; written(word), want);
    }
    for (word, want) in LOGS {
        assert_eq!(rt; written(word), want);
    }
    assert_eq!(rt; written("4294967295"), Some(u32::MAX));
    assert_eq!(rt; written::<u32>("4294967296"), None);
    assert_eq!(rt; written("18446744073709551615"), Some(u64::MAX));
    assert_eq!(rt; written::<u64>("18446744073709551616"), None);
    assert_eq!(rt; written("0"), Some(false));
    assert_eq!(rt; written("1"), Some(true));
    assert_eq!(rt; written::<bool>("01"), None);
    assert_eq!(rt; written::<Option<u8>>("-"), Some(None));
    assert_eq!(rt; written("255"), Some(Some(255u8)));
    assert_eq!(rt; written::<Option<u8>>("--"), None);
}

fn joined(heap: Global, line: &str) -> Result<String, AllocError> {
    let words = words_of(heap, line)?;
    let mut all = String::new(heap);
    for word in words.as_slice() {
        all.push_str(word)?;
        all.push('|')?;
    }
    Ok(all)
}

const LINES: [(&str, &str); 5] = [
    ("", ""),
    (" \t\r\x0c # a b", ""),
    ("a", "a|"),
    (" ac_q\t8  \u{e9}\x0b5\r", "ac_q|8|\u{e9}\x0b5|"),
    ("dc_q 8 4#5 6", "dc_q|8|4|"),
];

#[test]
fn lines_and_words(rt: HostRuntime) -> Result<(), Fail> {
    for (line, want) in LINES {
        assert_eq!(rt; joined(rt.alloc(), line)?.as_str(), want);
    }
    let lines = lines_of(rt.alloc(), "a\r\n\nb")?;
    assert_eq!(rt; lines.as_slice(), ["a\r", "", "b"].as_slice());
    assert_eq!(rt; text_of(b""), Ok(""));
    assert_eq!(rt; text_of(b"a\r\n\xc3\xa9"), Ok("a\r\n\u{e9}"));
    assert_eq!(rt;
        text_of(b"a\nb\n# \xc3\nc"),
        Err(NotText { before: "a\nb\n" })
    );
    assert_eq!(rt; text_of(b"a\xff"), Err(NotText { before: "" }));
    Ok(())
}
