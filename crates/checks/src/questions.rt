// What lines ask and are answered, as text: each fault of a line, each refusal, and the ends of operands.
use queries::{Outcome, answer_to, queries};
use std::alloc::{AllocError, Global};
use std::test::Fail;

// All answers, each with a `;` after it, or what is wrong.
fn told(heap: Global, bytes: &[u8]) -> Result<String, AllocError> {
    match queries(heap, bytes) {
        Err(wrong) => format!(in heap; "{wrong}"),
        Ok(all) => {
            let mut text = String::new(heap);
            for query in all.as_slice() {
                let outcome = Outcome(answer_to(*query));
                text.push_str(format!(in heap; "{outcome};")?.as_str())?;
            }
            Ok(text)
        }
    }
}

const WRONG: [(&str, &str); 14] = [
    ("foo", "line 1: unknown question 'foo'"),
    ("\n\n# c\r\nBlog64 1", "line 4: unknown question 'Blog64'"),
    ("\0\u{e9}", "line 1: unknown question '?\u{e9}'"),
    (
        "0123456789012345678901234567890123456789",
        "line 1: unknown question '0123456789012345678901234567890123456789'",
    ),
    (
        "\n01234567890123456789012345678901234567890",
        "line 2: unknown question '0123456789012345678901234567890123456789...'",
    ),
    ("blog64", "line 1: blog64 takes 1 operand (N), found 0"),
    ("bexp64 x 2", "line 1: bexp64 takes 1 operand (X), found 2"),
    (
        "ac_q 8 # 3",
        "line 1: ac_q takes 2 operands (DEPTH INDEX), found 1",
    ),
    (
        "select_dc_qi 8 1 2",
        "line 1: select_dc_qi takes 2 operands (DEPTH Q), found 3",
    ),
    (
        "quantizer 0 8 0 1",
        "line 1: quantizer takes 5 operands (LOG_Q DEPTH SAMPLING INTRA MEAN), found 4",
    ),
    (
        "bexp64 1\nac_q 8 256\nfoo",
        "line 2: operand 2 of ac_q, '256', is no whole number from 0 to 255",
    ),
    (
        "blog64 9223372036854775808",
        "line 1: operand 1 of blog64, '9223372036854775808', is no whole number from -9223372036854775808 to 9223372036854775807",
    ),
    (
        "quantizer 0 8 -1 2 x",
        "line 1: operand 3 of quantizer, '-1', is no whole number from 0 to 255",
    ),
    (
        "quantizer 0 8 0 01 x",
        "line 1: operand 4 of quantizer, '01', is neither 0 nor 1",
    ),
];

const ANSWERED: [(&str, &str); 8] = [
    ("", ""),
    (" # \u{e9}\r\n\n", ""),
    ("blog64 0\r\nblog64\t+1 #x\nbexp64 -0", "-1;0;1;"),
    (
        "blog64 9223372036854775807\nblog64 -9223372036854775808",
        "9079256848778919936;-1;",
    ),
    (
        "bexp64 9223372036854775807\nbexp64 -9223372036854775808",
        "9223372036854775807;0;",
    ),
    (
        "ac_q 8 0\nac_q 12 0255\ndc_q 10 255\nac_q 9 1\ndc_q 255 1",
        "4;29247;5347;refused 4;refused 4;",
    ),
    (
        "select_ac_qi 8 5\nselect_ac_qi 8 6\nselect_dc_qi 8 8\nselect_dc_qi 8 86\nselect_ac_qi 9 1",
        "0;1;1;96;refused 4;",
    ),
    (
        "quantizer 0 8 3 1 0\nquantizer 0 9 0 1 0\nquantizer 0 8 4 0 0\nquantizer 0 9 4 0 0",
        "dc=1,0,0 ac=1,0,0 scales=1;refused 4;refused 5;refused 4;",
    ),
];

#[test]
fn lines_and_answers(rt: HostRuntime) -> Result<(), Fail> {
    let heap = rt.alloc();
    for (text, want) in WRONG {
        assert_eq!(rt; told(heap, text.as_bytes())?.as_str(), want);
    }
    for (text, want) in ANSWERED {
        assert_eq!(rt; told(heap, text.as_bytes())?.as_str(), want);
    }
    assert_eq!(rt; told(heap, b"\xff")?.as_str(), "line 1: not UTF-8");
    assert_eq!(rt;
        told(heap, b"blog64 1\n\n# \xc3")?.as_str(),
        "line 3: not UTF-8"
    );
    assert_eq!(rt;
        told(heap, b"foo\nblog64 1 \xc3\nno")?.as_str(),
        "line 1: unknown question 'foo'"
    );
    Ok(())
}
