// Outlooks and stairs: which are made, which are refused, and which of them stand at a line.
use calls::Call;
use replies::{Standing, block_length, calls_of, replies_of, standing_after};
use scripts::{Script, script_of};
use std::alloc::{AllocError, Global};
use std::test::Fail;

// The replies to the lines of a text before any run, each with a `;` after it.
fn told(heap: Global, text: &str) -> Result<String, AllocError> {
    match script_of(heap, text.as_bytes()) {
        Err(wrong) => format!(in heap; "{wrong}"),
        Ok(script) => {
            let mut all = String::new(heap);
            for reply in replies_of(heap, script.lines.as_slice(), &[])?.as_slice() {
                all.push_str(format!(in heap; "{reply};")?.as_str())?;
            }
            Ok(all)
        }
    }
}

const TOLD: [(&str, &str); 7] = [
    ("curve", "curve ok;"),
    (
        "list\nlist 0 15\nlist 9 12",
        "list ok;list refused 32;list ok;",
    ),
    (
        "pattern\npattern 16\npattern 8",
        "pattern refused 31;pattern refused 32;pattern ok;",
    ),
    (
        "choose 0 - 0\ntrial 1 1\nreport 1 1 1 0\nwithdraw 1\nshow\nstatus",
        "choose closed;trial closed;report closed;withdraw closed;show closed;status closed;",
    ),
    ("open 0 1 1 1 1 8 0 0 - 1 - 0", "open refused 1;"),
    ("open 1 1 0 1 1 8 0 0 - 1 - 0", "open refused 2;"),
    ("open 1 1 1 1 1 9 4 0 - 1 - 0", "open refused 4;"),
];

#[test]
fn before_any_run(rt: HostRuntime) -> Result<(), Fail> {
    let heap = rt.alloc();
    for (text, want) in TOLD {
        assert_eq!(rt; told(heap, text)?.as_str(), want);
    }
    Ok(())
}

// A line of a name and n words.
fn repeated(heap: Global, name: &str, word: &str, n: usize) -> Result<String, AllocError> {
    let mut line = String::from_str(heap, name)?;
    for _ in 0..n {
        line.push_str(" ")?;
        line.push_str(word)?;
    }
    Ok(line)
}

#[test]
fn lengths(rt: HostRuntime) -> Result<(), Fail> {
    let heap = rt.alloc();
    let line = repeated(heap, "list", "9", 4096)?;
    assert_eq!(rt; told(heap, line.as_str())?.as_str(), "list ok;");
    let line = repeated(heap, "list", "9", 4097)?;
    assert_eq!(rt; told(heap, line.as_str())?.as_str(), "list refused 31;");
    let line = repeated(heap, "pattern", "9", 64)?;
    assert_eq!(rt; told(heap, line.as_str())?.as_str(), "pattern ok;");
    let line = repeated(heap, "pattern", "16", 65)?;
    assert_eq!(rt; told(heap, line.as_str())?.as_str(), "pattern refused 31;");
    let line = repeated(heap, "stair", "7", 256)?;
    assert_eq!(rt; told(heap, line.as_str())?.as_str(), "stair ok;");
    let line = repeated(heap, "stair 6", "7", 255)?;
    assert_eq!(rt; told(heap, line.as_str())?.as_str(), "stair refused 34;");
    let line = repeated(heap, "stair", "7", 257)?;
    assert_eq!(rt;
        told(heap, line.as_str())?.as_str(),
        "line 1: stair takes 256 operands (C0 ... C255), found 257"
    );
    Ok(())
}

// The places of the outlooks that the choices among the first lines see.
fn seen(heap: Global, script: &Script) -> Result<String, AllocError> {
    let calls = calls_of(heap, script.lines.as_slice(), Standing::at_first())?;
    let mut all = String::new(heap);
    for call in calls.as_slice() {
        if let Call::Choose { outlook, .. } = call {
            all.push_str(format!(in heap; "{outlook};")?.as_str())?;
        }
    }
    Ok(all)
}

const SCRIPT: &str = "choose 0 - 0
list 9
choose 0 - 0
list 99
pattern
choose 0 - 0
pattern 1 9
list
choose 0 - 0
";

#[test]
fn what_stands(rt: HostRuntime) -> Result<(), Fail> {
    let heap = rt.alloc();
    let Ok(script) = script_of(heap, SCRIPT.as_bytes()) else {
        return Err(Fail::new("refused"));
    };
    assert_eq!(rt;
        seen(heap, &script)?.as_str(),
        "18446744073709551615;0;0;2;"
    );
    let last = standing_after(script.lines.as_slice(), Standing::at_first());
    assert_eq!(rt;
        last,
        Standing {
            outlook: Some(2),
            stair: None,
        }
    );
    assert_eq!(rt; script.outlooks.len(), 3);
    Ok(())
}

#[test]
fn blocks(rt: HostRuntime) -> Result<(), Fail> {
    let heap = rt.alloc();
    let open = "open 1 1 1 1 1 8 0 0 - 1 - 0\n";
    let text = format!(in heap; "show\ncurve\n{open}{open}list\nshow\n")?;
    let Ok(script) = script_of(heap, text.as_str().as_bytes()) else {
        return Err(Fail::new("refused"));
    };
    let lines = script.lines.as_slice();
    assert!(rt; lines.len() == 6);
    assert_eq!(rt; block_length(lines), 2);
    assert_eq!(rt; block_length(&lines[2..]), 1);
    assert_eq!(rt; block_length(&lines[3..]), 3);
    assert_eq!(rt; block_length(&lines[6..]), 0);
    Ok(())
}
