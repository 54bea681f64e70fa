// What a text comes to, as a text.
use paint_script::{Line, ScriptRead, read_script};
use std::alloc::Global;
use std::fmt::Write;
use std::process::Abort;
use std::test::Fail;

/// A text, and what it comes to.
pub(crate) type Case = (&'static str, &'static str);

/// Lines; lines with ` | ` between them, each of which comes after those alone; and what each text comes to.
pub(crate) type After = (&'static str, &'static str, &'static str);

/// How many lines a script has, or its fault.
pub(crate) fn outcome(alloc: Global, text: &[u8]) -> Result<String, Fail> {
    match read_script(alloc, text) {
        ScriptRead::Valid(script) => {
            let count = script.lines().len();
            Ok(format!(in alloc; "a script of {count} lines")?)
        }
        ScriptRead::Fault(fault) => {
            let (line, why) = (fault.line, fault.why.name());
            Ok(format!(in alloc; "script line {line}: {why}")?)
        }
        ScriptRead::NoMemory => Err("no memory".into()),
    }
}

/// Lines as they were read.
pub(crate) fn listed(alloc: Global, lines: &[Line]) -> Result<String, Fail> {
    let mut out = String::new(alloc);
    for line in lines {
        if !out.is_empty() {
            out.push_str(" / ")?;
        }
        write!(out, "{line:?}")?;
    }
    Ok(out)
}

/// The lines of a script.
pub(crate) fn shown(alloc: Global, text: &[u8]) -> Result<String, Fail> {
    match read_script(alloc, text) {
        ScriptRead::Valid(script) => listed(alloc, script.lines()),
        ScriptRead::Fault(_) => outcome(alloc, text),
        ScriptRead::NoMemory => Err("no memory".into()),
    }
}

/// Whether each of these lines, with ` | ` between them, comes to that after the lines before.
pub(crate) fn check(
    rt: &impl Abort,
    alloc: Global,
    before: &[u8],
    lines: &str,
    want: &str,
) -> Result<(), Fail> {
    for line in lines.split(" | ") {
        let mut text = before.to_vec(alloc)?;
        text.extend_from_slice(line.as_bytes())?;
        let found = outcome(alloc, text.as_slice())?;
        assert_eq!(rt; found.as_str(), want, "{line:?}");
    }
    Ok(())
}

pub(crate) fn check_all(rt: &impl Abort, alloc: Global, rows: &[After]) -> Result<(), Fail> {
    for (before, lines, want) in rows {
        check(rt, alloc, before.as_bytes(), lines, want)?;
    }
    Ok(())
}

/// Whether each of these lines has this fault by itself.
pub(crate) fn check_lines(
    rt: &impl Abort,
    alloc: Global,
    why: &str,
    rows: &[&str],
) -> Result<(), Fail> {
    let want = format!(in alloc; "script line 1: {why}")?;
    for lines in rows {
        check(rt, alloc, b"", lines, want.as_str())?;
    }
    Ok(())
}

/// Whether these texts have these lines.
pub(crate) fn shown_all(rt: &impl Abort, alloc: Global, cases: &[Case]) -> Result<(), Fail> {
    for (text, want) in cases {
        let found = shown(alloc, text.as_bytes())?;
        assert_eq!(rt; found.as_str(), *want, "{text:?}");
    }
    Ok(())
}
