// Scripts made of a number, and what the calls on scripts give.
use crate::outcomes::{Case, listed, shown};
use paint_script::{Paints, Script, ScriptRead, first_plan_line, generate, read_script};
use std::alloc::Global;
use std::test::Fail;

/// The first lines of the script made of 7, up to the first turn.
const FIRST: &str = "peer exact\n\
    peer lossy\n\
    peer exact\n\
    open 1 0 0 256 256\n\
    open 2 0 0 256 256\n\
    open 3 0 0 256 256\n\
    open 4 0 0 256 256\n\
    raise 4\n\
    copy 4 118 3 52 1 3 118\n\
    resize 3 236 223\n\
    fill 3 50 93 49 25 5f1dd9\n\
    resize 1 230 203\n\
    noise 2 91 100 41 62 4790935\n\
    fill 3 44 104 33 33 10c052\n\
    fill 1 94 13 29 27 62e8cb\n\
    fill 1 50 107 32 38 301c33\n\
    copy 4 9 84 52 57 84 9\n\
    turn";

/// And its last ones, as they are printed.
const LAST: &str = "Paint(Copy { wid: Wid(2), x: 74, y: 65, w: 27, h: 43, tx: 65, ty: 74 }) / \
    Paint(Resize { wid: Wid(2), w: 224, h: 236 }) / \
    Plan(Turn)";

/// The first 18 lines and the last three, how many lines there are, and how many of them paint.
fn ends(alloc: Global, script: &Script) -> Result<String, Fail> {
    let lines = script.lines();
    let paints = script.paints(alloc)?;
    let (Some(first), Some(last)) = (lines.get(..18), lines.get(554..)) else {
        return Err("few lines".into());
    };
    let (first, last) = (listed(alloc, first)?, listed(alloc, last)?);
    Ok(format!(in alloc; "{first} .. {last}: {} {}", lines.len(), paints.len())?)
}

#[test]
fn the_script_made_of_7_is_as_worked_by_hand(rt: HostRuntime) -> Result<(), Fail> {
    let alloc = rt.alloc();
    let found = ends(alloc, &generate(alloc, 7)?)?;
    let first = shown(alloc, FIRST.as_bytes())?;
    let want = format!(in alloc; "{first} .. {LAST}: 557 504")?;
    assert_eq!(rt; found.as_str(), want.as_str());
    Ok(())
}

/// Texts, and the number of the first plan line.
const PLANS: &[Case] = &[
    ("accept", "Some(1)"),
    ("read 0", "Some(1)"),
    ("capture 0 1", "Some(1)"),
    ("take", "Some(1)"),
    ("finish 1", "Some(1)"),
    ("send 0 1", "Some(1)"),
    ("owed 0 1", "Some(1)"),
    ("wait 0", "Some(1)"),
    ("turn", "Some(1)"),
    ("open 1 0 0 1 1", "None"),
    ("close 1", "None"),
    ("fill 1 0 0 1 1 000000", "None"),
    ("copy 1 0 0 1 1 0 0", "None"),
    ("noise 1 0 0 1 1 0", "None"),
    ("resize 1 1 1", "None"),
    ("move 1 0 0", "None"),
    ("raise 1", "None"),
    ("peer exact", "None"),
    ("peer exact u", "None"),
    ("peer lossy", "None"),
    ("peer lossy u", "None"),
    ("peer dry 0", "None"),
    ("peer hex 00", "None"),
    ("map 0 1", "None"),
    ("unmap 0 1", "None"),
    ("refresh 0 1", "None"),
    ("leave 0", "None"),
    ("say 0 00", "None"),
    ("", "None"),
    ("frob", "None"),
    ("turn x", "None"),
    ("# turn", "None"),
    ("peer exact\nopen 1 0 0 1 1\n", "None"),
    ("\n\nturn\nturn", "Some(3)"),
    ("# turn\nfrob\nturn x\n\twait 5\r\nturn", "Some(4)"),
];

#[test]
fn the_first_plan_line_is_found(rt: HostRuntime) -> Result<(), Fail> {
    for (text, want) in PLANS {
        let number = first_plan_line(rt.alloc(), text.as_bytes())?;
        let found = format!(in rt.alloc(); "{number:?}")?;
        assert_eq!(rt; found.as_str(), *want, "{text:?}");
    }
    Ok(())
}

/// How many paint lines, all of them, and those at the second place and the third.
fn paints_of(alloc: Global, paints: &Paints) -> Result<String, Fail> {
    let (count, all) = (paints.len(), paints.as_slice());
    let (second, third) = (paints.line(1), paints.line(2));
    Ok(format!(in alloc; "{count} {all:?} {second:?} {third:?}")?)
}

#[test]
fn the_paint_lines_of_a_script_are_in_order(rt: HostRuntime) -> Result<(), Fail> {
    let alloc = rt.alloc();
    let ScriptRead::Valid(script) = read_script(alloc, b"open 7 1 2 3 4\npeer exact\nturn\nraise 7")
    else {
        return Err("no script".into());
    };
    let found = paints_of(alloc, &script.paints(alloc)?)?;
    let want =
        "2 [Open { wid: Wid(7), x: 1, y: 2, w: 3, h: 4 }, Raise { wid: Wid(7) }] Some(Raise { wid: Wid(7) }) None";
    assert_eq!(rt; found.as_str(), want);
    Ok(())
}

#[test]
fn no_lines_are_a_script(rt: HostRuntime) {
    let script = Script::of_lines(Vec::new(rt.alloc()));
    assert!(rt; script.lines().is_empty());
}
