// Texts that are refused: the first fault of each, worked by hand.

use crate::printed::{Language, first_difference, is_printed};
use std::alloc::{AllocError, Global};
use std::test::Fail;

// A text, and the line of its refusal.
static REFUSED: [(&str, &str); 76] = [
    ("", "refused 1:1 expected a statement"),
    (
        "local X in X = 170141183460469231731687303715884105728 end",
        "refused 1:16 bad number",
    ),
    (
        "local X in X = ~170141183460469231731687303715884105729 end",
        "refused 1:16 bad number",
    ),
    (
        "local X in X = f(170141183460469231731687303715884105728:X) end",
        "refused 1:18 bad number",
    ),
    (
        "local X Y in Y = f(X) X = Y.170141183460469231731687303715884105728 end",
        "refused 1:29 bad number",
    ),
    (
        "local X in case X of ~170141183460469231731687303715884105729 then skip else skip end end",
        "refused 1:22 bad number",
    ),
    (
        "local X in case X of f(170141183460469231731687303715884105728:Y) then skip else skip end end",
        "refused 1:24 bad number",
    ),
    (
        "thread at 170141183460469231731687303715884105728 skip end",
        "refused 1:11 bad number",
    ),
    (
        "local X in X = f(~170141183460469231731687303715884105729:X) end",
        "refused 1:18 bad number",
    ),
    (
        "local X Y in Y = f(X) X = Y.~170141183460469231731687303715884105729 end",
        "refused 1:29 bad number",
    ),
    (
        "local X in case X of 170141183460469231731687303715884105728 then skip else skip end end",
        "refused 1:22 bad number",
    ),
    (
        "local X in case X of f(~170141183460469231731687303715884105729:Y) then skip else skip end end",
        "refused 1:24 bad number",
    ),
    (
        "thread at ~170141183460469231731687303715884105729 skip end",
        "refused 1:11 bad number",
    ),
    (
        "thread at ~170141183460469231731687303715884105728 skip end",
        "refused 1:11 site below 1",
    ),
    ("local X in", "refused 1:11 expected a statement"),
    (
        "skip skip }",
        "refused 1:11 expected a statement or the end of the text",
    ),
    ("{Browse X}", "refused 1:9 undeclared"),
    ("local X in X = f(1:X X) end", "refused 1:22 given twice"),
    ("local X in X = fun", "refused 1:16 expected a value"),
    (
        "local X in X = X == end",
        "refused 1:21 expected a variable",
    ),
    ("thread at 0 skip end", "refused 1:11 site below 1"),
    ("local A in A = 'x", "refused 1:16 open quote"),
    ("/* /* */", "refused 1:1 open comment"),
    ("local X in X = 007 end", "refused 1:16 bad number"),
    ("local X Y in X == Y end", "refused 1:16 expected ="),
    ("loc", "refused 1:1 expected a statement"),
    (
        "local X in X = 5 {Browse X}",
        "refused 1:28 expected a statement or end",
    ),
    (
        "local X in {Browse} end",
        "refused 1:19 expected a variable",
    ),
    ("local X in {Browse X X} end", "refused 1:22 expected }"),
    ("{Browse Browse}", "refused 1:9 undeclared"),
    (
        "local P in {Send P} end",
        "refused 1:19 expected a variable",
    ),
    ("local P in {Send P P P} end", "refused 1:22 expected }"),
    (
        "local S in {NewPort S} end",
        "refused 1:22 expected a variable",
    ),
    (
        "local C in {NewCellAt C C} end",
        "refused 1:26 expected a variable",
    ),
    (
        "local C in {NewCellAt C C C C} end",
        "refused 1:29 expected }",
    ),
    ("{Send Send Send}", "refused 1:7 undeclared"),
    (
        "local Browse X in {Browse X X 1} end",
        "refused 1:31 expected a variable or }",
    ),
    ("local X in X = f(2:X X X) end", "refused 1:24 given twice"),
    (
        "local X in X = f(a:X b:X a) end",
        "refused 1:26 given twice",
    ),
    ("local X in X = f(a X) end", "refused 1:20 expected :"),
    (
        "local X in X = f(X = X) end",
        "refused 1:20 expected a field or )",
    ),
    ("local X in X = f(1:X Y) end", "refused 1:22 given twice"),
    (
        "local X in case X of f(Y Y) then skip else skip end end",
        "refused 1:26 given twice",
    ),
    (
        "local X in case X of f(b:Y a:Y) then skip else skip end end",
        "refused 1:30 given twice",
    ),
    (
        "local X in case X of Y|Y then skip else skip end end",
        "refused 1:24 given twice",
    ),
    (
        "local X in case X of Y then skip else skip end end",
        "refused 1:24 expected |",
    ),
    ("local X in case X of a skip", "refused 1:24 expected then"),
    (
        "local X in case X of = then",
        "refused 1:22 expected a pattern",
    ),
    ("local X in case X f", "refused 1:19 expected of"),
    (
        "local X in case X of g(Y) then {Browse Y} else {Browse Y} end end",
        "refused 1:56 undeclared",
    ),
    (
        "local X in if X then skip end end",
        "refused 1:27 expected a statement or else",
    ),
    ("try skip end", "refused 1:10 expected a statement or catch"),
    (
        "try skip catch E then {Browse E} end {Browse E}",
        "refused 1:46 undeclared",
    ),
    (
        "local X in raise X skip end end",
        "refused 1:20 expected end",
    ),
    ("thread }", "refused 1:8 expected a statement or at"),
    ("thread at X skip end", "refused 1:11 expected an integer"),
    ("thread at ~0 skip end", "refused 1:11 site below 1"),
    ("thread at 00 skip end", "refused 1:11 bad number"),
    ("proc {P} skip end", "refused 1:7 undeclared"),
    ("proc skip", "refused 1:6 expected {"),
    (
        "local P in P = proc {X} skip end end",
        "refused 1:22 expected $",
    ),
    (
        "local P in proc {P P 1",
        "refused 1:22 expected a variable or }",
    ),
    (
        "local X in X = X + 1 end",
        "refused 1:20 expected a variable",
    ),
    ("local X in X = X div Y end", "refused 1:22 undeclared"),
    ("local X in X = X|5 end", "refused 1:18 expected a variable"),
    (
        "local X in X = X.end",
        "refused 1:18 expected a variable or a feature",
    ),
    ("local X then", "refused 1:9 expected a variable or in"),
    (
        "local X in\n  X = 5\n  Y = 6\nend",
        "refused 3:3 undeclared",
    ),
    ("/* é */ X = 1", "refused 1:10 undeclared"),
    (
        "skip % 'é /*\n}",
        "refused 2:1 expected a statement or the end of the text",
    ),
    (
        "skip */",
        "refused 1:6 expected a statement or the end of the text",
    ),
    ("local X in X = 'a\\q' end", "refused 1:18 bad escape"),
    ("local X in X = 'a\\", "refused 1:16 open quote"),
    ("local X in X = 'a\x01' end", "refused 1:18 bad character"),
    (
        "local X in X = 'div' div end",
        "refused 1:22 expected a statement or end",
    ),
    ("skip /* /* */ skip", "refused 1:6 open comment"),
];

// What stands first, a piece that follows so many times, what stands behind it, and a piece that follows as often; and the
// line of the refusal, if the text is refused.
pub type Long = (
    &'static str,
    &'static str,
    u64,
    &'static str,
    &'static str,
    Option<&'static str>,
);

static LONG: [Long; 13] = [
    (
        "",
        "local X in ",
        200,
        "skip",
        "",
        Some("refused 1:2201 nested too deep"),
    ),
    ("", "local X in ", 199, "skip", " end", None),
    (
        "",
        "local X in ",
        200,
        "then",
        "",
        Some("refused 1:2201 expected a statement"),
    ),
    (
        "",
        "local X in ",
        199,
        "thread at 0",
        "",
        Some("refused 1:2200 site below 1"),
    ),
    (
        "local P in {P",
        " P",
        65,
        "} end",
        "",
        Some("refused 1:143 too many items"),
    ),
    ("local P in {P", " P", 64, "} end", "", None),
    (
        "local X in X = f(",
        "X ",
        64,
        "00:X) end",
        "",
        Some("refused 1:146 bad number"),
    ),
    (
        "local X in X = f(",
        "X ",
        64,
        "1:X) end",
        "",
        Some("refused 1:146 too many items"),
    ),
    ("", "A", 256, " = 1", "", Some("refused 1:1 name too long")),
    ("", "A", 255, " = 1", "", Some("refused 1:1 undeclared")),
    ("local X in X = '", "a", 253, "' end", "", None),
    (
        "local X in X = ",
        "9",
        100_000,
        " end",
        "",
        Some("refused 1:16 bad number"),
    ),
    (
        "",
        " ",
        1_048_576,
        "",
        "",
        Some("refused 1:1048577 expected a statement"),
    ),
];

#[test]
fn faults_stand_at_their_places(rt: HostRuntime) -> Result<(), Fail> {
    let differs = first_difference(rt.alloc(), Language::Kernel, REFUSED.as_slice())?;
    assert_eq!(rt; differs, None);
    Ok(())
}

fn push_times(text: &mut String, piece: &str, times: u64) -> Result<(), AllocError> {
    for _ in 0..times {
        text.push_str(piece)?;
    }
    Ok(())
}

/// The first of the texts that is not refused as told, by what stands first in it, by its piece and by how often that follows.
pub fn first_wrong(
    alloc: Global,
    language: Language,
    rows: &[Long],
) -> Result<Option<(&'static str, &'static str, u64)>, AllocError> {
    for row in rows {
        let (before, piece, times, behind, closing, want) = *row;
        let mut text = String::from_str(alloc, before)?;
        push_times(&mut text, piece, times)?;
        text.push_str(behind)?;
        push_times(&mut text, closing, times)?;
        if !is_printed(alloc, language, text.as_str(), want)? {
            return Ok(Some((before, piece, times)));
        }
    }
    Ok(None)
}

#[test]
fn limits_are_exact(rt: HostRuntime) -> Result<(), Fail> {
    let wrong = first_wrong(rt.alloc(), Language::Kernel, LONG.as_slice())?;
    assert_eq!(rt; wrong, None);
    Ok(())
}

/// A text with so many names of its own, from `V1` on, between two others.
pub fn text_with_names(
    alloc: Global,
    before: &str,
    count: u64,
    behind: &str,
) -> Result<String, AllocError> {
    let mut text = String::from_str(alloc, before)?;
    for number in 0..count {
        let name = format!(in alloc; " V{}", number.saturating_add(1))?;
        text.push_str(name.as_str())?;
    }
    text.push_str(behind)?;
    Ok(text)
}

#[test]
fn names_are_counted(rt: HostRuntime) -> Result<(), Fail> {
    let alloc = rt.alloc();
    let rows = [
        (
            "local",
            65,
            " in skip end",
            Some("refused 1:254 too many items"),
        ),
        ("local", 64, " in skip end", None),
        (
            "local P in P = proc {$",
            65,
            "} skip end end",
            Some("refused 1:271 too many items"),
        ),
        ("local P in P = proc {$", 64, "} skip end end", None),
    ];
    for (before, count, behind, want) in rows {
        let text = text_with_names(alloc, before, count, behind)?;
        assert!(rt;
            is_printed(alloc, Language::Kernel, text.as_str(), want)?,
            "at {before} {count}"
        );
    }
    Ok(())
}
