// Texts with sugar: the programs of the kernel that they stand for, and their first faults, worked by hand.

use crate::faults::{Long, first_wrong, text_with_names};
use crate::printed::{Language, first_difference, is_printed};
use std::test::Fail;

// A text, and the canonical text of the program that it stands for.
static EXPANDED: [(&str, &str); 24] = [
    (
        "local X in X = 1 + 2 end",
        "local V0 in local V1 in V1 = 1 local V2 in V2 = 2 V0 = V1 + V2 end end end\n",
    ),
    (
        "local X Y in X = Y == f(Y) end",
        "local V0 V1 in local V2 in V2 = f ( 1 : V1 ) V0 = V1 == V2 end end\n",
    ),
    (
        "local X Y in X = f(1 a:Y g(2)) end",
        "local V0 V1 in local V2 in local V3 in V0 = f ( 1 : V2 2 : V3 a : V1 ) V2 = 1 local V4 in V3 = g ( 1 : V4 ) V4 = 2 end end end end\n",
    ),
    (
        "local X in X = f(b:1 a:2) end",
        "local V0 in local V1 in local V2 in V0 = f ( a : V2 b : V1 ) V1 = 1 V2 = 2 end end end\n",
    ),
    (
        "local X in X = 1|X|nil end",
        "local V0 in local V1 in local V2 in V0 = '|' ( 1 : V1 2 : V2 ) V1 = 1 local V3 in V2 = '|' ( 1 : V0 2 : V3 ) V3 = nil end end end end\n",
    ),
    (
        "local F X in X = {F X 1 {F}} end",
        "local V0 V1 in local V2 in V2 = 1 local V3 in { V0 V3 } { V0 V1 V2 V3 V1 } end end end\n",
    ),
    (
        "local C in C = {NewCell 0} {Exchange C C {Exchange C 1}} end",
        "local V0 in local V1 in V1 = 0 { NewCell V1 V0 } end local V1 in local V2 in V2 = 1 { Exchange V0 V2 V1 } end { Exchange V0 V0 V1 } end end\n",
    ),
    (
        "local S P in P = {NewPort S} {Send P 1} end",
        "local V0 V1 in { NewPort V0 V1 } local V2 in V2 = 1 { Send V1 V2 } end end\n",
    ),
    (
        "local C in C = {NewCellAt 0 C} end",
        "local V0 in local V1 in V1 = 0 { NewCellAt V1 V0 V0 } end end\n",
    ),
    (
        "local F in fun {F X} X + 1 end F = fun {$} F end end",
        "local V0 in V0 = proc { $ V1 V2 } local V3 in V3 = 1 V2 = V1 + V3 end end V0 = proc { $ V1 } V1 = V0 end end\n",
    ),
    (
        "local X in X = if X then a else X end end",
        "local V0 in if V0 then V0 = a else V0 = V0 end end\n",
    ),
    (
        "local X in if X < 1 then skip else X = 2 end end",
        "local V0 in local V1 in local V2 in V2 = 1 V1 = V0 < V2 end if V1 then skip else V0 = 2 end end end\n",
    ),
    (
        "local X in X = case X of a then 1 [] H|T then H else {X} end end",
        "local V0 in case V0 of a then V0 = 1 else case V0 of '|' ( 1 : V1 2 : V2 ) then V0 = V1 else { V0 V0 } end end end\n",
    ),
    (
        "local X in case f(X) of a then skip [] f(Y) then X = Y [] b then skip else X = 1 end end",
        "local V0 in local V1 in V1 = f ( 1 : V0 ) case V1 of a then skip else case V1 of f ( 1 : V2 ) then V0 = V2 else case V1 of b then skip else V0 = 1 end end end end end\n",
    ),
    (
        "local X in try X = 1 finally {Browse X} end end",
        "local V0 in local V1 in V1 = proc { $ } { Browse V0 } end try V0 = 1 catch V2 then { V1 } raise V2 end end { V1 } end end\n",
    ),
    (
        "local X in try X = 1 catch E then raise E end finally {Browse 2} end end",
        "local V0 in local V1 in V1 = proc { $ } local V2 in V2 = 2 { Browse V2 } end end try try V0 = 1 catch V2 then raise V2 end end catch V2 then { V1 } raise V2 end end { V1 } end end\n",
    ),
    (
        "local X in raise f(X) end raise X end end",
        "local V0 in local V1 in V1 = f ( 1 : V0 ) raise V1 end end raise V0 end end\n",
    ),
    (
        "local X Y in X = a.b.Y X = (Y).2 end",
        "local V0 V1 in local V2 in local V3 in V3 = a V2 = V3 . b end V0 = V2 . V1 end local V2 in V2 = V1 V0 = V2 . 2 end end\n",
    ),
    (
        "local X in X = (X) {Browse (X)} end",
        "local V0 in V0 = V0 local V1 in V1 = V0 { Browse V1 } end end\n",
    ),
    (
        "local X Y in Y = case Y of f(X) then X else X end end",
        "local V0 V1 in case V1 of f ( 1 : V2 ) then V1 = V2 else V1 = V0 end end\n",
    ),
    (
        "local X in X = case X of f(X) then {X X} else 1 end end",
        "local V0 in case V0 of f ( 1 : V1 ) then { V1 V1 V0 } else V0 = 1 end end\n",
    ),
    (
        "local Browse X in X = {Browse 1} {Browse X 1} end",
        "local V0 V1 in local V2 in V2 = 1 { V0 V2 V1 } end local V2 in V2 = 1 { V0 V1 V2 } end end\n",
    ),
    (
        "local P in {P proc {$ X} {P X} end 'if'} end",
        "local V0 in local V1 in V1 = proc { $ V2 } { V0 V2 } end local V2 in V2 = 'if' { V0 V1 V2 } end end end\n",
    ),
    (
        "local X in X = a (1) X = f()|'|'(1) end",
        "local V0 in local V1 in V0 = a ( 1 : V1 ) V1 = 1 end local V1 in local V2 in V0 = '|' ( 1 : V1 2 : V2 ) V1 = f local V3 in V2 = '|' ( 1 : V3 ) V3 = 1 end end end end\n",
    ),
];

// A text, and the line of its refusal.
static REFUSED: [(&str, &str); 106] = [
    ("local X in X = fun", "refused 1:19 expected {"),
    ("local X in X = 5 {Browse", "refused 1:25 expected a value"),
    ("local X in X = end", "refused 1:16 expected a value"),
    ("local P in {P", "refused 1:14 expected a value or }"),
    ("local P in {P P then", "refused 1:17 expected a value or }"),
    ("local X in if X skip", "refused 1:17 expected then"),
    ("local X in case X then", "refused 1:19 expected of"),
    (
        "local X in X = if X then 1 end end",
        "refused 1:28 expected else",
    ),
    ("local X in X = if X else", "refused 1:21 expected then"),
    (
        "local X in X = if X then 1 else 2 else",
        "refused 1:35 expected end",
    ),
    (
        "local X in X = if X then skip",
        "refused 1:26 expected a value",
    ),
    ("local X in X = (X end", "refused 1:19 expected )"),
    (
        "local X in X = case X of a then 1 end end",
        "refused 1:35 expected [] or else",
    ),
    (
        "local X in X = case X of a then 1 [] b then 2 end end",
        "refused 1:47 expected [] or else",
    ),
    (
        "local X in X = case X of a then 1 else 2 [] b",
        "refused 1:42 expected end",
    ),
    (
        "local X in case X of a then skip end end",
        "refused 1:34 expected a statement, [] or else",
    ),
    (
        "local X in case X of a then skip [] b then skip end end",
        "refused 1:49 expected a statement, [] or else",
    ),
    (
        "local X in case X of a then skip else skip [] b",
        "refused 1:44 expected a statement or end",
    ),
    (
        "local X in case X of a then skip [] then",
        "refused 1:37 expected a pattern",
    ),
    (
        "local X in case X of a then skip [] Y then",
        "refused 1:39 expected |",
    ),
    (
        "try skip end",
        "refused 1:10 expected a statement, catch or finally",
    ),
    (
        "try skip catch E then skip }",
        "refused 1:28 expected a statement, finally or end",
    ),
    (
        "try skip finally skip catch",
        "refused 1:23 expected a statement or end",
    ),
    (
        "try skip catch E then skip finally end",
        "refused 1:36 expected a statement",
    ),
    (
        "try skip finally skip finally",
        "refused 1:23 expected a statement or end",
    ),
    ("fun F", "refused 1:5 expected {"),
    ("fun {", "refused 1:6 expected a variable"),
    ("fun {$", "refused 1:6 expected a variable"),
    ("local F in F = fun {F", "refused 1:21 expected $"),
    ("local F in F = proc {F", "refused 1:22 expected $"),
    ("fun {F} 1 end", "refused 1:6 undeclared"),
    (
        "local F in fun {F X X} 1 end end",
        "refused 1:21 given twice",
    ),
    (
        "local F in fun {F 1",
        "refused 1:19 expected a variable or }",
    ),
    ("local F in fun {F} skip", "refused 1:20 expected a value"),
    ("local F in fun {F} 1 2", "refused 1:22 expected end"),
    ("raise", "refused 1:6 expected a value"),
    ("raise 1 2", "refused 1:9 expected end"),
    ("local X in X = X +", "refused 1:19 expected a value"),
    (
        "local X in X = X + if X then 1 else 2 end end",
        "refused 1:20 expected a value",
    ),
    (
        "local X in X = 1|case X of a then 1 else 2 end end",
        "refused 1:18 expected a value",
    ),
    (
        "local X in X = X + X + X end",
        "refused 1:22 expected a statement or end",
    ),
    (
        "local X in X = X * X == X end",
        "refused 1:22 expected a statement or end",
    ),
    (
        "local X in if X + X == X then",
        "refused 1:21 expected then",
    ),
    (
        "local X in X = X|X + X end",
        "refused 1:20 expected a statement or end",
    ),
    (
        "local X in X = X + X|X end",
        "refused 1:21 expected a statement or end",
    ),
    (
        "local X in X = f(X + X + X) end",
        "refused 1:24 expected a field or )",
    ),
    (
        "local X in {X X + X + X} end",
        "refused 1:21 expected a value or }",
    ),
    ("local X in X = (X + X * X) end", "refused 1:23 expected )"),
    ("local X in {Browse X X} end", "refused 1:22 expected }"),
    ("local X in {Browse X + X X} end", "refused 1:26 expected }"),
    ("local X in X = {Browse X} end", "refused 1:24 expected }"),
    (
        "local X in X = {Exchange X} end",
        "refused 1:27 expected a value",
    ),
    (
        "local X in X = {NewCell} end",
        "refused 1:24 expected a value",
    ),
    ("local P in P = {Send P P} end", "refused 1:24 expected }"),
    (
        "local S in S = {NewPort} end",
        "refused 1:24 expected a value",
    ),
    (
        "local C in {NewCellAt C} end",
        "refused 1:24 expected a value",
    ),
    ("local X in X = {} end", "refused 1:17 expected a variable"),
    (
        "local X in X = {f X} end",
        "refused 1:17 expected a variable",
    ),
    ("local X in {{X} X} end", "refused 1:13 expected a variable"),
    ("local X in X = f(1 1:X) end", "refused 1:20 given twice"),
    ("local X in X = f(1:X 1) end", "refused 1:22 given twice"),
    ("local X in X = f(1:X Y) end", "refused 1:22 given twice"),
    ("local X in X = f(a:X a:Y) end", "refused 1:22 given twice"),
    ("local X in X = f(2:1 2 3) end", "refused 1:24 given twice"),
    ("local X in X = f(a:) end", "refused 1:20 expected a value"),
    (
        "local X in X = f(X:1) end",
        "refused 1:19 expected a field or )",
    ),
    (
        "local X in X = f({X}:1) end",
        "refused 1:21 expected a field or )",
    ),
    (
        "local X in X = a.b.c(X) end",
        "refused 1:21 expected a statement or end",
    ),
    (
        "local X in X = X.a(1) end",
        "refused 1:19 expected a statement or end",
    ),
    (
        "local X in X = X.(1) end",
        "refused 1:18 expected a variable or a feature",
    ),
    (
        "local X in X = X.{ end",
        "refused 1:18 expected a variable or a feature",
    ),
    ("local X in X = a.00 end", "refused 1:18 bad number"),
    ("local X in X = f(00) end", "refused 1:18 bad number"),
    ("local X in X = f(00:1) end", "refused 1:18 bad number"),
    ("local X in X = f(1 00 2) end", "refused 1:20 bad number"),
    ("local X in X = {X 00} end", "refused 1:19 bad number"),
    ("local X in X = [] end", "refused 1:16 expected a value"),
    (
        "local X in X = finally end",
        "refused 1:16 expected a value",
    ),
    (
        "local X in X = andthen end",
        "refused 1:16 expected a value",
    ),
    (
        "local A B X in X = A andthen B end",
        "refused 1:22 expected a statement or end",
    ),
    ("andthen X", "refused 1:1 expected a statement"),
    ("[] skip", "refused 1:1 expected a statement"),
    (
        "local X in if X then skip [] skip",
        "refused 1:27 expected a statement or else",
    ),
    (
        "local X in X = thread skip end",
        "refused 1:16 expected a value",
    ),
    ("local X in X = local Y", "refused 1:16 expected a value"),
    (
        "local X in X = case X of f(1) then 1",
        "refused 1:29 expected :",
    ),
    (
        "local X in X = case X of f(g(Y)) then 1",
        "refused 1:29 expected :",
    ),
    (
        "local X in X = case X of f(Y Y) then 1",
        "refused 1:30 given twice",
    ),
    (
        "local X in X = case X of Y|Y then 1",
        "refused 1:28 given twice",
    ),
    (
        "local X in X = case X of g(Y) then Y else Y end end",
        "refused 1:43 undeclared",
    ),
    (
        "local X in X = case X of g(Y) then 1 [] h then Y else",
        "refused 1:48 undeclared",
    ),
    (
        "local F in F = fun {$ X} X end F = X",
        "refused 1:36 undeclared",
    ),
    ("local X in {Browse Y|1} end", "refused 1:20 undeclared"),
    ("local X in X = 1 + Y end", "refused 1:20 undeclared"),
    ("local X in X = Y + 1 end", "refused 1:16 undeclared"),
    ("local X in X = a.Y end", "refused 1:18 undeclared"),
    ("local X in X = {Y 1} end", "refused 1:17 undeclared"),
    (
        "local X in thread at X + 1 skip",
        "refused 1:22 expected an integer",
    ),
    ("local X in X + 1 = X end", "refused 1:14 expected ="),
    (
        "local X in (X) = 1 end",
        "refused 1:12 expected a statement",
    ),
    (
        "local X in {X} = 1 end",
        "refused 1:16 expected a statement or end",
    ),
    (
        "local X in case X + 1 of 2 then skip else skip",
        "refused 1:47 expected a statement or end",
    ),
    ("local X in X = ( end", "refused 1:18 expected a value"),
    ("local X in X = () end", "refused 1:17 expected a value"),
    ("local X in X = (1 2) end", "refused 1:19 expected )"),
    ("local X in X = -5 end", "refused 1:16 expected a value"),
];

static LIMITS: [Long; 21] = [
    ("local P X in X = {P", " 1", 63, "} end", "", None),
    (
        "local P X in X = {P",
        " 1",
        63,
        " 1",
        "",
        Some("refused 1:147 too many items"),
    ),
    ("local P in {P", " 1", 64, "} end", "", None),
    (
        "local P in {P",
        " 1",
        64,
        " 1",
        "",
        Some("refused 1:143 too many items"),
    ),
    ("local X in X = f(", "1 ", 64, ") end", "", None),
    (
        "local X in X = f(",
        "1 ",
        64,
        "a:1",
        "",
        Some("refused 1:146 too many items"),
    ),
    ("local X in X = ", "1|", 99, "nil end", "", None),
    (
        "local X in X = ",
        "1|",
        100,
        "nil end",
        "",
        Some("refused 1:214 nested too deep"),
    ),
    (
        "local X in X = ",
        "1|",
        100,
        "nil {Browse Y} end",
        "",
        Some("refused 1:228 undeclared"),
    ),
    (
        "local X in X = ",
        "1|",
        100,
        "nil } end",
        "",
        Some("refused 1:220 expected a statement or end"),
    ),
    ("local X in X = ", "X|", 198, "nil end", "", None),
    (
        "local X in X = ",
        "X|",
        199,
        "nil end",
        "",
        Some("refused 1:414 nested too deep"),
    ),
    ("local X in X = X", ".a", 199, " end", "", None),
    (
        "local X in X = X",
        ".a",
        200,
        " end",
        "",
        Some("refused 1:415 nested too deep"),
    ),
    (
        "local X in X = ",
        "f(",
        198,
        "X",
        ")",
        Some("refused 1:611 expected a statement or end"),
    ),
    (
        "local X in X = ",
        "f(",
        199,
        "X",
        "",
        Some("refused 1:415 expected a field or )"),
    ),
    (
        "local X in case X of a then skip ",
        "[] b then skip ",
        197,
        "else skip end end",
        "",
        None,
    ),
    (
        "local X in case X of a then skip ",
        "[] b then skip ",
        198,
        "else skip end end",
        "",
        Some("refused 1:2999 nested too deep"),
    ),
    (
        "local X in case X of a then skip ",
        "[] b then skip ",
        199,
        "else skip end end",
        "",
        Some("refused 1:12 nested too deep"),
    ),
    ("", "try skip finally ", 99, "skip", " end", None),
    (
        "",
        "try skip finally ",
        100,
        "skip",
        " end",
        Some("refused 1:1684 nested too deep"),
    ),
];

#[test]
fn texts_stand_for_programs(rt: HostRuntime) -> Result<(), Fail> {
    let differs = first_difference(rt.alloc(), Language::Sugared, EXPANDED.as_slice())?;
    assert_eq!(rt; differs, None);
    Ok(())
}

#[test]
fn faults_of_sugar_stand_at_their_places(rt: HostRuntime) -> Result<(), Fail> {
    let differs = first_difference(rt.alloc(), Language::Sugared, REFUSED.as_slice())?;
    assert_eq!(rt; differs, None);
    Ok(())
}

#[test]
fn limits_of_sugar_are_exact(rt: HostRuntime) -> Result<(), Fail> {
    let wrong = first_wrong(rt.alloc(), Language::Sugared, LIMITS.as_slice())?;
    assert_eq!(rt; wrong, None);
    Ok(())
}

#[test]
fn formals_of_functions_are_counted(rt: HostRuntime) -> Result<(), Fail> {
    let alloc = rt.alloc();
    let rows = [
        (
            "local F in fun {F",
            64,
            "} 1 end end",
            Some("refused 1:262 too many items"),
        ),
        ("local F in fun {F", 63, "} 1 end end", None),
    ];
    for (before, count, behind, want) in rows {
        let text = text_with_names(alloc, before, count, behind)?;
        assert!(rt;
            is_printed(alloc, Language::Sugared, text.as_str(), want)?,
            "at {before} {count}"
        );
    }
    Ok(())
}
