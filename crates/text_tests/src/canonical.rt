// Programs in their canonical form, worked by hand.

use crate::printed::{Language, first_difference};
use std::test::Fail;

// A text, and its canonical text.
static CANONICAL: [(&str, &str); 13] = [
    (
        "local P in proc {P X} X=f(b:P P) end end",
        "local V0 in V0 = proc { $ V1 } V1 = f ( 1 : V0 b : V0 ) end end\n",
    ),
    (
        "local A B C in B = ~3 C = 'two words' A = f(b:B a:C B) {Browse A} end",
        "local V0 V1 V2 in V1 = ~3 V2 = 'two words' V0 = f ( 1 : V1 a : V2 b : V1 ) { Browse V0 } end\n",
    ),
    (
        "local A B C D in D=a C=nil B=D|C A=B|C {Browse A} end",
        "local V0 V1 V2 V3 in V3 = a V2 = nil V1 = '|' ( 1 : V3 2 : V2 ) V0 = '|' ( 1 : V1 2 : V2 ) { Browse V0 } end\n",
    ),
    (
        "local P in P = proc {$ X} skip end {Browse P} end",
        "local V0 in V0 = proc { $ V1 } skip end { Browse V0 } end\n",
    ),
    (
        "local A B C in A=B A='it\\'s'(~5:B 'b':C) A=B.C A=B.~5 A=B.'if' end",
        "local V0 V1 V2 in V0 = V1 V0 = 'it\\'s' ( ~5 : V1 b : V2 ) V0 = V1 . V2 V0 = V1 . ~5 V0 = V1 . 'if' end\n",
    ),
    (
        "local A B C in A=B+C A=B-C A=B*C A=B div C A=B mod C A=B=<C A=B<C A=B>=C A=B>C end",
        "local V0 V1 V2 in V0 = V1 + V2 V0 = V1 - V2 V0 = V1 * V2 V0 = V1 div V2 V0 = V1 mod V2 V0 = V1 =< V2 V0 = V1 < V2 V0 = V1 >= V2 V0 = V1 > V2 end\n",
    ),
    (
        "local A B C in A=B==C A=B\\=C end",
        "local V0 V1 V2 in V0 = V1 == V2 V0 = V1 \\= V2 end\n",
    ),
    (
        "local A B in if A then skip else raise B end end case A of H|T then H = T else skip end case A of ~1 then {Browse A} else {Wait B} end case A of a() then {NewCell A B} else {Exchange A B A} end end",
        "local V0 V1 in if V0 then skip else raise V1 end end case V0 of '|' ( 1 : V2 2 : V3 ) then V2 = V3 else skip end case V0 of ~1 then { Browse V0 } else { Wait V1 } end case V0 of a then { NewCell V0 V1 } else { Exchange V0 V1 V0 } end end\n",
    ),
    (
        "local P in proc {P X Y} {P X Y} end thread skip end thread at 2 skip end try skip catch E then {Browse E} end end",
        "local V0 in V0 = proc { $ V1 V2 } { V0 V1 V2 } end thread skip end thread at 2 skip end try skip catch V1 then { Browse V1 } end end\n",
    ),
    (
        "local X X in {Browse X} end",
        "local V0 V1 in { Browse V1 } end\n",
    ),
    (
        "local Browse in {Browse Browse} end",
        "local V0 in { V0 V0 } end\n",
    ),
    (
        "local S P K in {NewPort S P} {Send P S} {NewCellAt S P K} end",
        "local V0 V1 V2 in { NewPort V0 V1 } { Send V1 V0 } { NewCellAt V0 V1 V2 } end\n",
    ),
    (
        "local Send NewPort NewCellAt in {Send} {NewPort Send} {NewCellAt} end",
        "local V0 V1 V2 in { V0 } { V1 V0 } { V2 } end\n",
    ),
];

#[test]
fn texts_print_in_canonical_form(rt: HostRuntime) -> Result<(), Fail> {
    let differs = first_difference(rt.alloc(), Language::Kernel, CANONICAL.as_slice())?;
    assert_eq!(rt; differs, None);
    Ok(())
}

#[test]
fn canonical_texts_print_as_themselves(rt: HostRuntime) -> Result<(), Fail> {
    for (_, canonical) in CANONICAL {
        assert_eq!(rt;
            first_difference(rt.alloc(), Language::Kernel, &[(canonical, canonical)])?,
            None
        );
    }
    Ok(())
}
