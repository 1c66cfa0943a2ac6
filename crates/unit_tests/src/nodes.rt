// Spellings worked out by hand, copies, environments.

use std::alloc::{AllocError, Global};
use std::test::Fail;
use tree_node::{
    CellName, CodeId, Env, Feature, Fields, Integer, Name, Node, Pick, ProcName, Term, Text,
    ThreadName, VarName, Vars, atom_text, copy_node, copy_pick, copy_term, equal_text, is_reserved,
    node_arity, node_head, plain_pick,
};

fn text(alloc: Global, bytes: &[u8]) -> Result<Text, AllocError> {
    Ok(Text::from_vec(Vec::from_slice(alloc, bytes)?)?)
}

fn variable(num: u64) -> VarName {
    VarName { site: 1, num }
}

fn atom(alloc: Global, bytes: &[u8]) -> Result<Node, AllocError> {
    Ok(Node::Atom(text(alloc, bytes)?))
}

fn record(alloc: Global, label: &[u8], last: u64) -> Result<Node, AllocError> {
    let fields = vec![in alloc;
        (Feature::Int(Integer::new(1)), variable(1)),
        (Feature::Atom(text(alloc, b"a")?), variable(last)),
    ]?;
    Ok(Node::Rec(text(alloc, label)?, Fields::from_vec(fields)?))
}

fn procedure(alloc: Global, num: u64, formals: u8) -> Result<Node, AllocError> {
    let vars = vec![in alloc; variable(4)]?;
    Ok(Node::Proc(
        formals,
        CodeId(3),
        ProcName { site: 1, num },
        Vars::from_vec(vars)?,
    ))
}

static ATOMS: [(&[u8], &[u8]); 14] = [
    (b"a", b"a"),
    (b"aB9_", b"aB9_"),
    (b"nil", b"nil"),
    (b"true", b"true"),
    (b"skipp", b"skipp"),
    (b"skip", b"'skip'"),
    (b"unit", b"'unit'"),
    (b"", b"''"),
    (b"Abc", b"'Abc'"),
    (b"_a", b"'_a'"),
    (b"9", b"'9'"),
    (b"two words", b"'two words'"),
    (b"|", b"'|'"),
    (b"it's\\a\nb", b"'it\\'s\\\\a\\nb'"),
];

#[test]
fn atoms_are_bare_or_quoted(rt: HostRuntime) -> Result<(), Fail> {
    for (bytes, want) in ATOMS.as_slice() {
        let line = atom_text(rt.alloc(), &text(rt.alloc(), bytes)?)?;
        assert_eq!(rt; line.as_slice(), *want);
    }
    Ok(())
}

fn head_is(alloc: Global, node: &Node, want: &[u8]) -> Result<bool, AllocError> {
    let line = node_head(alloc, node)?;
    Ok(line.as_slice() == want)
}

// Whether a node that is made for it has this head.
fn has_head(
    alloc: Global,
    node: Result<Node, AllocError>,
    want: &[u8],
) -> Result<bool, AllocError> {
    match node {
        Ok(node) => head_is(alloc, &node, want),
        Err(error) => Err(error),
    }
}

static INTEGERS: [(i128, &str); 4] = [
    (0, "0"),
    (-3, "~3"),
    (i128::MAX, "170141183460469231731687303715884105727"),
    (i128::MIN, "~170141183460469231731687303715884105728"),
];

#[test]
fn heads_of_nodes_are_spelled(rt: HostRuntime) -> Result<(), Fail> {
    let alloc = rt.alloc();
    for (value, want) in INTEGERS.as_slice() {
        assert!(rt;
            has_head(alloc, Ok(Node::Int(Integer::new(*value))), want.as_bytes())?,
            "at {value}"
        );
    }
    assert!(rt; has_head(alloc, atom(alloc, b"if"), b"'if'")?);
    assert!(rt; has_head(alloc, record(alloc, b"|", 2), b"'|'")?);
    assert!(rt; has_head(alloc, procedure(alloc, 0, 64), b"<P/64>")?);
    let cell = Node::Cell(CellName {
        site: 1,
        at: 0,
        num: 0,
    });
    assert!(rt; has_head(alloc, Ok(cell), b"<Cell>")?);
    Ok(())
}

static WORDS: [&str; 45] = [
    "skip", "local", "in", "end", "if", "then", "else", "case", "of", "thread", "at", "try",
    "catch", "raise", "proc", "div", "mod", "andthen", "attr", "choice", "class", "cond",
    "declare", "define", "dis", "elsecase", "elseif", "export", "fail", "feat", "finally", "from",
    "fun", "functor", "import", "lock", "meth", "not", "or", "orelse", "prepare", "prop",
    "require", "self", "unit",
];

static OTHERS: [&str; 8] = ["", "true", "false", "skipp", "ski", "Local", "nil", "'if'"];

#[test]
fn reserved_words_are_told(rt: HostRuntime) {
    for word in WORDS.as_slice() {
        assert!(rt; is_reserved(word), "at {word}");
    }
    for word in OTHERS.as_slice() {
        assert!(rt; !is_reserved(word), "at {word}");
    }
}

// Nodes of different texts, by number.
fn sample(alloc: Global, at: u64) -> Result<Node, AllocError> {
    match at {
        0 => Ok(Node::Int(Integer::new(5))),
        1 => Ok(atom(alloc, b"f")?),
        2 => Ok(record(alloc, b"f", 2)?),
        3 => Ok(record(alloc, b"g", 2)?),
        4 => Ok(record(alloc, b"f", 3)?),
        5 => Ok(procedure(alloc, 1, 1)?),
        6 => Ok(Node::Cell(CellName {
            site: 1,
            at: 0,
            num: 1,
        })),
        other => Ok(Node::Cell(CellName {
            site: 2,
            at: 0,
            num: other,
        })),
    }
}

fn copied(alloc: Global, at: u64) -> Result<Node, AllocError> {
    copy_node(&sample(alloc, at)?)
}

// Whether two nodes that are made for it have the same text.
fn are_same(
    left: Result<Node, AllocError>,
    right: Result<Node, AllocError>,
) -> Result<bool, AllocError> {
    match (left, right) {
        (Ok(left), Ok(right)) => Ok(equal_text(&left, &right)),
        _ => Err(AllocError),
    }
}

#[test]
fn copies_have_equal_text(rt: HostRuntime) -> Result<(), Fail> {
    let alloc = rt.alloc();
    for at in 0..9 {
        for other in 0..9 {
            assert_eq!(rt;
                are_same(copied(alloc, at), sample(alloc, other))?,
                at == other,
                "at {at} and {other}"
            );
        }
    }
    Ok(())
}

#[test]
fn a_record_is_copied_with_its_fields(rt: HostRuntime) -> Result<(), Fail> {
    let term = Term::Node(sample(rt.alloc(), 2)?);
    let copy = copy_term(&term)?;
    assert!(rt; matches!(&copy, Term::Node(node) if node_arity(node) == 2));
    Ok(())
}

fn three_positions(alloc: Global) -> Result<Env, AllocError> {
    let mut env = Env::for_positions(alloc, &[2, 5], &[variable(2), variable(5)])?;
    env.set(3, variable(3))?;
    env.set(5, variable(6))?;
    Ok(env)
}

fn one_more(alloc: Global, env: &Env) -> Result<Env, AllocError> {
    Ok(env.copy(alloc)?.bind(0, variable(1)))
}

fn two_of_them(alloc: Global, env: &Env) -> Result<Env, AllocError> {
    let limited = env.restriction(alloc, &[0, 4])?;
    Ok(limited.with_room()?.bind(4, variable(4)))
}

// A position, and the number of its variable in an environment, after one more was bound, and where two are left of these.
type Row = (u32, Option<u64>, Option<u64>, Option<u64>);

static POSITIONS: [Row; 5] = [
    (0, None, Some(1), Some(1)),
    (2, Some(2), Some(2), None),
    (3, Some(3), Some(3), None),
    (4, None, None, Some(4)),
    (5, Some(6), Some(6), None),
];

// Whether an environment has the variable of this number at a position, or none.
fn has(env: &Env, position: u32, num: Option<u64>) -> bool {
    match (env.get(position), num) {
        (Some(var), Some(num)) => var == variable(num),
        (None, None) => true,
        _ => false,
    }
}

#[test]
fn environments_map_positions(rt: HostRuntime) -> Result<(), Fail> {
    let alloc = rt.alloc();
    let env = three_positions(alloc)?;
    let bound = one_more(alloc, &env)?;
    let rebound = two_of_them(alloc, &bound)?;
    for row in POSITIONS.as_slice() {
        let (position, before, after, last) = *row;
        assert!(rt; has(&env, position, before), "at {position}");
        assert!(rt; has(&bound, position, after), "at {position}");
        assert!(rt; has(&rebound, position, last), "at {position}");
    }
    Ok(())
}

fn pick_of_one(alloc: Global) -> Result<Pick, AllocError> {
    let mut pick = plain_pick(alloc, ThreadName { site: 1, num: 0 }, None);
    pick.fresh.push(Name::Var(variable(1)))?;
    Ok(pick)
}

#[test]
fn a_copied_pick_keeps_its_names(rt: HostRuntime) -> Result<(), Fail> {
    let pick = pick_of_one(rt.alloc())?;
    let copy = copy_pick(rt.alloc(), &pick)?;
    assert_eq!(rt; copy.fresh.as_slice(), [Name::Var(variable(1))].as_slice());
    assert!(rt; copy.bind.is_none());
    Ok(())
}
