//! Reserved words.

ghost use Rattle.std.specs.Prelude.{◌≡◌, map};
ghost use Rattle.std.specs.List.{list_any};
ghost use Rattle.std.specs.Str.{bytes_eq};
ghost use Rattle.tree_node.specs.Words.{is_reserved, now_of, words_of_length};

// The reserved words by their length, each time first those that the grammar uses, then those that it keeps for later.
static OF_TWO: [&[u8]; 5] = [b"in", b"if", b"of", b"at", b"or"];

static OF_THREE: [&[u8]; 7] = [b"end", b"try", b"fun", b"div", b"mod", b"dis", b"not"];

static OF_FOUR: [&[u8]; 15] = [
    b"skip", b"then", b"else", b"case", b"proc", b"attr", b"cond", b"fail", b"feat", b"from",
    b"lock", b"meth", b"prop", b"self", b"unit",
];

static OF_FIVE: [&[u8]; 4] = [b"local", b"catch", b"raise", b"class"];

static OF_SIX: [&[u8]; 7] = [
    b"thread", b"choice", b"define", b"elseif", b"export", b"import", b"orelse",
];

static OF_SEVEN: [&[u8]; 6] = [
    b"finally", b"andthen", b"declare", b"functor", b"prepare", b"require",
];

static OF_EIGHT: [&[u8]; 1] = [b"elsecase"];

#[tactic(auto, unfolding(crate::specs::Words::reserved_words), using(crate::proofs::WordLemmas::no_words))]
fn words_of_length(length: usize) -> &'static [&'static [u8]]
    ensures { map now_of result.now ≡ words_of_length length }
{
    if length == 2 {
        OF_TWO.as_slice()
    } else if length == 3 {
        OF_THREE.as_slice()
    } else if length == 4 {
        OF_FOUR.as_slice()
    } else if length == 5 {
        OF_FIVE.as_slice()
    } else if length == 6 {
        OF_SIX.as_slice()
    } else if length == 7 {
        OF_SEVEN.as_slice()
    } else if length == 8 {
        OF_EIGHT.as_slice()
    } else {
        &[]
    }
}

fn is_among(words: &[&[u8]], text: &[u8]) -> bool
    ensures { result ≡ list_any (λ word. bytes_eq text.now word) (map now_of words.now) }
{
    for word in words {
        if text == *word {
            return true;
        }
    }
    false
}

/// Whether a text is one of the reserved words. An atom that is spelt so must be quoted.
pub fn is_reserved(text: &str) -> bool
    ensures { result ≡ is_reserved text.now }
{
    is_reserved_word(text.as_bytes())
}

/// Whether these bytes are one of the reserved words.
#[tactic(auto, using(crate::proofs::WordLemmas::among_all))]
pub fn is_reserved_word(text: &[u8]) -> bool
    ensures { result ≡ is_reserved text.now }
{
    is_among(words_of_length(text.len()), text)
}
