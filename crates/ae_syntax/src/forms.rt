// The forms of operator lines.

/// What stands between an operator's word and its arguments.
#[derive(Clone, Copy)]
pub enum Front {
    Nothing,
    /// A number from one bound to another.
    Number(u32, u32),
    /// Two numbers from 1 to 4,096.
    Numbers,
    Function,
    /// An operator that folds.
    Fold,
    /// A type of a word.
    Word,
    /// A type, and the words of a value.
    Value,
}

/// What stands behind an operator's word: how many arguments, 0 where it is 1 to 8 of them, and all of it in words.
#[derive(Clone, Copy)]
pub struct Form {
    pub front: Front,
    pub count: usize,
    pub takes: &'static str,
}

/// All words of operators.
pub const OPERATORS: [&str; 32] = [
    "add",
    "sub",
    "mul",
    "and",
    "or",
    "xor",
    "not",
    "min",
    "max",
    "eq",
    "lt",
    "mux",
    "shl",
    "shr",
    "cast",
    "pair",
    "fst",
    "snd",
    "zip",
    "call",
    "map",
    "map2",
    "reduce",
    "scan",
    "shift",
    "up",
    "select",
    "partition",
    "unpartition",
    "const",
    "fn",
    "end",
];

/// The operators that fold.
pub const FOLDING: [&str; 7] = ["add", "mul", "and", "or", "xor", "min", "max"];

const ONE: &str = "one argument";

const TWO: &str = "two arguments";

const NUMBER: &str = "a number K, and then one argument";

const FOLD: &str = "one of the operators add mul and or xor min max, and then one argument";

// The forms of all operators.
const FORMS: [(&str, Front, usize, &str); 30] = [
    ("add", Front::Nothing, 2, TWO),
    ("sub", Front::Nothing, 2, TWO),
    ("mul", Front::Nothing, 2, TWO),
    ("and", Front::Nothing, 2, TWO),
    ("or", Front::Nothing, 2, TWO),
    ("xor", Front::Nothing, 2, TWO),
    ("min", Front::Nothing, 2, TWO),
    ("max", Front::Nothing, 2, TWO),
    ("eq", Front::Nothing, 2, TWO),
    ("lt", Front::Nothing, 2, TWO),
    ("pair", Front::Nothing, 2, TWO),
    ("zip", Front::Nothing, 2, TWO),
    ("not", Front::Nothing, 1, ONE),
    ("fst", Front::Nothing, 1, ONE),
    ("snd", Front::Nothing, 1, ONE),
    ("unpartition", Front::Nothing, 1, ONE),
    (
        "mux",
        Front::Nothing,
        3,
        "three arguments: the bit, the one for 1 and the one for 0",
    ),
    ("shl", Front::Number(0, 63), 1, NUMBER),
    ("shr", Front::Number(0, 63), 1, NUMBER),
    ("shift", Front::Number(0, 4096), 1, NUMBER),
    ("select", Front::Number(0, 4096), 1, NUMBER),
    (
        "up",
        Front::Number(1, 4096),
        1,
        "a number N, and then one argument",
    ),
    (
        "partition",
        Front::Numbers,
        1,
        "two numbers N and M, and then one argument",
    ),
    (
        "map",
        Front::Function,
        1,
        "a function, and then one argument",
    ),
    (
        "map2",
        Front::Function,
        2,
        "a function, and then two arguments",
    ),
    (
        "call",
        Front::Function,
        0,
        "a function, and then its arguments, 1 to 8",
    ),
    ("reduce", Front::Fold, 1, FOLD),
    ("scan", Front::Fold, 1, FOLD),
    (
        "cast",
        Front::Word,
        1,
        "the type of a word, and then one argument",
    ),
    (
        "const",
        Front::Value,
        0,
        "a type, and then the words of its value",
    ),
];

/// The form of an operator's lines, if the word is one's.
pub fn form_of(word: &str) -> Option<Form> {
    for (known, front, count, takes) in &FORMS {
        if *known == word {
            return Some(Form {
                front: *front,
                count: *count,
                takes: *takes,
            });
        }
    }
    None
}
