// The origins of the words of a move, and what it costs.

ghost use Rattle.std.specs.Prelude.{◌≡◌, ◌<◌, ◌≤◌, ◌*◌, ◌/◌, ◌%◌, [], ℕ, length, map, sum_by, IfOk, Some, slice_get};
ghost use Rattle.ae_sttype.specs.StTree.{element_atom, element_words, st_atoms, st_tree, time};
ghost use Rattle.ae_sttype.specs.Size.{IsInSize};
ghost use Rattle.ae_sttype.specs.Moves.{columns_of, first_column};
ghost use Rattle.ae_moves.specs.Trees.{origin_tree};
ghost use Rattle.ae_moves.specs.Origins.{IsMove};
ghost use Rattle.ae_rewrite.specs.Sound.{FixedFits, IsMoveFrom};
ghost use Rattle.ae_delay.specs.Moving.{constant_move, costs_of_move, op_move, origin_from};
ghost use Rattle.ae_delay.specs.Bounds.{AreSmall};

use ae_moves::{Origin, all_trips, latency, move_costs};
use ae_rewrite::MoveOp;
use ae_sttype::StType;
use std::alloc::{AllocError, Global};
use std::slice::from_ref;

/// What a move costs: its latency, the words that it keeps, the runs of its choices and its memories.
#[derive(Clone, Copy, Debug)]
pub(crate) struct MoveCosts {
    pub latency: u64,
    pub delay: u64,
    pub runs: u64,
    pub mems: u64,
}

// Where word j of element e of the result comes from, by how many elements the argument and the result have.
fn origin(how: MoveOp, arg_atoms: u32, out_atoms: u32, element: u32, word: u32) -> Origin
    requires from { IsMoveFrom how arg_atoms out_atoms }
    requires below { element < out_atoms }
    requires small { arg_atoms ≤ 16384 }
    ensures { origin_tree result ≡ origin_from how arg_atoms out_atoms element word }
{
    let element = match how {
        MoveOp::Shift(k) if element < k => return Origin::Fixed(0),
        MoveOp::Shift(k) => element - k,
        MoveOp::Up(_) => element % arg_atoms,
        MoveOp::Select(k) => k * out_atoms + element,
        MoveOp::Same => element,
    };
    Origin::Word {
        input: 0,
        element,
        word,
    }
}

/// The origins of the words of a move, by element of the result and then by word; an error only for want of memory.
pub fn origins(
    alloc: Global,
    how: MoveOp,
    arg: &StType,
    out: &StType,
) -> Result<Vec<Origin>, AllocError>
    requires arg { IsInSize (st_tree arg.now) }
    requires out { IsInSize (st_tree out.now) }
    requires from { IsMoveFrom how (st_atoms (st_tree arg.now)) (st_atoms (st_tree out.now)) }
    ensures { IfOk result (λ v. map origin_tree v.items ≡ (op_move how (st_tree arg.now) (st_tree out.now)).origins) }
{
    let words = out.element_words();
    let (arg_atoms, out_atoms) = (arg.atoms(), out.atoms());
    let mut origins = Vec::new(alloc);
    for o in 0..out_atoms * words {
        origins.push(origin(how, arg_atoms, out_atoms, o / words, o % words))?;
    }
    Ok(origins)
}

// The origins of a constant.
fn fixed_origins(alloc: Global, words: &[u64]) -> Result<Vec<Origin>, AllocError>
    ensures { IfOk result (λ v. v.items ≡ map (λ w. Origin.Fixed w) words.now) }
{
    words.iter().map(|w| Origin::Fixed(*w)).collect(alloc)
}

// What a move costs whose inputs have so many columns.
fn costs(
    alloc: Global,
    ins: &[StType],
    firsts: &[u32],
    columns: u32,
    out: &StType,
    source: &[Origin],
) -> Result<MoveCosts, AllocError>
    requires moves { IsMove (record { ins = map st_tree ins.now; out = st_tree out.now; origins = map origin_tree source.now }) }
    requires firsts { (i : ℕ) → i < length ins.now → slice_get firsts.now i ≡ Some (first_column (map st_tree ins.now) i) }
    requires columns { columns ≡ sum_by columns_of (map st_tree ins.now) }
    requires few { columns ≤ 16384 }
    ensures costs { IfOk result (λ c. c ≡ costs_of_move (record { ins = map st_tree ins.now; out = st_tree out.now; origins = map origin_tree source.now })) }
    ensures small { IfOk result AreSmall }
{
    let trips = all_trips(alloc, ins, firsts, out, source)?;
    let d = latency(ins, out, source);
    let outs = columns_in(out);
    let costs = move_costs(alloc, &trips, d, columns, outs, out.time())?;
    Ok(MoveCosts {
        latency: u64::from(d),
        delay: costs.delay,
        runs: costs.runs,
        mems: costs.mems,
    })
}

// The columns of a layout.
pub(crate) fn columns_in(s: &StType) -> u32
    requires { IsInSize (st_tree s.now) }
    ensures columns { result ≡ columns_of (st_tree s.now) }
    ensures few { result ≤ 16384 }
{
    s.lanes() * s.element_words()
}

/// What the move of an operator costs.
pub(crate) fn costs_of(
    alloc: Global,
    how: MoveOp,
    arg: &StType,
    out: &StType,
) -> Result<MoveCosts, AllocError>
    requires arg { IsInSize (st_tree arg.now) }
    requires out { IsInSize (st_tree out.now) }
    requires time { time (st_tree arg.now) ≡ time (st_tree out.now) }
    requires atom { element_atom (st_tree arg.now) ≡ element_atom (st_tree out.now) }
    requires from { IsMoveFrom how (st_atoms (st_tree arg.now)) (st_atoms (st_tree out.now)) }
    ensures costs { IfOk result (λ c. c ≡ costs_of_move (op_move how (st_tree arg.now) (st_tree out.now))) }
    ensures small { IfOk result AreSmall }
{
    let source = origins(alloc, how, arg, out)?;
    costs(alloc, from_ref(arg), &[0], columns_in(arg), out, &source)
}

/// What a constant costs.
pub(crate) fn costs_of_words(
    alloc: Global,
    words: &[u64],
    out: &StType,
) -> Result<MoveCosts, AllocError>
    requires out { IsInSize (st_tree out.now) }
    requires fits { FixedFits (st_tree out.now) words.now }
    ensures costs { IfOk result (λ c. c ≡ costs_of_move (constant_move words.now (st_tree out.now))) }
    ensures small { IfOk result AreSmall }
{
    let source = fixed_origins(alloc, words)?;
    costs(alloc, &[], &[], 0, out, &source)
}
