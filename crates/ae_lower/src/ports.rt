// The ports of a circuit: one for each word of each lane.

ghost use Rattle.std.specs.Prelude.{◌≡◌, ◌<◌, ◌≤◌, ◌+◌, ◌-◌, ◌*◌, ◌^◌, ◌++◌, ◌∷◌, [], ℕ, IfOk, IsTrue, List, OnOk, Some, flat_map, length, map, slice_get};
ghost use Rattle.ae_word.specs.AtomTree.{WordKind, atom_in_size, atom_kinds, atom_tree, atom_words};
ghost use Rattle.ae_sttype.specs.declared.st_type.StType.{StType as Layout};
ghost use Rattle.ae_sttype.specs.StTree.{st_tree};
ghost use Rattle.ae_sttype.specs.Size.{IsInSize};
ghost use Rattle.ae_netlist.specs.declared.cell.NetId.{NetId as Net};
ghost use Rattle.ae_netlist.specs.declared.cell.Port.TheVariants.{In, Out};
ghost use Rattle.ae_ops.specs.Waves.{AreNets, HaveOwnWidths};
ghost use Rattle.ae_ops.specs.Blocks.{stream_of, stream_widths};
ghost use Rattle.ae_rewrite.specs.StProgramTree.{st_func_tree, st_trees};
ghost use Rattle.ae_rewrite.specs.Sound.{IsSoundFunc};
ghost use Rattle.ae_ports.specs.Ports.{streams_of, input_cell, input_ports, output_ports, stream_ports, word_ports};
ghost use Rattle.ae_lower.specs.Circuits.{item_stream, result_streams};
ghost use Rattle.ae_lower.specs.PortNets.{AddsInputs, AddsOutputs, bundles_from, net_widths};

use ae_delay::layout;
use ae_netlist::{Cell, NetId, Netlist, Port};
use ae_ops::Bundle;
use ae_rewrite::StFunc;
use ae_sttype::StType;
use ae_word::{Atom, Width};
use std::alloc::{AllocError, Global};

/// Adds an input, for which there is room. The error comes only for want of memory.
pub fn add_input(nl: &mut Netlist, width: Width, port: Port) -> Result<NetId, AllocError>
    requires { length nl.old.cells < nl.old.limit }
    ensures net { IfOk result (λ n. n ≡ record { 0 = length nl.old.cells }) }
    ensures added { OnOk result (nl.new ≡ record nl.old { cells = nl.old.cells ++ input_cell (record { port = port; width = width }) ∷ [] }) }
{
    nl.push(width, Cell::Input(port))
}

/// Adds the inputs of one lane, for which there is room, and keeps their nets.
fn lane_inputs(
    nl: &mut Netlist,
    nets: &mut Vec<NetId>,
    atom: &Atom,
    param: u32,
    lane: u32,
) -> Result<(), AllocError>
    requires in_size { IsTrue (atom_in_size (atom_tree atom.now)) }
    requires room { length nl.old.cells + atom_words (atom_tree atom.now) ≤ nl.old.limit }
    ensures { OnOk result (AddsInputs nl.old nl.new nets.old.items nets.new.items (word_ports (In param lane) 0 (map (λ (k : WordKind). k.width) (atom_kinds (atom_tree atom.now))))) }
{
    for word in 0..atom.words() {
        let net = add_input(nl, atom.word_width(word), Port::In { param, lane, word })?;
        nets.push(net)?;
    }
    Ok(())
}

/// Adds the inputs of one parameter, for which there is room, and answers their nets.
fn param_inputs(
    alloc: Global,
    nl: &mut Netlist,
    layout: &StType,
    param: u32,
) -> Result<Bundle, AllocError>
    requires in_size { IsInSize (st_tree layout.now) }
    requires room { length nl.old.cells + 16384 ≤ nl.old.limit }
    ensures { IfOk result (λ b. AddsInputs nl.old nl.new [] b (stream_ports (In param) (stream_of (st_tree layout.now)))) }
{
    let mut nets = Vec::new(alloc);
    for lane in 0..layout.lanes() {
        lane_inputs(nl, &mut nets, layout.atom(), param, lane)?;
    }
    Ok(Bundle::new(nets))
}

/// Adds an input for each word of each lane of parameters of these layouts, for all of which there is room, and answers
/// their nets. The error comes only for want of memory.
pub fn add_inputs(
    alloc: Global,
    nl: &mut Netlist,
    layouts: &[StType],
) -> Result<Vec<Bundle>, AllocError>
    requires in_size { (k : ℕ) (t : Layout) → slice_get layouts.now k ≡ Some t → IsInSize (st_tree t) }
    requires room { length nl.old.cells + 16384 * length layouts.now ≤ nl.old.limit }
    ensures few { OnOk result (length nl.new.cells ≤ length nl.old.cells + 16384 * length layouts.now) }
    ensures cells { OnOk result (nl.new ≡ record nl.old { cells = nl.old.cells ++ map input_cell (input_ports (streams_of (st_trees layouts.now))) }) }
    ensures bundles { IfOk result (λ v. v.items ≡ bundles_from (length nl.old.cells) (streams_of (st_trees layouts.now))) }
{
    nl.formed();
    let mut bundles = Vec::new(alloc);
    for (k, layout) in layouts.iter().enumerate() {
        let bundle = param_inputs(alloc, nl, layout, k as u32)?;
        bundles.push(bundle)?;
    }
    Ok(bundles)
}

/// Adds the outputs of one lane of result `number`.
fn lane_outputs(nl: &mut Netlist, nets: &[NetId], number: u32, lane: u32) -> Result<(), AllocError>
    requires nets { HaveOwnWidths nl.old.cells nets.now }
    requires room { length nl.old.outlets + length nets.now < 2 ^ 32 - 1 }
    ensures { OnOk result (AddsOutputs nl.old nl.new (word_ports (Out number lane) 0 (net_widths nl.old.cells nets.now)) nets.now) }
{
    for (word, net) in nets.iter().enumerate() {
        let word = word as u32;
        nl.add_output(
            Port::Out {
                result: number,
                lane,
                word,
            },
            *net,
        )?;
    }
    Ok(())
}

/// Adds an output for each word of each lane of result `number`.
pub fn add_outputs(
    nl: &mut Netlist,
    bundle: &Bundle,
    layout: &StType,
    number: u32,
) -> Result<(), AllocError>
    requires in_size { IsInSize (st_tree layout.now) }
    requires nets { AreNets nl.old.cells (stream_widths (stream_of (st_tree layout.now))) bundle.now }
    requires room { length nl.old.outlets + length bundle.now < 2 ^ 32 - 1 }
    ensures { OnOk result (AddsOutputs nl.old nl.new (stream_ports (Out number) (stream_of (st_tree layout.now))) bundle.now) }
{
    let words = layout.element_words() as usize;
    let nets = bundle.nets();
    for lane in 0..layout.lanes() {
        let first = lane as usize * words;
        lane_outputs(nl, &nets[first..first + words], number, lane)?;
    }
    Ok(())
}

/// Adds the outputs of an instance's results, each from its bundle.
pub fn add_results(nl: &mut Netlist, s: &StFunc, bundles: &[Bundle]) -> Result<(), AllocError>
    requires sound { (k : ℕ) × IsSoundFunc k (st_func_tree s.now) }
    requires long { length bundles.now ≡ length s.now.results.items }
    requires nets { (r i : ℕ) (nets : List Net) → slice_get s.now.results.items r ≡ Some i → slice_get bundles.now r ≡ Some nets → AreNets nl.old.cells (stream_widths (item_stream (st_func_tree s.now) i)) nets }
    requires none { nl.old.outlets ≡ [] }
    ensures { OnOk result (AddsOutputs nl.old nl.new (output_ports (result_streams (st_func_tree s.now))) (flat_map (λ (b : List Net). b) bundles.now)) }
{
    for (number, item) in s.results.iter().enumerate() {
        let layout = layout(s, *item as usize);
        add_outputs(nl, &bundles[number], layout, number as u32)?;
    }
    Ok(())
}
