// The items of the program function: their names, lines and layouts.

use ae_compile::Costed;
use ae_rewrite::StFunc;
use ae_seq::Func;
use ae_sttype::StType;

/// The layout of an item of an instance.
pub fn layout_of(s: &StFunc, item: usize) -> Option<&StType> {
    if item < s.ins.len() {
        return s.ins.get(item);
    }
    match s.nodes.get(item - s.ins.len()) {
        Some(node) => Some(&node.ty),
        None => None,
    }
}

/// An item: its line, its name, and the layout and the clock in which its block 0 arrives.
#[derive(Clone, Copy)]
pub struct Item<'a> {
    pub line: u32,
    pub name: &'a str,
    pub layout: &'a StType,
    pub arrival: u32,
}

/// How many items the program function has.
pub fn count(costed: &Costed) -> usize {
    let func = costed.main_func();
    func.params.len().saturating_add(func.nodes.len())
}

// The line and the name of an item of a function.
fn named(func: &Func, number: usize) -> Option<(u32, &str)> {
    if number < func.params.len() {
        let param = func.params.get(number)?;
        Some((func.line, param.name.as_str()))
    } else {
        let node = func.nodes.get(number - func.params.len())?;
        Some((node.line, node.name.as_str()))
    }
}

/// The item with a number; its parameters come first.
pub fn item_at(costed: &Costed, number: usize) -> Option<Item<'_>> {
    let (line, name) = named(costed.main_func(), number)?;
    let layout = layout_of(costed.main_instance(), number)?;
    let last = costed.schedule().count().saturating_sub(1);
    let arrival = *costed.costs().arrivals(last)?.get(number)?;
    Some(Item {
        line,
        name,
        layout,
        arrival,
    })
}

/// The lanes of a layout, and 0 of one that is out of size.
pub fn lanes(layout: &StType) -> u32 {
    if layout.in_size() { layout.lanes() } else { 0 }
}

/// The clocks of a block in a layout, and 0 of one that is out of size.
pub fn clocks(layout: &StType) -> u32 {
    if layout.in_size() { layout.time() } else { 0 }
}

/// The words of an element of a layout, and 0 of one that is out of size.
pub fn element_words(layout: &StType) -> u32 {
    if layout.in_size() {
        layout.element_words()
    } else {
        0
    }
}

/// The element that stands in a clock on a lane.
pub fn element(layout: &StType, clock: u32, lane: u32) -> Option<u32> {
    if layout.in_size() {
        layout.element(clock, lane)
    } else {
        None
    }
}
