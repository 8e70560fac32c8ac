// Why a module is not elaborated.

/// The first fault of a module, in this order. Items are numbered from 1, where 0 is the header; nets by their place in
/// the module's list of declared names. The rules are those of the Verilog profile, narrowed from IEEE 1364-2001.
#[derive(Clone, Copy, Debug)]
pub enum ElabFault {
    /// The item uses a name that is not declared before.
    Unknown { item: u32 },
    /// The item declares or drives a name that was declared or driven before.
    Twice { item: u32 },
    /// The item uses a name as its kind does not allow, or the clock as data, or another clock.
    Kind { item: u32 },
    /// The net is driven by nothing.
    Undriven { net: u32 },
    /// The item has a width, depth, constant or select out of its range.
    Width { item: u32 },
    /// The net depends on itself within a clock.
    Loop { net: u32 },
    /// The weight of the module is above 10,000,000.
    Large,
    /// Memory ran out.
    Memory,
}
