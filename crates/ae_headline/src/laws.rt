// What the text that a program is built into is, and what it means.

ghost use Rattle.ae_headline.specs.Laws.{BuiltTextsAreListings, ListingsMeanModules, ProgramListingsMeanModules};

/// A law: where a text is read as a typed program that has a schedule, a circuit for the program, written with a report of its
/// costs and the notes of the program function, is a listing for the program.
pub fn built_texts_are_listings()
    ensures { BuiltTextsAreListings }
{}

/// A law: the listing of any netlist that has a program's ports and makes its blocks, however it was made, where it can be
/// written and is not too large, means by the Verilog profile (docs/VERILOG.md) exactly one module, which is well formed, has
/// exactly one run on any inputs, and is correct for the program; so does each listing for a typed program.
pub fn listings_mean_modules()
    ensures netlists { ListingsMeanModules }
    ensures programs { ProgramListingsMeanModules }
{}
