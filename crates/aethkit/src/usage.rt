// The words of each request.

pub const USAGE: &str = "usage: aethkit REQUEST < PROGRAM

  why WORDS                          for the words and the input that `aeth` refuses: the line as it stands, what is wrong in
                                     it, and what is near it
  slowdowns [FROM TO] [csv] [best]   for each slowdown of the range that has a circuit: latency, load, multipliers, lanes;
                                     best: only those that need less load than all smaller ones; csv: as comma-separated values
  draw S [text] [layout TYPE]        the layout of each line of the program function, lanes by clocks, as SVG or as text; or that
                                     of a type alone, as [4]u8: then nothing is read
  notes S [nets] [gtkw]              which line and which word of the program each port of its module belongs to, and the nets of
                                     each line; nets: each net, with its line, its cell, and the line of a called function for
                                     which that is made; gtkw: as a save file, by which GTKWave names the signals of `aeth wave
                                     S FILL`, with nets those of the bench's dump
  top S [name NAME]                  the module of `aeth build S`, and a wrapper around it: a port for each parameter and result,
                                     by its name, and strobes that tell when blocks begin and when results stand; NAME in place of
                                     `aeth`, so that several fit into one design
  stream S [name NAME]               the module of the program's circuit between two channels with valid and ready: words come in and
                                     results go out at whatever pace both sides go
  paths S [MOST]                     the longest chain of operators without a register between them, by the lines of the program;
                                     those of more than MOST operators are marked
  bench S FILL [dump]                a test bench for the module of `aeth build S`: it gives it the rows of the input behind
                                     the line %%, compares each word with the program's meaning, and tells how many were wrong;
                                     dump: it writes a wave file as well

S, FROM and TO are 1 to 4096. FILL seeds the words that stand where nothing is asked of the wires. The small words may have two
dashes before them, as --csv. What takes over a second tells on a terminal how far it is.

example: aethkit slowdowns 1 64 best < examples/increment.aeth";
