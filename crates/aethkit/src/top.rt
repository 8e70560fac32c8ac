// A module under another name, and the wrapper around it, for use in a design.

ghost use Rattle.std.specs.Prelude.{◌≤◌, IfOk, length, string_bytes};
ghost use Rattle.aethkit.specs.Renamed.{IsTop};

use crate::circuits::wrapper;
use crate::renamed::renamed_build;
use ae_items::KitFault;
use ae_sttype::Slowdown;
use std::alloc::Global;

/// The module of `aeth build S` under a name in place of `aeth`, and behind it a module around it, with this name and `_top`. The
/// ports of that are named by the parameters and results of the program, and each holds all words of all lanes, lane by lane and
/// word by word, the first in the lowest bits. `block` is 1 in the clocks in which a block of the parameters begins, and a `valid`
/// in those in which an element of its result stands.
pub fn top(alloc: Global, input: &[u8], slowdown: Slowdown, name: &str) -> Result<String, KitFault>
    requires { length input.now ≤ 16777216 }
    ensures { IfOk result (λ text. IsTop slowdown input.now name.now (string_bytes text)) }
{
    let wrapper = wrapper(alloc, input, slowdown, name)?;
    let mut text = renamed_build(alloc, input, slowdown, name)?;
    text.push_str(wrapper.as_str())?;
    Ok(text)
}
