// Names.

ghost use Rattle.std.specs.Prelude.{◌≡◌, IsTrue, IfOk, string_bytes};
ghost use Rattle.ae_seq.specs.Formed.{is_name};

use std::alloc::{AllocError, Global};

/// The text of a name.
pub fn name_text(alloc: Global, name: &[u8]) -> Result<String, AllocError>
    requires { IsTrue (is_name name.now) }
    ensures { IfOk result (λ s. string_bytes s ≡ name.now) }
{
    match std::str::from_utf8(name) {
        Ok(text) => String::from_str(alloc, text),
        Err(_) => unreachable!(),
    }
}
