// The variables of a header.

ghost use Rattle.std.specs.Prelude.{◌≡◌, ◌++◌, ◌∷◌, [], ◌<◌, ◌≤◌, true, IsTrue, IfOk, OnOk, MatchOption, Some, List, string_bytes};
ghost use Rattle.ae_vcd.specs.Waves.{is_variable_name};
ghost use Rattle.ae_vcd.specs.Codes.{place};
ghost use Rattle.ae_vcd.specs.Forms.{Variable, agrees};
ghost use Rattle.ae_vcd.specs.Held.{Declares, HasNumber, HasWidth, IsNew};

use crate::codes::Codes;
use ae_keyed::Keyed;
use std::alloc::{AllocError, Global};

/// The variables that a header has declared.
#[derive(Drop)]
pub struct Declared {
    /// Their codes, each once.
    pub codes: Codes,
    /// The width of each code.
    pub code_widths: Vec<u32>,
    /// For each variable the number of its code.
    pub numbers: Vec<usize>,
    /// For each variable its name.
    pub names: Vec<String>,
    /// For each variable its width.
    pub widths: Vec<u32>,
    /// The widest width.
    pub widest: u32,
}

/// A code that is declared.
#[derive(Clone, Copy)]
pub struct Slot {
    pub number: usize,
    pub width: u32,
}

// The text of a name.
fn text_of(alloc: Global, name: &[u8]) -> Result<String, AllocError>
    requires { IsTrue (is_variable_name name.now) }
    ensures { IfOk result (λ text. string_bytes text ≡ name.now) }
{
    let mut text = String::new(alloc);
    for byte in name {
        text.push(*byte as char)?;
    }
    Ok(text)
}

impl Declared {
    /// No variables.
    pub fn new(alloc: Global, keyed: Keyed) -> Declared
        ensures { Declares result [] }
    {
        Declared {
            codes: Codes::new(alloc, keyed),
            code_widths: Vec::new(alloc),
            numbers: Vec::new(alloc),
            names: Vec::new(alloc),
            widths: Vec::new(alloc),
            widest: 0,
        }
    }

    /// What is known of a code.
    pub fn find(&self, code: &[u8]) -> Option<Slot>
        requires { (vs : List Variable) × Declares self.now vs }
        ensures { (vs : List Variable) → Declares self.now vs → MatchOption result (IsNew vs code.now) (λ slot. HasWidth vs code.now slot.width × (place code.now self.now.codes ≡ Some slot.number)) }
    {
        match self.codes.find(code) {
            Some(number) => Some(Slot {
                number,
                width: self.code_widths[number],
            }),
            None => None,
        }
    }

    /// Whether no variable with this code has another width.
    pub fn agrees(&self, code: &[u8], width: u32) -> bool
        requires { (vs : List Variable) × Declares self.now vs }
        ensures { (vs : List Variable) → Declares self.now vs → result ≡ agrees vs code.now width }
    {
        match self.find(code) {
            Some(slot) => slot.width == width,
            None => true,
        }
    }

    // The number of a code, which is put behind the others if it is not there yet.
    fn number_of(&mut self, alloc: Global, code: &[u8], width: u32) -> Result<usize, AllocError>
        ensures { IfOk result (λ number. HasNumber self.old self.new code.now width number) }
    {
        if let Some(number) = self.codes.find(code) {
            return Ok(number);
        }
        let number = self.codes.len();
        self.codes.add(alloc, code)?;
        self.code_widths.push(width)?;
        Ok(number)
    }

    /// Puts a variable behind the others.
    pub fn add(
        &mut self,
        alloc: Global,
        code: &[u8],
        width: u32,
        name: &[u8],
    ) -> Result<(), AllocError>
        requires { IsTrue (is_variable_name name.now) }
        ensures { (vs : List Variable) → Declares self.old vs → agrees vs code.now width ≡ true → width ≤ 64 → OnOk result (Declares self.new (vs ++ record { width = width; code = code.now; name = name.now } ∷ [])) }
    {
        let number = self.number_of(alloc, code, width)?;
        self.numbers.push(number)?;
        self.names.push(text_of(alloc, name)?)?;
        self.widths.push(width)?;
        self.widest = self.widest.max(width);
        Ok(())
    }
}
