// The symbols of a program with their values.
ghost use Rattle.std.specs.Prelude.{◌≡◌, ◌<◌, ◌≤◌, ◌^◌, ℕ, List, Some, None, IfOk, OnOk, if◌then◌else◌, length, IsTrue, IfErr};
ghost use Rattle.std.specs.Str.{bytes_eq};
ghost use Rattle.asm_core.specs.Passes.{are_bytes, kept, key};

use crate::numbers::SYMBOL_CHARACTERS;
use crate::{AsmFault, Half, Symbol};
use std::alloc::Global;
use std::collections::BTreeMap;

/// The symbols that label lines, each under its number.
#[derive(Drop)]
pub(crate) struct Symbols {
    pub values: BTreeMap<u64, Half>,
}

impl Symbols {
    /// No symbols.
    pub fn new(alloc: Global) -> Symbols
        ensures { (symbol : List ℕ) → kept result symbol ≡ None }
    {
        Symbols {
            values: BTreeMap::new(alloc),
        }
    }

    /// The value of a symbol.
    pub fn get(&self, symbol: &Symbol) -> Option<Half>
        ensures { result ≡ kept self.now symbol.now }
    {
        let symbol = symbol.as_slice();
        if symbol.len() > SYMBOL_CHARACTERS {
            return None;
        }
        self.values.get(&key(symbol)).copied()
    }

    /// Gives a symbol a value.
    pub fn insert(&mut self, symbol: &Symbol, value: Half) -> Result<(), AsmFault>
        requires { length symbol.now ≤ SYMBOL_CHARACTERS }
        ensures put { OnOk result ((other : List ℕ) → kept self.new other ≡ (if bytes_eq symbol.now other then Some value else kept self.old other)) }
        ensures memory { IfErr result (λ e. e ≡ AsmFault.Memory) }
    {
        match self.values.insert(key(symbol.as_slice()), value) {
            Ok(_) => Ok(()),
            Err(_) => Err(AsmFault::Memory),
        }
    }
}

// The number under which a symbol is kept.
fn key(symbol: &[u8]) -> u64
    requires { length symbol.now ≤ SYMBOL_CHARACTERS }
    ensures value { result ≡ key symbol.now }
    ensures bytes { IsTrue (are_bytes symbol.now) }
{
    let mut number: u64 = 0;
    for place in (0..symbol.len()).rev() {
        number = number * 257 + (symbol[place] as u64 + 1);
    }
    number
}
