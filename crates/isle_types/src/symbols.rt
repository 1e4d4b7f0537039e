//! Interned names, each once, at the place of its symbol.
ghost use Rattle.std.specs.Prelude.{◌≡◌, ℕ, List, [], IfOk, OnOk, OnErr, Some, map, string_bytes, slice_get};
ghost use Rattle.std.specs.Option.{option_map};
ghost use Rattle.isle_types.specs.Names.{position_of, with_name, AreDistinct};
ghost use Rattle.isle_containers.specs.StableMaps.{value_at_text};

use crate::ids::Sym;
use isle_containers::StableMap;
use std::alloc::{AllocError, Global};
use std::marker::Model;

/// Interned names, each once: a name's symbol is its place. Contracts see the list of the names.
#[derive(Debug, Drop)]
pub struct Symbols {
    alloc: Global,
    syms: Vec<String>,
    sym_map: StableMap<String, Sym>,
}

impl Model for Symbols {
    ghost use Rattle.std.specs.Prelude.{List, ℕ, map, string_bytes};

    ghost Value = { List (List ℕ) };

    ghost use Rattle.isle_types.specs.Interned.{IsInterned};

    ghost view = { λ a. map string_bytes a.syms.items };

    ghost invariant = { λ a. IsInterned (map string_bytes a.syms.items) a.sym_map };
}

impl Symbols {
    /// No names.
    pub fn new(alloc: Global) -> Symbols
        ensures none { result ≡ [] }
        ensures once { AreDistinct result }
    {
        Symbols {
            alloc,
            syms: Vec::new(alloc),
            sym_map: StableMap::new(alloc),
        }
    }

    /// The symbol of a name, if it is interned.
    pub fn find(&self, name: &str) -> Option<Sym>
        ensures found { option_map (λ sym. sym.0) result ≡ position_of self.now name.now }
        ensures once { AreDistinct self.now }
    {
        self.sym_map.get_text(name).copied()
    }

    /// The symbol of a name, which is interned now.
    pub fn intern(&mut self, name: &str) -> Result<Sym, AllocError>
        ensures ok { OnOk result (self.new ≡ with_name self.old name.now) }
        ensures symbol { IfOk result (λ sym. slice_get self.new sym.0 ≡ Some name.now) }
        ensures err { OnErr result (self.new ≡ self.old) }
        ensures once { AreDistinct self.new }
    {
        if let Some(sym) = self.find(name) {
            return Ok(sym);
        }
        let sym = Sym(self.syms.len());
        let key = String::from_str(self.alloc, name)?;
        let kept = String::from_str(self.alloc, name)?;
        self.syms.reserve(1)?;
        self.sym_map.insert(key, sym)?;
        self.syms.push(kept)?;
        Ok(sym)
    }

    /// The names, each at the place of its symbol.
    pub fn names(&self) -> &[String]
        ensures { map string_bytes result.now ≡ self.now }
    {
        self.syms.as_slice()
    }

    /// The table from a name to its symbol.
    pub fn table(&self) -> &StableMap<String, Sym>
        ensures { (name : List ℕ) → option_map (λ sym. sym.0) (value_at_text result.now name) ≡ position_of self.now name }
    {
        &self.sym_map
    }
}
