//! What is looked up in an environment of types by name or by id, and names that are interned there.
ghost use Rattle.std.specs.Option.{option_copied, option_and_then};
ghost use Rattle.std.specs.Prelude.{◌≡◌, ℕ, [], List, Some, IsSome, unwrap_or, IfOk, OnOk, OnErr, slice_get, map, string_bytes};
ghost use Rattle.isle_types.specs.Names.{with_name, AreDistinct};
ghost use Rattle.isle_containers.specs.StableMaps.{value_at_text};
ghost use Rattle.isle_types.specs.Environment.{Environment};
ghost use Rattle.isle_types.specs.Interned.{entry_of};
ghost use Rattle.isle_types.specs.TypeEnvs.{sym_named, name_of, type_name, type_of_name, type_of_constant, variant_of, Shows, HasMoreNames};

use super::TypeEnv;
use crate::ids::{Sym, TypeId, VariantId};
use crate::types::{Type, Variant};
use isle_ast::ast::Ident;
use isle_containers::StableMap;
use std::alloc::{AllocError, Global};

impl TypeEnv {
    /// Where the environment takes its memory from.
    pub fn alloc(&self) -> Global {
        self.alloc
    }

    /// The symbol of a name, if it is interned.
    pub fn intern(&self, ident: &Ident) -> Option<Sym>
        ensures { result ≡ sym_named self.now ident.now.0 }
    {
        self.intern_name(ident.0.as_str())
    }

    /// The symbol of a text, if it is interned.
    pub fn intern_name(&self, name: &str) -> Option<Sym>
        ensures { result ≡ sym_named self.now name.now }
    {
        self.symbols.find(name)
    }

    /// The symbol of a name, which is interned now. Without memory nothing changes.
    pub fn intern_mut(&mut self, ident: &Ident) -> Result<Sym, AllocError>
        ensures symbol { IfOk result (λ sym. name_of self.new sym ≡ Some ident.now.0) }
        ensures ok { OnOk result (self.new ≡ record self.old { names = with_name self.old.names ident.now.0 }) }
        ensures err { OnErr result (self.new ≡ self.old) }
        ensures same { HasMoreNames self.old self.new }
        ensures shown { (e : Environment) → Shows self.old e → Shows self.new e }
    {
        self.intern_str(ident.0.as_str())
    }

    /// The symbol of a text, which is interned now.
    pub(super) fn intern_str(&mut self, name: &str) -> Result<Sym, AllocError>
        ensures symbol { IfOk result (λ sym. name_of self.new sym ≡ Some name.now) }
        ensures ok { OnOk result (self.new ≡ record self.old { names = with_name self.old.names name.now }) }
        ensures err { OnErr result (self.new ≡ self.old) }
        ensures same { HasMoreNames self.old self.new }
    {
        self.symbols.intern(name)
    }

    /// The id of a type, by its name.
    pub fn get_type_by_name(&self, ident: &Ident) -> Option<TypeId>
        ensures { result ≡ type_of_name self.now ident.now.0 }
    {
        self.type_named(ident.0.as_str())
    }

    /// The id of a type, by the text of its name.
    pub fn type_named(&self, name: &str) -> Option<TypeId>
        ensures { result ≡ type_of_name self.now name.now }
    {
        let sym = self.symbols.find(name)?;
        self.type_map.get(&sym).copied()
    }

    /// The type of a constant, by the text of its name.
    pub fn const_type(&self, name: &str) -> Option<TypeId>
        ensures { result ≡ type_of_constant self.now name.now }
    {
        let sym = self.symbols.find(name)?;
        self.const_types.get(&sym).copied()
    }

    /// The types, each at the place of its id.
    pub fn types(&self) -> &[Type]
        ensures { result.now ≡ self.now.types }
    {
        self.types.as_slice()
    }

    /// A type, or `None` at an id that the environment doesn't have.
    pub fn get_type(&self, id: TypeId) -> Option<&Type>
        ensures { option_copied result ≡ slice_get self.now.types id.0 }
    {
        self.types.get(id.index())
    }

    /// A variant of an enum; the caller knows that the type is an enum and has the variant.
    pub fn get_variant(&self, ty: TypeId, variant: VariantId) -> &Variant
        requires { IsSome (variant_of self.now ty variant) }
        ensures { Some result.now ≡ variant_of self.now ty variant }
    {
        match &self.types[ty.index()] {
            Type::Enum { variants, .. } => &variants.as_slice()[variant.index()],
            _ => unreachable!(),
        }
    }

    /// The interned names, each at the place of its symbol.
    pub fn syms(&self) -> &[String]
        ensures names { map string_bytes result.now ≡ self.now.names }
        ensures once { AreDistinct self.now.names }
    {
        self.symbols.names()
    }

    /// The name of a symbol; empty at one that the environment doesn't have.
    pub fn sym_name(&self, sym: Sym) -> &str
        ensures { result.now ≡ unwrap_or (name_of self.now sym) [] }
    {
        match self.syms().get(sym.index()) {
            Some(name) => name.as_str(),
            None => "",
        }
    }

    /// The table from a name to its symbol.
    pub fn sym_map(&self) -> &StableMap<String, Sym>
        ensures { (name : List ℕ) → value_at_text result.now name ≡ sym_named self.now name }
    {
        self.symbols.table()
    }

    /// The table from the symbol of a type's name to the type's id.
    pub fn type_map(&self) -> &StableMap<Sym, TypeId>
        ensures { (name : List ℕ) → option_and_then (entry_of result.now) (sym_named self.now name) ≡ type_of_name self.now name }
    {
        &self.type_map
    }

    /// The table from the symbol of a constant's name to the id of its type.
    pub fn const_types(&self) -> &StableMap<Sym, TypeId>
        ensures { (name : List ℕ) → option_and_then (entry_of result.now) (sym_named self.now name) ≡ type_of_constant self.now name }
    {
        &self.const_types
    }
}

impl Type {
    /// The name of the type: of a type of the host the name that the host has for it. Empty where the
    /// environment doesn't have its symbol.
    pub fn name<'a>(&self, tyenv: &'a TypeEnv) -> &'a str
        ensures { result.now ≡ unwrap_or (type_name tyenv.now self.now) [] }
    {
        match self {
            Type::Builtin(builtin) => builtin.name(),
            Type::Primitive(_, name, _) | Type::Enum { name, .. } | Type::Struct { name, .. } => {
                tyenv.sym_name(*name)
            }
        }
    }
}
