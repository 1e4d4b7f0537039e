//! Ids of names, types, variants, fields, terms, rules and variables, and those of the builtin types.
ghost use Rattle.std.specs.Prelude.{◌≡◌};

/// An interned name. Ids count from 0.
#[derive(Debug, Clone, Copy, PartialEq, Eq, PartialOrd, Ord, Hash, Default)]
pub struct Sym(pub usize);

impl Sym {
    /// The number itself.
    pub fn index(self) -> usize
        ensures { result ≡ self.0 }
    {
        self.0
    }
}

/// The number of a type. Ids count from 0.
#[derive(Debug, Clone, Copy, PartialEq, Eq, PartialOrd, Ord, Hash, Default)]
pub struct TypeId(pub usize);

impl TypeId {
    /// The number itself.
    pub fn index(self) -> usize
        ensures { result ≡ self.0 }
    {
        self.0
    }
}

/// The number of a variant in its enum. Ids count from 0.
#[derive(Debug, Clone, Copy, PartialEq, Eq, PartialOrd, Ord, Hash, Default)]
pub struct VariantId(pub usize);

impl VariantId {
    /// The number itself.
    pub fn index(self) -> usize
        ensures { result ≡ self.0 }
    {
        self.0
    }
}

/// The number of a field in its variant or struct. Ids count from 0.
#[derive(Debug, Clone, Copy, PartialEq, Eq, PartialOrd, Ord, Hash, Default)]
pub struct FieldId(pub usize);

impl FieldId {
    /// The number itself.
    pub fn index(self) -> usize
        ensures { result ≡ self.0 }
    {
        self.0
    }
}

/// The number of a term. Ids count from 0.
#[derive(Debug, Clone, Copy, PartialEq, Eq, PartialOrd, Ord, Hash, Default)]
pub struct TermId(pub usize);

impl TermId {
    /// The number itself.
    pub fn index(self) -> usize
        ensures { result ≡ self.0 }
    {
        self.0
    }
}

/// The number of a rule. Ids count from 0.
#[derive(Debug, Clone, Copy, PartialEq, Eq, PartialOrd, Ord, Hash, Default)]
pub struct RuleId(pub usize);

impl RuleId {
    /// The number itself.
    pub fn index(self) -> usize
        ensures { result ≡ self.0 }
    {
        self.0
    }
}

/// The number of a variable in its rule. Ids count from 0.
#[derive(Debug, Clone, Copy, PartialEq, Eq, PartialOrd, Ord, Hash, Default)]
pub struct VarId(pub usize);

impl VarId {
    /// The number itself.
    pub fn index(self) -> usize
        ensures { result ≡ self.0 }
    {
        self.0
    }
}

impl TypeId {
    pub const BOOL: TypeId = TypeId(0);

    pub const U8: TypeId = TypeId(1);

    pub const U16: TypeId = TypeId(2);

    pub const U32: TypeId = TypeId(3);

    pub const U64: TypeId = TypeId(4);

    pub const U128: TypeId = TypeId(5);

    pub const USIZE: TypeId = TypeId(6);

    pub const I8: TypeId = TypeId(7);

    pub const I16: TypeId = TypeId(8);

    pub const I32: TypeId = TypeId(9);

    pub const I64: TypeId = TypeId(10);

    pub const I128: TypeId = TypeId(11);

    pub const ISIZE: TypeId = TypeId(12);
}
