//! Environments of types read from definitions: names first, then types, then constants.
ghost use Rattle.std.specs.Prelude.{◌≡◌, ◌⊎◌, ◌<◌, ℕ, [], ◌∷◌, ◌++◌, List, All, Some, None, length, map, IfOk, IfErr, OnOk, MatchOption, is_none};
ghost use Rattle.std.specs.Prelude.{if◌then◌else◌, bytes_eq};
ghost use Rattle.isle_ast.specs.Positions.Files.{SourceFile};
ghost use Rattle.isle_ast.specs.Positions.Printable.{IsPrintablePos};
ghost use Rattle.isle_ast.specs.Errors.{IfFault, RefusalsAt};
ghost use Rattle.isle_ast.specs.Positions.DefPositions.{DefAt};
ghost use Rattle.isle_types.specs.declared.types.«Type».TheVariants.{Builtin};
ghost use Rattle.isle_types.specs.IntTypes.{builtin_name, builtin_types, builtin_names};
ghost use Rattle.isle_types.specs.Names.{position_of, AreDistinct, KeepsNames};
ghost use Rattle.isle_types.specs.Environment.{HaveEnvironment, AreWithinSizes, builtin_environment, type_definitions, type_names, as_constant};
ghost use Rattle.isle_types.specs.Environment.{constant_definitions};
ghost use Rattle.isle_types.specs.TypeFaults.{AreFaultsOf};
ghost use Rattle.isle_types.specs.TypeTables.{no_tables};
ghost use Rattle.isle_types.specs.TypeEnvs.{type_of_constant, HasPrintablePositions, Shows, IsEnvironmentOf};
ghost use Rattle.isle_types.specs.Inside.Readings.{HasTypeNames, HasReadTypes, ReadsConstants, AreTypeFaults, IsLoneSizeFault};

use super::TypeEnv;
use crate::ids::TypeId;
use crate::symbols::Symbols;
use crate::types::{BuiltinType, Type};
use isle_ast::Refusal;
use isle_ast::ast::{Def, Extern, Ident};
use isle_ast::error::Error;
use isle_ast::files::Files;
use isle_containers::StableMap;
use std::alloc::{AllocError, Global};
use std::rc::Rc;

impl TypeEnv {
    /// The environment of the builtin types.
    pub fn new(alloc: Global) -> Result<TypeEnv, AllocError>
        ensures no_errors { IfOk result (λ env. env.errors ≡ []) }
        ensures shown { IfOk result (λ env. Shows env builtin_environment) }
    {
        let mut env = TypeEnv::empty(alloc);
        for builtin in BuiltinType::ALL {
            env.add_builtin(builtin)?;
        }
        Ok(env)
    }

    /// The environment of no types.
    fn empty(alloc: Global) -> TypeEnv
        ensures { result ≡ no_tables }
    {
        TypeEnv {
            alloc,
            symbols: Symbols::new(alloc),
            types: Vec::new(alloc),
            type_map: StableMap::new(alloc),
            const_types: StableMap::new(alloc),
            errors: Vec::new(alloc),
            files: None,
        }
    }

    /// Names a builtin type, and puts it behind the others.
    fn add_builtin(&mut self, builtin: BuiltinType) -> Result<(), AllocError>
        ensures types { OnOk result (self.new.types ≡ self.old.types ++ Builtin builtin ∷ []) }
        ensures named { (known : List (List ℕ)) → HasTypeNames self.old known → length self.old.types ≡ length known
            → OnOk result (HasTypeNames self.new (known ++ builtin_name builtin ∷ [])) }
        ensures same { self.new ≡ record self.old
            { names = self.new.names; types = self.new.types; numbers = self.new.numbers } }
    {
        let id = TypeId(self.types.len());
        self.name_type(builtin.name(), id)?;
        self.types.push(Type::Builtin(builtin))?;
        Ok(())
    }

    /// The environment of these definitions' types and constants; every other definition is passed over.
    /// A refusal lists type errors, each where a rule is broken, or one size error alone, where a
    /// definition has a list of more than 255 fields.
    pub fn from_ast(alloc: Global, defs: &[Def]) -> Result<TypeEnv, Refusal<Vec<Error>>>
        ensures no_errors { IfOk result (λ env. env.errors ≡ []) }
        ensures within { OnOk result (AreWithinSizes defs.now) }
        ensures made { IfOk result (IsEnvironmentOf defs.now) }
        ensures faults { IfErr result (λ r. IfFault r (λ errors. AreFaultsOf defs.now errors.items)) }
        ensures refused { IfErr result (λ r. IfFault r (λ _. ¬ HaveEnvironment defs.now)) }
        ensures placed { (files : List SourceFile) → All (DefAt (IsPrintablePos files)) defs.now
            → IfOk result (HasPrintablePositions files) }
        ensures printable { (files : List SourceFile) → All (DefAt (IsPrintablePos files)) defs.now
            → IfErr result (RefusalsAt (IsPrintablePos files)) }
    {
        let mut env = TypeEnv::new(alloc)?;
        env.read(defs)?;
        Ok(env)
    }

    /// The environment of these definitions, as `from_ast` makes it, which keeps the files for messages that name a place.
    pub fn from_files(
        alloc: Global,
        files: Rc<Files>,
        defs: &[Def],
    ) -> Result<TypeEnv, Refusal<Vec<Error>>>
        ensures no_errors { IfOk result (λ env. env.errors ≡ []) }
        ensures within { OnOk result (AreWithinSizes defs.now) }
        ensures made { IfOk result (IsEnvironmentOf defs.now) }
        ensures faults { IfErr result (λ r. IfFault r (λ errors. AreFaultsOf defs.now errors.items)) }
        ensures refused { IfErr result (λ r. IfFault r (λ _. ¬ HaveEnvironment defs.now)) }
        ensures placed { (texts : List SourceFile) → All (DefAt (IsPrintablePos texts)) defs.now
            → IfOk result (HasPrintablePositions texts) }
        ensures printable { (texts : List SourceFile) → All (DefAt (IsPrintablePos texts)) defs.now
            → IfErr result (RefusalsAt (IsPrintablePos texts)) }
    {
        let mut env = TypeEnv::new(alloc)?;
        env.keep_files(files);
        env.read(defs)?;
        Ok(env)
    }

    /// Keeps the files for messages.
    fn keep_files(&mut self, files: Rc<Files>)
        ensures { self.new ≡ self.old }
    {
        self.files = Some(files);
    }

    /// Reads the definitions into the environment of the builtin types.
    fn read(&mut self, defs: &[Def]) -> Result<(), Refusal<Vec<Error>>>
        requires no_errors { self.old.errors ≡ [] }
        requires shown { Shows self.old builtin_environment }
        ensures no_errors { OnOk result (self.new.errors ≡ []) }
        ensures within { OnOk result (AreWithinSizes defs.now) }
        ensures made { OnOk result (IsEnvironmentOf defs.now self.new) }
        ensures faults { IfErr result (λ r. IfFault r (λ errors. AreFaultsOf defs.now errors.items)) }
        ensures refused { IfErr result (λ r. IfFault r (λ _. ¬ HaveEnvironment defs.now)) }
        ensures placed { (files : List SourceFile) → All (DefAt (IsPrintablePos files)) defs.now
            → OnOk result (HasPrintablePositions files self.new) }
        ensures printable { (files : List SourceFile) → All (DefAt (IsPrintablePos files)) defs.now
            → IfErr result (RefusalsAt (IsPrintablePos files)) }
    {
        self.collect_names(defs)?;
        self.collect_types(defs)?;
        self.collect_constants(defs)?;
        let errors = self.take_errors();
        if !errors.is_empty() {
            return Err(Refusal::Fault(errors));
        }
        Ok(())
    }

    /// Names a type, and tells whether the name is new. A name that is taken keeps its type.
    fn name_type(&mut self, name: &str, id: TypeId) -> Result<bool, AllocError>
        ensures new { (known : List (List ℕ)) → HasTypeNames self.old known
            → IfOk result (λ new. new ≡ is_none (position_of known name.now)) }
        ensures named { (known : List (List ℕ)) → HasTypeNames self.old known → id.0 ≡ length known
            → OnOk result (HasTypeNames self.new (known ++ name.now ∷ [])) }
        ensures same { self.new ≡ record self.old { names = self.new.names; numbers = self.new.numbers } }
    {
        let sym = self.intern_str(name)?;
        if self.type_map.contains_key(&sym) {
            return Ok(false);
        }
        self.type_map.insert(sym, id)?;
        Ok(true)
    }

    /// Gives each defined type its id, in order.
    fn collect_names(&mut self, defs: &[Def]) -> Result<(), AllocError>
        requires named { HasTypeNames self.old builtin_names }
        requires no_errors { self.old.errors ≡ [] }
        ensures named { OnOk result (HasTypeNames self.new (type_names defs.now)) }
        ensures faults { OnOk result (AreTypeFaults defs.now self.new.errors) }
        ensures once { OnOk result (self.new.errors ≡ [] → AreDistinct (type_names defs.now)) }
        ensures same { self.new ≡ record self.old
            { names = self.new.names; numbers = self.new.numbers; errors = self.new.errors } }
    {
        let mut next = BuiltinType::ALL.len();
        for def in defs {
            if let Def::TypeDef(ty) = def {
                if !self.name_type(ty.name.0.as_str(), TypeId(next))? {
                    self.report_taken(ty, defs)?;
                }
                next += 1;
            }
        }
        Ok(())
    }

    /// Makes the defined types, in order.
    fn collect_types(&mut self, defs: &[Def]) -> Result<(), Refusal<Vec<Error>>>
        requires named { HasTypeNames self.old (type_names defs.now) }
        requires builtin { self.old.types ≡ map Builtin builtin_types }
        requires faults { AreTypeFaults defs.now self.old.errors }
        ensures named { HasTypeNames self.new (type_names defs.now) }
        ensures sizes { OnOk result (self.new.errors ≡ [] → AreWithinSizes defs.now) }
        ensures read { OnOk result (self.new.errors ≡ [] → (self.old.errors ≡ [])
            × HasReadTypes (type_definitions defs.now) (type_names defs.now) self.new) }
        ensures faults { OnOk result (AreTypeFaults defs.now self.new.errors) }
        ensures too_large { IfErr result (λ r. IfFault r (λ errors. IsLoneSizeFault defs.now errors.items)) }
        ensures same { self.new ≡ record self.old
            { names = self.new.names; types = self.new.types; errors = self.new.errors } }
    {
        for def in defs {
            if let Def::TypeDef(ty) = def {
                let id = TypeId(self.types.len());
                match self.type_from_ast(id, ty) {
                    Ok(made) => self.types.push(made)?,
                    Err(refusal) => self.keep(refusal)?,
                }
            }
        }
        Ok(())
    }

    /// Keeps the type of each constant; of several of one name the last counts.
    fn collect_constants(&mut self, defs: &[Def]) -> Result<(), AllocError>
        requires named { HasTypeNames self.old (type_names defs.now) }
        requires none { (name : List ℕ) → type_of_constant self.old name ≡ None }
        requires faults { AreTypeFaults defs.now self.old.errors }
        ensures read { OnOk result (self.new.errors ≡ [] → (self.old.errors ≡ [])
            × ReadsConstants (type_names defs.now) self.new (constant_definitions defs.now)) }
        ensures faults { OnOk result (AreTypeFaults defs.now self.new.errors) }
        ensures kept { KeepsNames self.old.names self.new.names }
        ensures same { self.new ≡ record self.old
            { names = self.new.names; constants = self.new.constants; errors = self.new.errors } }
    {
        for def in defs {
            if let Some((name, ty)) = constant(def) {
                match self.get_type_by_name(ty) {
                    Some(id) => self.set_constant(name, id)?,
                    None => self.report_unknown(ty)?,
                }
            }
        }
        Ok(())
    }

    /// Gives a constant its type, also where it has one already.
    fn set_constant(&mut self, name: &Ident, ty: TypeId) -> Result<(), AllocError>
        ensures set { OnOk result ((q : List ℕ) → type_of_constant self.new q
            ≡ (if bytes_eq q name.now.0 then Some ty else type_of_constant self.old q)) }
        ensures kept { KeepsNames self.old.names self.new.names }
        ensures same { self.new ≡ record self.old { names = self.new.names; constants = self.new.constants } }
    {
        let sym = self.intern_str(name.0.as_str())?;
        self.const_types.insert(sym, ty)?;
        Ok(())
    }
}

/// The name of a constant and of its type, where a definition defines one.
fn constant(def: &Def) -> Option<(&Ident, &Ident)>
    ensures { MatchOption result (as_constant def.now ≡ None)
        (λ constant. as_constant def.now ≡ Some (constant.0.now, constant.1.now)) }
{
    match def {
        Def::Extern(Extern::Const { name, ty, .. }) => Some((name, ty)),
        _ => None,
    }
}
