//! The variables of a rule so far, and the names that can be used.
ghost use Rattle.std.specs.Prelude.{◌≡◌, [], ◌∷◌, true, false, length, map, drop, leb, IfOk, OnOk};
ghost use Rattle.std.specs.Option.{option_map};
ghost use Rattle.isle_rules.specs.Elaboration.{State, start, counted, bound, visible_in};
ghost use Rattle.isle_terms.specs.Inside.Readings.Scopes.{bound_of, visible_at, variable_shown};

use isle_ast::Text;
use isle_ast::ast::Ident;
use isle_ast::pos::Pos;
use isle_types::{TypeId, VarId};
use std::alloc::{AllocError, Global};
use std::collections::HashMap;
use std::marker::Model;

/// The variable of a name, and its type.
#[derive(Clone, Copy)]
pub struct BoundName {
    pub var: VarId,
    pub ty: TypeId,
}

/// A name that can be used, and what of the same name it hides.
#[derive(Drop)]
struct VisibleName {
    name: Text,
    bound: BoundName,
    hidden: Option<BoundName>,
}

/// The names that can be used. Contracts see them as a list, the innermost first.
#[derive(Drop)]
struct Scope {
    alloc: Global,
    names: Vec<VisibleName>,
    innermost: HashMap<Text, BoundName>,
}

impl Model for Scope {
    ghost use Rattle.std.specs.Prelude.{List, map, reverse};
    ghost use Rattle.isle_rules.specs.Elaboration.{Visible};

    ghost Value = { List Visible };

    ghost use Rattle.isle_terms.specs.Inside.Readings.Scopes.{visible_shown, IsScope};

    ghost view = { λ scope. map visible_shown (reverse scope.names.items) };

    ghost invariant = { λ scope. IsScope (reverse scope.names.items) scope.innermost.entries };
}

impl Scope {
    /// No names.
    fn new(alloc: Global) -> Scope
        ensures { result ≡ [] }
    {
        Scope {
            alloc,
            names: Vec::new(alloc),
            innermost: HashMap::new(alloc),
        }
    }

    /// The innermost of a name.
    fn lookup(&self, name: &Text) -> Option<BoundName>
        ensures { result ≡ option_map bound_of (visible_in self.now name.now) }
    {
        self.innermost.get(name).copied()
    }

    /// Adds a name, which hides those of the same text.
    fn enter(&mut self, name: &Text, bound: BoundName) -> Result<(), AllocError>
        ensures { OnOk result (self.new ≡ visible_at name.now bound ∷ self.old) }
    {
        let hidden = self.lookup(name);
        let key = Text::from_str(self.alloc, name.as_str())?;
        let name = Text::from_str(self.alloc, name.as_str())?;
        self.names.reserve(1)?;
        self.innermost.insert(key, bound)?;
        self.names.push(VisibleName {
            name,
            bound,
            hidden,
        })?;
        Ok(())
    }

    /// Takes the innermost name away, if there is one.
    fn leave(&mut self) -> Result<(), AllocError>
        ensures { OnOk result (self.new ≡ drop 1 self.old) }
    {
        let Some(last) = self.names.pop() else {
            return Ok(());
        };
        match last.hidden {
            Some(bound) => {
                self.innermost.insert(last.name, bound)?;
            }
            None => {
                self.innermost.remove(&last.name);
            }
        }
        Ok(())
    }
}

/// A variable of a rule by the text of its name.
#[derive(Drop)]
pub struct RuleVariable {
    pub name: Text,
    pub ty: TypeId,
    /// Where it is bound.
    pub pos: Pos,
}

/// The variables of a rule so far, the names that can be used, and how many nodes there are. Contracts see it as a state.
#[derive(Drop)]
pub struct Bindings {
    alloc: Global,
    vars: Vec<RuleVariable>,
    scope: Scope,
    nodes: usize,
}

impl Model for Bindings {
    ghost use Rattle.std.specs.Prelude.{map};
    ghost use Rattle.isle_rules.specs.Elaboration.{State};

    ghost Value = { State };

    ghost use Rattle.isle_terms.specs.Inside.Readings.Scopes.{variable_shown};

    ghost view = { λ b. record {
      scope = b.scope;
      variables = map variable_shown b.vars.items;
      nodes = b.nodes;
    } };
}

impl Bindings {
    /// No variables and no nodes.
    pub fn new(alloc: Global) -> Bindings
        ensures { result ≡ start }
    {
        Bindings {
            alloc,
            vars: Vec::new(alloc),
            scope: Scope::new(alloc),
            nodes: 0,
        }
    }

    /// Counts one node more, unless there are as many as there may be.
    pub fn count_node(&mut self, max: usize) -> bool
        ensures counted { result ≡ true → (leb max self.old.nodes ≡ false) × (self.new ≡ counted self.old) }
        ensures full { result ≡ false → (leb max self.old.nodes ≡ true) × (self.new ≡ self.old) }
    {
        if self.nodes >= max {
            return false;
        }
        self.nodes += 1;
        true
    }

    /// The innermost variable of a name.
    pub fn lookup(&self, name: &Text) -> Option<BoundName>
        ensures { result ≡ option_map bound_of (visible_in self.now.scope name.now) }
    {
        self.scope.lookup(name)
    }

    /// A new variable of a name, which can be used from now on.
    pub fn bind(&mut self, name: &Ident, ty: TypeId) -> Result<VarId, AllocError>
        ensures var { IfOk result (λ var. var.0 ≡ length self.old.variables) }
        ensures ok { OnOk result (self.new ≡ bound self.old name.now.0 ty.0) }
    {
        let var = VarId(self.vars.len());
        let pos = name.1;
        self.scope.enter(&name.0, BoundName { var, ty })?;
        let name = Text::from_str(self.alloc, name.0.as_str())?;
        self.vars.push(RuleVariable { name, ty, pos })?;
        Ok(var)
    }

    /// Where a variable is bound.
    pub fn place(&self, var: VarId) -> Option<Pos> {
        Some(self.vars.get(var.index())?.pos)
    }

    /// Takes so many of the innermost names away; their variables stay.
    pub fn leave(&mut self, count: usize) -> Result<(), AllocError>
        ensures ok { OnOk result (self.new ≡ record self.old { scope = drop count self.old.scope }) }
    {
        for _ in 0..count {
            self.scope.leave()?;
        }
        Ok(())
    }

    /// The variables of the rule, each at the place of its number.
    pub fn into_vars(self) -> Vec<RuleVariable>
        ensures { map variable_shown result.items ≡ self.variables }
    {
        self.vars
    }
}
