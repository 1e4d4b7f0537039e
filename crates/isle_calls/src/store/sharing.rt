//! Values that are put into a store.
ghost use Rattle.std.specs.Prelude.{◌≡◌, IfOk, reverse, take, drop};
ghost use Rattle.isle_rules.specs.Values.{ValueTrees, value_list};
ghost use Rattle.isle_meaning.specs.GroundValues.{value_of, values_of, type_of_data};
ghost use Rattle.isle_values.specs.Values.Nodes.{put};
ghost use Rattle.isle_program.specs.Programs.{value_facts};
ghost use Rattle.isle_calls.specs.Stores.Values.{Stands, StandEach, Extends};
ghost use Rattle.isle_calls.specs.Inside.Stores.Sharing.{stored_data, stored_node, numbers_left};

use super::{Store, Stored};
use isle_ast::Seq;
use isle_program::Program;
use isle_rules::TermKind;
use isle_types::TypeId;
use isle_values::{Node, Value};
use std::alloc::{AllocError, Global};

impl Store {
    /// The number of a value, whose nodes are put in from the last to the first.
    pub fn share(&mut self, program: &Program, value: &Value) -> Result<usize, AllocError>
        ensures number { IfOk result (λ number. Stands self.new (value_of (value_facts program.now) value.now) number) }
        ensures kept { Extends self.old self.new }
    {
        let nodes = value.nodes();
        let mut done = Vec::new(self.alloc);
        for i in 0..nodes.len() {
            self.share_node(program, &nodes[nodes.len() - 1 - i], &mut done)?;
        }
        match done.pop() {
            Some(number) => Ok(number),
            None => unreachable!(),
        }
    }

    /// The numbers of values, in order.
    pub fn share_all(
        &mut self,
        program: &Program,
        values: &[Value],
    ) -> Result<Vec<usize>, AllocError>
        ensures numbers { IfOk result
            (λ numbers. StandEach self.new (values_of (value_facts program.now) (value_list values.now)) numbers.items) }
        ensures kept { Extends self.old self.new }
    {
        let mut numbers = Vec::new(self.alloc);
        for value in values {
            numbers.push(self.share(program, value)?)?;
        }
        Ok(numbers)
    }

    /// Puts in a node, before the values that its fields are among, whose numbers stand from the last to the first.
    fn share_node(
        &mut self,
        program: &Program,
        node: &Node,
        done: &mut Vec<usize>,
    ) -> Result<(), AllocError>
        ensures stand { IfOk result
            (λ _. (vs : ValueTrees) → StandEach self.old (values_of (value_facts program.now) vs) (reverse done.old.items)
            → StandEach self.new (values_of (value_facts program.now) (put node.now vs)) (reverse done.new.items)) }
        ensures kept { Extends self.old self.new }
    {
        let stored = stored_node(self.alloc, program, node, done)?;
        let number = self.intern(stored)?;
        done.push(number)?;
        Ok(())
    }
}

/// What is kept of a node, whose fields are the last of the numbers that were put in before.
fn stored_node(
    alloc: Global,
    program: &Program,
    node: &Node,
    done: &mut Vec<usize>,
) -> Result<Stored, AllocError>
    ensures stored { IfOk result (λ stored. stored ≡ stored_node (value_facts program.now) node.now (reverse done.old.items)) }
    ensures left { IfOk result (λ _. reverse done.new.items ≡ numbers_left node.now (reverse done.old.items)) }
{
    match node {
        Node::Bool(b) => Ok(Stored::Bool(*b)),
        Node::Int(n) => Ok(Stored::Int(*n)),
        Node::Big(n) => Ok(Stored::Int(n.cast_signed())),
        Node::Const(name) => Ok(Stored::Const(name.clone()?)),
        Node::Opaque(n) => Ok(Stored::Opaque(*n)),
        Node::Data(name, fields, _nodes) => {
            let numbers = pop_fields(alloc, *fields, done)?;
            Ok(stored_data(program, name.as_str(), Seq::new(numbers)))
        }
    }
}

/// What is kept of data; a struct of type 0 where the program has no data of the name.
fn stored_data(program: &Program, name: &str, fields: Seq<usize>) -> Stored
    ensures { result ≡ stored_data ((value_facts program.now).shape_named name.now)
        (type_of_data ((value_facts program.now).data_named name.now)) fields }
{
    let Some(id) = program.term(name) else {
        return Stored::Struct(TypeId::BOOL, fields);
    };
    let Some(term) = program.terms().get_term(id) else {
        return Stored::Struct(TypeId::BOOL, fields);
    };
    match &term.kind {
        TermKind::EnumVariant { variant } => Stored::Variant(term.ret_ty, *variant, fields),
        TermKind::Struct => Stored::Struct(term.ret_ty, fields),
        TermKind::Decl { .. } => Stored::Struct(TypeId::BOOL, fields),
    }
}

/// The last of some numbers, so many of them, from the last on.
fn pop_fields(alloc: Global, fields: usize, done: &mut Vec<usize>) -> Result<Vec<usize>, AllocError>
    ensures taken { IfOk result (λ numbers. numbers.items ≡ take fields (reverse done.old.items)) }
    ensures left { IfOk result (λ _. reverse done.new.items ≡ drop fields (reverse done.old.items)) }
{
    let mut numbers = Vec::new(alloc);
    for _i in 0..fields {
        let Some(number) = done.pop() else {
            return Ok(numbers);
        };
        numbers.push(number)?;
    }
    Ok(numbers)
}
