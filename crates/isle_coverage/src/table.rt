//! The tests that the rules of a term ask, each with a number.
ghost use Rattle.std.specs.Prelude.{◌≡◌, [], IfOk, OnOk};
ghost use Rattle.isle_types.specs.Names.{AreDistinct};
ghost use Rattle.isle_coverage.specs.Inside.Tests.{plain_test, is_single_test, typed_test};
ghost use Rattle.isle_coverage.specs.Inside.Tables.{ArePlain, HasNumber, KeepsNumbers};

use isle_blocks::Constraint;
use isle_missing::TestId;
use isle_types::{SortedSet, TypeId};
use std::alloc::{AllocError, Global};
use std::marker::Model;

/// A test by the values that pass it: of a number or a truth value, whatever its type.
pub(crate) fn plain_test(test: Constraint) -> Constraint
    ensures { result ≡ plain_test test }
{
    let ty = TypeId(0);
    match test {
        Constraint::ConstBool { val, .. } => Constraint::ConstBool { val, ty },
        Constraint::ConstInt { val, .. } => Constraint::ConstInt { val, ty },
        _ => test,
    }
}

/// The type of which a test is, where the test says so.
pub(crate) fn typed_test(test: Constraint) -> Option<TypeId>
    ensures { result ≡ typed_test test }
{
    match test {
        Constraint::Variant { ty, .. }
        | Constraint::Struct { ty, .. }
        | Constraint::ConstBool { ty, .. }
        | Constraint::ConstInt { ty, .. } => Some(ty),
        Constraint::ConstPrim { .. } | Constraint::Some => None,
    }
}

/// Whether only one value passes a test: a constant, or data without fields.
pub(crate) fn is_single_test(test: Constraint) -> bool
    ensures { result ≡ is_single_test test }
{
    match test {
        Constraint::Variant { fields, .. } | Constraint::Struct { fields, .. } => fields.0 == 0,
        Constraint::ConstBool { .. } | Constraint::ConstInt { .. } | Constraint::ConstPrim { .. } =>
            true,
        Constraint::Some => false,
    }
}

/// Tests by the values that pass them, each once, at their numbers.
#[derive(Drop)]
pub(crate) struct TestTable {
    tests: SortedSet<Constraint>,
}

impl Model for TestTable {
    ghost use Rattle.std.specs.Prelude.{List};
    ghost use Rattle.isle_blocks.specs.declared.constraint.Constraint.{Constraint};
    ghost use Rattle.isle_coverage.specs.Inside.Tables.{ArePlain};

    ghost Value = { List Constraint };

    ghost view = { λ table. table.tests };

    ghost invariant = { λ table. ArePlain table.tests };
}

impl TestTable {
    /// No test yet.
    pub(crate) fn new(alloc: Global) -> TestTable
        ensures { result ≡ [] }
    {
        TestTable {
            tests: SortedSet::new(alloc),
        }
    }

    /// The number of a test, which it is given if it has none.
    pub(crate) fn number(&mut self, test: Constraint) -> Result<TestId, AllocError>
        ensures numbered { IfOk result (λ id. HasNumber self.new test id.0) }
        ensures kept { OnOk result (KeepsNumbers self.old self.new) }
    {
        let number = self.tests.insert(plain_test(test))?;
        Ok(TestId(number))
    }

    /// The tests, each at its number.
    pub(crate) fn as_slice(&self) -> &[Constraint]
        ensures tests { result.now ≡ self.now }
        ensures once { AreDistinct self.now }
        ensures plain { ArePlain self.now }
    {
        let _count = self.tests.len();
        self.tests.as_slice()
    }
}
