//! What sites hold.
use isle_ast::Seq;
use std::alloc::AllocError;

/// What a site holds: a value or the outputs of an extractor in so many options, or so many options around one that is empty.
#[derive(Clone, PartialEq, Eq, Drop)]
pub struct Holding {
    pub options: usize,
    pub content: Content,
}

/// What is in the options.
#[derive(Clone, PartialEq, Eq, Drop)]
pub enum Content {
    /// The value of a number.
    Value(usize),
    /// The outputs of an extractor that doesn't have one, by the numbers of their values.
    Outputs(Seq<usize>),
    /// An empty option.
    Nothing,
}

impl Holding {
    ghost use Rattle.std.specs.Prelude.{List, IfOk};
    ghost use Rattle.isle_meaning.specs.Held.{Held, held_value, held_none, held_some, plain_of, outputs_of, content_of};
    ghost use Rattle.isle_meaning.specs.Values.{Value as MeantValue, Values};
    ghost use Rattle.isle_calls.specs.declared.store.Stored.{Stored};
    ghost use Rattle.isle_calls.specs.Stores.Values.{Stands, StandEach};
    ghost use Rattle.isle_calls.specs.Inside.Blocks.Holdings.{Holds, TellsHeld, TellsNumber};

    /// The value of a number.
    pub fn value(number: usize) -> Holding
        ensures { (stored : List Stored) (v : MeantValue) → Stands stored v number → Holds stored result (held_value v) }
    {
        Holding {
            options: 0,
            content: Content::Value(number),
        }
    }

    /// An empty option.
    pub fn nothing() -> Holding
        ensures { (stored : List Stored) → Holds stored result held_none }
    {
        Holding {
            options: 0,
            content: Content::Nothing,
        }
    }

    /// The outputs of an extractor: one output is the value itself.
    pub fn outputs(numbers: Vec<usize>) -> Holding
        ensures { (stored : List Stored) (vs : Values) → StandEach stored vs numbers.items → Holds stored result (outputs_of vs) }
    {
        match numbers.as_slice() {
            [number] => Holding::value(*number),
            _ => Holding {
                options: 0,
                content: Content::Outputs(Seq::new(numbers)),
            },
        }
    }

    /// It in an option. More than 2^64 - 1 options end as want of memory.
    pub fn in_option(self) -> Result<Holding, AllocError>
        ensures { IfOk result (λ held. (stored : List Stored) (h : Held) → Holds stored self h → Holds stored held (held_some h)) }
    {
        let Holding { options, content } = self;
        match options.checked_add(1) {
            Some(options) => Ok(Holding { options, content }),
            None => Err(AllocError),
        }
    }

    /// What is in the option, if there is one and it isn't empty.
    pub fn in_it(self) -> Option<Holding>
        ensures { (stored : List Stored) (h : Held) → Holds stored self h → TellsHeld stored result (content_of h) }
    {
        let Holding { options, content } = self;
        let options = options.checked_sub(1)?;
        Some(Holding { options, content })
    }

    /// The number of the value that it is, if it is one.
    pub fn number(&self) -> Option<usize>
        ensures { (stored : List Stored) (h : Held) → Holds stored self.now h → TellsNumber stored result (plain_of h) }
    {
        match (self.options, &self.content) {
            (0, Content::Value(number)) => Some(*number),
            _ => None,
        }
    }
}
