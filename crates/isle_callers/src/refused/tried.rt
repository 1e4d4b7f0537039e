//! What a call came to.
use std::alloc::{AllocError, Global};

/// What a call came to.
#[derive(Drop)]
pub struct Tried {
    /// Whether it was answered; else memory was refused.
    pub is_answered: bool,
    /// How what it worked on stands behind it.
    pub state: String,
}

impl Tried {
    /// The line that tells of a call.
    pub fn line(&self, alloc: Global, words: &str) -> Result<String, AllocError> {
        let state = self.state.as_str();
        if self.is_answered {
            format!(in alloc; "{words}: answered, {state}")
        } else {
            format!(in alloc; "{words}: refused, {state}")
        }
    }
}

/// Adds a number behind a space.
pub fn push_number(alloc: Global, text: &mut String, number: u64) -> Result<(), AllocError> {
    let digits = format!(in alloc; " {number}")?;
    text.push_str(digits.as_str())
}

/// What a call came to whose answer should equal a value.
pub fn compared<T: PartialEq + Drop>(
    alloc: Global,
    answer: Result<T, AllocError>,
    wanted: &T,
) -> Result<Tried, AllocError> {
    let is_same = match &answer {
        Ok(value) => *value == *wanted,
        Err(_) => true,
    };
    Ok(Tried {
        is_answered: answer.is_ok(),
        state: String::from_str(alloc, if is_same { "the same" } else { "another" })?,
    })
}
