//! The syntax of ISLE: tokens and what they spell, and reports of errors. The trees and source files of `isle_ast` are passed on.
#![tactic(auto)]

pub mod error;
pub mod gap;
mod kind;
pub mod laws;
pub mod lexer;
pub mod number;
pub mod parser;
pub mod symbol;
pub mod without_pos;

pub use isle_ast::{Boxed, Refusal, Seq, Shared, Text, ast, files};
pub use symbol::{is_const_name, is_ident};
