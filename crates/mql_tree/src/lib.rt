//! The text of a source file, its tokens and its tree.
#![tactic(auto)]

mod lexer;
mod text;
mod token;
mod value;

pub use lexer::{lex, one_answer};
pub use text::{TextFault, text_of_bytes};
pub use token::{IncludePlace, LexFault, Span, Token, Tokens, Tree, TreeList};
