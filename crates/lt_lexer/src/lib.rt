//! Tokens: the words, numbers and symbols of a scenario's text, with their places.
//!
//! A text divides into blanks, comments and tokens, each token as long as it can be. [`lex`] answers a
//! text's tokens, or why it has none: each as a [`Lexeme`], which has its sign, its letters and its place.
//!
//! The rules are in `docs/LANGUAGE.md`, under *Lexical rules*. `specs/Piece.antt` says what blanks,
//! comments and tokens are, `specs/Tokenization.antt` what tokens a text has and why a text has none, and
//! `specs/Source.antt` which sign a token is. How each sign is spelled, `spelled` of `lt_ast` says.
#![tactic(auto)]

mod byte;
mod laws;
mod lexeme;
mod lexer;
mod piece;
mod refusal;
mod spelling;
mod token;

pub use laws::{
    a_token_is_one_sign, one_answer_belongs_to_a_text, tokens_apart_are_the_same,
    tokens_stand_in_turn,
};
pub use lexeme::Lexeme;
pub use lexer::lex;
pub use refusal::LexRefusal;
pub use token::{Token, TokenKind};
