//! The grammar: which tokens are which program.
//!
//! No code runs in this crate: its functions are laws. `specs/Grammar.antt` says which tokens are which program,
//! `specs/Program.antt` what it means that tokens begin one, and `specs/Text.antt` what program a text spells. The rules are in
//! `docs/LANGUAGE.md`, under *Grammar*; `lt_parser` reads by them.
#![tactic(auto)]

mod laws;

pub use laws::{
    printed_text_reads_back, program_is_written_as_spelled, spelled_elsewhere,
    text_is_printed_by_its_tokens,
};
