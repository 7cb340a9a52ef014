//! The outside of a test run: where a trace's bytes go, where files come from, and the programs beside it.
//!
//! The code above takes the traits `Sink`, `Files`, `Link` and `Spawner`. `MemSink`, `MemFiles`, `ScriptLink` and
//! `MemSpawner` keep everything in memory, and their contracts say exactly what each call does. `StdSink`,
//! `DirFiles`, `StdLink`, `Child` and `ChildSpawner` pass on to the system, of whose bytes nothing is known.
//!
//! Each object counts its faults, the calls that failed because of the outside. The count never
//! falls, and it stays at `u64::MAX` once it is there, which then counts as risen. So an answer
//! that blames the outside comes only with a count that rose.
#![tactic(auto)]

mod asked;
mod calls;
mod child;
mod command;
mod cuts;
mod descriptors;
mod dir_files;
mod files;
mod gathered;
mod link;
mod mem_files;
mod mem_sink;
mod mem_spawner;
mod memory;
mod pipes;
mod putting;
mod script_link;
mod sink;
mod spawner;
mod std_link;
mod std_sink;

pub use calls::Calls;
pub use child::{Child, ChildSpawner};
pub use descriptors::hold_descriptors;
pub use dir_files::DirFiles;
pub use files::{FileRefusal, Files};
pub use gathered::Gathered;
pub use link::Link;
pub use mem_files::MemFiles;
pub use mem_sink::MemSink;
pub use mem_spawner::MemSpawner;
pub use memory::Memory;
pub use putting::{put, put_counted};
pub use script_link::ScriptLink;
pub use sink::{Failed, Sink};
pub use spawner::{Spawner, StartRefusal};
pub use std_link::StdLink;
pub use std_sink::StdSink;
