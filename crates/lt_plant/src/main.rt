//! A plant as a program: it replies to the lines of standard input on standard output.
//!
//! Its words name the plant. It ends with the number that `serve` answers, or with 3 where the words name no plant.
#![tactic(auto)]

use lt_io::StdLink;
use lt_plants::{Plant, Playing, plant_of, serve};
use std::process::ExitCode;
use std::rt::Env;
use std::{env, io};

// Where the words name no plant.
const NO_PLANT: u8 = 3;

fn main(rt: HostRuntime) -> ExitCode {
    let Some(plant) = named_plant(&rt) else {
        return ExitCode::from(NO_PLANT);
    };
    let mut link = StdLink::new(rt.reader(), io::writer(&rt));
    ExitCode::from(serve(&mut Playing::new(plant), &mut link))
}

// The plant that the words after the program's name name. A word that is no text names none.
fn named_plant(rt: &(impl Env + AllocGlobal)) -> Option<Plant> {
    let mut words = env::args(rt).ok()?;
    let _program = words.next();
    let words: Vec<String> = words.collect(rt.alloc()).ok()?;
    plant_of(&words)
}
