//! The program `nr`: scripts over a reader map, from standard input to standard output.
#![tactic(auto)]

use nr_prog::main_of;
use std::io::Input;
use std::process::ExitCode;
use std::{env, io};

fn main(rt: HostRuntime) -> ExitCode {
    main_of(&rt, env::args(&rt), &mut rt.reader(), &mut io::writer(&rt))
}
