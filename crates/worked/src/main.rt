// Runs the worked cases of the rules, and many more, by the real code, and says what each gave.
#![tactic(auto)]

mod building;
mod ids;
mod line;
mod lookups;
mod pages;
mod pushes;
mod say;
mod scans;
mod script;
mod tails;

use std::io;

fn main(rt: HostRuntime) -> io::Result<()> {
    pages::run(&rt)?;
    tails::run(&rt)?;
    lookups::run(&rt)?;
    scans::run(&rt)?;
    pushes::run(&rt)?;
    ids::run(&rt)
}
