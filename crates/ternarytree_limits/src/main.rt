// Runs the three builders of trees at the limits of what they take, and writes a line for each call: the number handed
// back, and what is left of the X parts, the Z parts, the phases, the vacuum and the room, all of which held 7 before. Of
// a named tree it writes how many of them are 0 and how many are still 7.

#![tactic(auto)]

mod flat; // flat.rt: the flatpacks
mod named; // named.rt: the named trees
mod tell; // tell.rt: what is written

use std::io;

// How long each slice is that is written.
#[derive(Clone, Copy)]
pub struct Lengths {
    pub x: usize,
    pub z: usize,
    pub phases: usize,
    pub vacuum: usize,
    pub room: usize,
}

fn main(rt: HostRuntime) -> io::Result<()> {
    named::sizes(&rt)?;
    flat::values(&rt)?;
    flat::one_short(&rt)?;
    named::one_short(&rt)
}
