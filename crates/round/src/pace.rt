// How far a sheet has come.

use strides::Stance;

/// The next bay to be passed, the bays written before it, the stretches taken, and how the last of them stands.
#[derive(Clone, Copy)]
pub struct Pace {
    pub bay: u32,
    pub written: u32,
    pub stretches: u32,
    pub stance: Stance,
}
