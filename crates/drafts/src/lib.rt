// Indexes in memory of their own: as they come, and opened for good.
#![tactic(auto)]

mod clone;
mod draft;
mod filled;
mod layered;
mod opened;
mod pair;
mod stored;
mod text;

pub use draft::Draft;
pub use pair::open_both;
pub use stored::Stored;
pub use text::write_draft;
