// Whole batches: an index is opened from a record, and then many places are answered, its set is filled, or two sets are walked through.
#![tactic(auto)]

mod asking;
mod counting;
mod fills;
mod nearest_bays;
mod opened;
mod question;
mod records;
mod refused;
mod sheets;

pub use asking::ask;
pub use counting::count;
pub use fills::{fill, measure};
pub use nearest_bays::nearest;
pub use opened::check;
pub use question::Question;
pub use records::Record;
pub use refused::{FillFault, SheetFault};
pub use sheets::sheet;
