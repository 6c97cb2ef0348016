// Bitvectors in bytes. A bitvector is a set of numbers, of which its ones are the members: one bit, the next and the previous bit
// of a sort, how many ones, the k-th bit of a sort, 64 bits from any on, the checks of the bytes, the writing of bits to the front of
// a memory, and the change of a whole memory of bits. These are leaves for the forms of an index: they ask for bit numbers within
// the bytes, writing for room, and `check`, `check_spare` and `write` for at most 131,072 bits. They take the bytes, and not a struct
// of bytes and their number of bits: an index holds its numbers and its parts and nothing else, and the number of bits of a row
// follows from them.
#![tactic(auto)]

mod after;
mod checks;
mod copying;
mod count;
mod demands;
mod law;
mod laying;
mod marking;
mod scan;
mod selecting;
mod unaligned;
mod whole;
mod words;
mod writing;

pub use after::{kth_after, ones_after};
pub use checks::check;
pub use copying::copy;
pub use count::ones;
pub use demands::{check_length, check_spare};
pub use law::packing_holds;
pub use marking::mark;
pub use scan::{next, previous};
pub use selecting::kth;
pub use unaligned::row;
pub use whole::{cut, turn};
pub use words::{get, whole_word};
pub use writing::{clear, put, write};
