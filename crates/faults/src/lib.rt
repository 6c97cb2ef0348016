// Why a call refuses, and which part of which form was wrong. Every refusal has a number.
#![tactic(auto)]

mod bays;
mod fault;
mod flaw_number;
mod part;
mod range;
mod refusal_number;
mod text;

pub use bays::check_bays;
pub use fault::{Fault, Flaw, Form, Refusal};
pub use part::Located;
pub use range::{check_last, check_range};
