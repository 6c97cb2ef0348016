// Which step of two chains was refused, and why.
use faults::Fault;
use opening::Side;

/// The fault of a step of one of the two chains.
#[derive(Clone, Copy, PartialEq, Eq, Debug)]
pub struct ChainFault {
    pub side: Side,
    /// Which step of its chain, counted from 1.
    pub step: usize,
    pub fault: Fault,
}
