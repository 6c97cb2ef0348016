// What lies before a bit of the two rows.

/// What the stretches from a bit on depend on.
#[derive(Clone, Copy, PartialEq, Eq, Debug)]
pub struct Stance {
    // The bit before is in both rows, or there is none: a stretch begins here.
    pub fresh: bool,
    // The last bit of the stretch that is in either row is in the free row alone.
    pub in_free: bool,
    // It is in the class alone.
    pub in_class: bool,
}
