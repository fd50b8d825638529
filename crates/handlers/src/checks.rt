// What the handlers share.

// The verdict on the own vote and the own timeout.
pub(crate) const YES: u8 = 1;
