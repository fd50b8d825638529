// How many lines of a list were played and found equal.

#[derive(Clone, Copy)]
pub(crate) struct Tally {
    pub all: u64,
    pub equal: u64,
}

impl Tally {
    pub(crate) fn counted(self, equal: bool) -> Tally {
        Tally {
            all: self.all.saturating_add(1),
            equal: self.equal.saturating_add(u64::from(equal)),
        }
    }
}
