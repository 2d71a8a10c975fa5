// How many cases were tried, and how many of them differ.
ghost use Rattle.std.specs.Prelude.{◌≡◌};
ghost use Rattle.answer_lists.specs.Counts.{counted};

#[derive(Clone, Copy, Default)]
pub struct Count {
    pub cases: u64,
    pub differing: u64,
}

impl Count {
    // One case more.
    pub fn with(self, agrees: bool) -> Count
        ensures { result ≡ counted self agrees }
    {
        Count {
            cases: self.cases.saturating_add(1),
            differing: self.differing.saturating_add(!agrees as u64),
        }
    }
}
