// Rules over the cells of a model: a test of one cell among all, and the lowest cell that fails it.
ghost use Rattle.std.specs.Prelude.{◌≡◌, ℕ, ◌<◌, Bool};
ghost use Rattle.model.specs.Below.{first_bad};

pub(crate) trait Rule {
    // how many cells there are
    ghost count: { Self → ℕ };

    ghost test: { Self → ℕ → Bool };

    fn count(&self) -> usize
        ensures { result ≡ count self.now };

    fn keeps(&self, i: usize) -> bool
        requires { i < count self.now }
        ensures { result ≡ test self.now i };
}

// The lowest cell that breaks the rule.
pub(crate) fn lowest<R: Rule>(rule: &R) -> Option<usize>
    ensures { result ≡ first_bad (R.count rule.now) (R.test rule.now) }
{
    (0..rule.count()).find(|&i| !rule.keeps(i))
}
