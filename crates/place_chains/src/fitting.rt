// The tuples of a group that may have some values.
ghost use Rattle.std.specs.Prelude.{◌≡◌, ℕ, List, IfSome, length};
ghost use Rattle.beas_core.specs.Types.{Row};
ghost use Rattle.place_chains.specs.Fitting.{IsFitting, IsNext, IsRun};

/// Goes through the tuples of a group that may have some values, from the first one on.
#[derive(Drop)]
pub struct Fitting<'a> {
    pub count: usize,
    /// So many tuples were gone through.
    pub from: usize,
    /// Where the tuples are in order, the numbers of those alone that have the values and are still to come.
    pub run: Option<&'a [usize]>,
}

impl<'a> Fitting<'a> {
    /// So many tuples: all, or those of a run alone.
    #[inline(always)]
    pub fn among(count: usize, run: Option<&'a [usize]>) -> Fitting<'a>
        ensures first { result.from ≡ 0 }
        ensures fits { (places : List ℕ) (tuples : List Row) (values : Row) → count ≡ length tuples
            → IfSome run.entry (λ numbers. IsRun places tuples values 0 numbers.now) → IsFitting places tuples values result }
    {
        Fitting {
            count,
            from: 0,
            run,
        }
    }

    /// The next tuple. None is left out that has the values. A tuple that comes has them where the tuples are in order, and may
    /// have others where they aren't. If no tuple is left, nothing changes.
    #[inline(always)]
    pub fn next(&mut self) -> Option<usize>
        requires { (places : List ℕ) × (tuples : List Row) × (values : Row) × IsFitting places tuples values self.old }
        ensures { (places : List ℕ) (tuples : List Row) (values : Row) → IsFitting places tuples values self.old
            → IsNext places tuples values self.old result self.new }
    {
        let count = self.count;
        let at = match self.run {
            Some(run) => {
                let (first, others) = run.split_first()?;
                self.run = Some(others);
                *first
            }
            None if self.from < count => self.from,
            None => return None,
        };
        self.from = at + 1;
        Some(at)
    }
}
