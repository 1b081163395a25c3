// What came of many queries.
use beas_core::NoMemory;
use reference_evaluation::GuidedBlocks;
use std::alloc::Global;

/// A query with a greater number isn't executed: the reference programs take long over it.
pub const BUDGET: u64 = 1000;

/// How many queries were drawn and how many of them executed, and how many of these by other plans than the canonical
/// ones; how many derivations of theirs lost steps, and what their guided blocks found; and how many queries came out
/// otherwise than by the reference programs.
#[derive(Clone, Copy)]
pub struct Tally {
    pub drawn: u32,
    pub executed: u32,
    pub other: u32,
    pub shortened: u32,
    pub guided: GuidedBlocks,
    pub differing: u32,
}

impl Tally {
    /// No queries.
    pub fn none() -> Tally {
        Tally {
            drawn: 0,
            executed: 0,
            other: 0,
            shortened: 0,
            guided: GuidedBlocks::none(),
            differing: 0,
        }
    }

    /// The queries of both.
    pub fn with(self, more: Tally) -> Tally {
        Tally {
            drawn: self.drawn.saturating_add(more.drawn),
            executed: self.executed.saturating_add(more.executed),
            other: self.other.saturating_add(more.other),
            shortened: self.shortened.saturating_add(more.shortened),
            guided: self.guided.with(more.guided),
            differing: self.differing.saturating_add(more.differing),
        }
    }

    /// One query that wasn't executed.
    pub fn refused(is_wanted: bool) -> Tally {
        Tally {
            drawn: 1,
            differing: u32::from(!is_wanted),
            ..Tally::none()
        }
    }

    /// The lines of all queries, and of the blocks of those that were executed.
    pub fn said(self, alloc: Global) -> Result<String, NoMemory> {
        let Tally {
            drawn,
            executed,
            other,
            shortened,
            differing,
            ..
        } = self;
        let blocks = blocks_said(alloc, self.guided)?;
        Ok(format!(in alloc;
            "{drawn} queries, {executed} of them covered within {BUDGET} reads and executed, {other} by plans that aren't canonical, {shortened} derivations shortened\n{blocks}\n{differing} differences"
        )?)
    }
}

/// The line of blocks that have a guide.
fn blocks_said(alloc: Global, blocks: GuidedBlocks) -> Result<String, NoMemory> {
    let GuidedBlocks {
        alone,
        guided,
        finding,
        silent,
        fixed,
        repeating,
    } = blocks;
    Ok(format!(in alloc;
        "{guided} guided blocks: {finding} find something, {silent} probe nothing, {fixed} have a constant in the output, {repeating} a column twice; {alone} blocks with a guide are covered alone"
    )?)
}
