// The valuations that a walk has yet to visit.
ghost use Rattle.std.specs.Prelude.{◌≡◌, ◌+◌, ◌<◌, ◌++◌, ◌∷◌, [], length, map, IfOk, IfSome, IfNone, OnOk};
ghost use Rattle.plan_ops.specs.Stages.{IsPair, IsStage, joined_row, set_before, use_at};
ghost use Rattle.block_walk.specs.Kept.{part, pending_at};
ghost use Rattle.block_walk.specs.Stacks.{IsInside, IsStack, pending_in, pending_of};

use beas_core::{List, NoMemory, Normal, Row, Value};
use plan_ops::{Stage, push_joined};
use std::alloc::Global;

/// A valuation before a step, by where its values stand.
#[derive(Clone, Copy)]
pub struct StackedValuation {
    /// The step's number.
    pub step: usize,
    pub from: usize,
    pub width: usize,
}

/// The valuations that a walk has yet to visit, the next one last. Their values stand one after another in one piece of memory.
#[derive(Drop)]
pub struct Stack {
    pub values: Vec<Value>,
    pub valuations: Vec<StackedValuation>,
}

// For so many values, and for so many valuations more, there is room from the start, so that a small query's walk seldom moves them.
const VALUES: usize = 48;

const MORE: usize = 24;

impl Stack {
    /// Valuations before the first step.
    pub fn begin(alloc: Global, rows: List<Row>) -> Result<Stack, NoMemory>
        ensures stack { IfOk result IsStack }
        ensures pending { IfOk result (λ stack. pending_in stack ≡ map (pending_at 0) rows) }
    {
        let mut stack = Stack {
            values: Vec::with_capacity(alloc, VALUES)?,
            valuations: Vec::with_capacity(alloc, rows.len().saturating_add(MORE))?,
        };
        for row in rows.into_vec() {
            stack.push_first(&mut row.into_vec())?;
        }
        Ok(stack)
    }

    // Adds a valuation before the first step, whose values move here.
    fn push_first(&mut self, row: &mut Vec<Value>) -> Result<(), NoMemory>
        requires { IsStack self.old }
        ensures stack { OnOk result (IsStack self.new) }
        ensures pending { OnOk result (pending_in self.new ≡ pending_in self.old ++ pending_at 0 row.old.items ∷ []) }
    {
        let from = self.values.len();
        let width = row.len();
        self.values.append(row)?;
        self.valuations.push(StackedValuation {
            step: 0,
            from,
            width,
        })?;
        Ok(())
    }

    /// Takes the next valuation off. Its values stay, as the last ones, until another is taken off.
    pub fn pop(&mut self) -> Option<StackedValuation>
        requires { IsStack self.old }
        ensures stack { IsStack self.new }
        ensures last { IfSome result (λ at. length self.new.values.items ≡ at.from + at.width) }
        ensures pending { IfSome result (λ at. pending_in self.old
            ≡ pending_in self.new ++ pending_of self.new.values.items at ∷ []) }
        ensures none { IfNone result (pending_in self.old ≡ []) }
        ensures same { IfNone result (pending_in self.new ≡ []) }
    {
        let at = self.valuations.pop()?;
        // What lies behind it is left over of valuations that were taken off.
        self.values.truncate(at.from + at.width);
        Some(at)
    }

    /// The values of a valuation that was taken off last.
    pub fn row(&self, at: StackedValuation) -> &[Value]
        requires { IsInside self.now.values.items at }
        ensures { result.now ≡ part self.now.values.items at.from at.width }
    {
        &self.values[at.from..at.from + at.width]
    }

    /// Adds the valuation before the next step that one makes with a tuple.
    pub fn push_child(
        &mut self,
        alloc: Global,
        block: &Normal,
        stage: &Stage,
        at: StackedValuation,
        tuple: &[Value],
    ) -> Result<(), NoMemory>
        requires stack { IsStack self.old }
        requires inside { IsInside self.old.values.items at }
        requires stage { IsStage block.now stage.now }
        requires pair { IsPair block.now stage.now (part self.old.values.items at.from at.width) tuple.now }
        requires room { at.step + 1 < 18446744073709551616 }
        ensures stack { OnOk result (IsStack self.new) }
        ensures inside { OnOk result (IsInside self.new.values.items at) }
        ensures same { OnOk result
            (part self.new.values.items at.from at.width ≡ part self.old.values.items at.from at.width) }
        ensures pending { OnOk result (pending_in self.new ≡ pending_in self.old ++ pending_at (at.step + 1)
            (joined_row block.now (use_at stage.now) (set_before block.now stage.now)
            (part self.old.values.items at.from at.width) tuple.now) ∷ []) }
    {
        let from = self.values.len();
        push_joined(alloc, stage, &mut self.values, at.from, at.width, tuple)?;
        let width = self.values.len() - from;
        self.valuations.push(StackedValuation {
            step: at.step + 1,
            from,
            width,
        })?;
        Ok(())
    }
}
