// Labels for new tuples.
ghost use Rattle.std.specs.Prelude.{◌≡◌, ◌<◌, ◌≤◌, ◌⊎◌, ◌+◌, ◌-◌, ◌*◌, ◌^◌, true, length};
ghost use Rattle.labelled_list.specs.Labels.{ArePlaces, IsLabelled, SitsAt, in_order, items_of, label_in};
ghost use Rattle.labelled_list.specs.Spreads.{IsStretch, IsSpread, IsSparse, HasRoom, parts_of};

use crate::places::{Tuples, label_at, write_label};
use crate::slot::Slot;
use crate::stretch::Stretch;
use blocked_list::{BlockedList, Walk};

/// How far from the last label the next one stands at either end of the list: millions of tuples find room there.
const STEP: u64 = 1 << 38;

/// A stretch reaches so far to either side of a place at first.
const NEAR: usize = 16;

/// The labels of n tuples that are spread come to stand so many times n apart, at least: the wider a stretch, the sparser it
/// has to be. A list of fewer than 2^28 - 2 tuples is sparse enough in whole; a longer one is spread in whole all the same.
const SPARSE: u64 = 1 << 8;

/// The label of the tuple before a place, or 0 at the front.
fn label_before(tuples: &Tuples, slots: &BlockedList<Slot>, at: usize) -> u64
    requires places { ArePlaces (length tuples.now.entries) slots.now }
    requires within { at ≤ length slots.now }
    ensures front { at ≡ 0 → result ≡ 0 }
    ensures inner { 0 < at → result ≡ label_in (in_order tuples.now.entries slots.now) (at - 1) }
{
    if at == 0 {
        return 0;
    }
    label_at(tuples, slots, at - 1)
}

/// The label of the tuple at a place, or the greatest number past the end.
fn label_after(tuples: &Tuples, slots: &BlockedList<Slot>, at: usize) -> u64
    requires places { ArePlaces (length tuples.now.entries) slots.now }
    ensures end { length slots.now ≤ at → result ≡ 2 ^ 64 - 1 }
    ensures inner { at < length slots.now → result ≡ label_in (in_order tuples.now.entries slots.now) at }
{
    if slots.len() <= at {
        return u64::MAX;
    }
    label_at(tuples, slots, at)
}

/// The tuples from one place to another with the labels around them.
fn stretch_of(tuples: &Tuples, slots: &BlockedList<Slot>, first: usize, end: usize) -> Stretch
    requires labelled { IsLabelled tuples.now.entries slots.now }
    requires ordered { first ≤ end }
    requires within { end ≤ length slots.now }
    ensures first { result.first ≡ first }
    ensures end { result.end ≡ end }
    ensures is { IsStretch (in_order tuples.now.entries slots.now) result }
    ensures whole { first ≡ 0 → end ≡ length slots.now → (result.low ≡ 0) × (result.high ≡ 2 ^ 64 - 1) }
{
    let low = label_before(tuples, slots, first);
    let high = label_after(tuples, slots, end);
    Stretch {
        first,
        end,
        low,
        high,
    }
}

/// Into how many parts the n tuples of a stretch and one more cut it where they are spread evenly: n + 2.
fn parts(stretch: &Stretch) -> u64
    requires ordered { stretch.now.first ≤ stretch.now.end }
    requires few { stretch.now.end < 2 ^ 32 }
    ensures { result ≡ parts_of stretch.now }
{
    (stretch.end - stretch.first) as u64 + 2
}

/// How far apart the labels of a stretch come to stand where they and one more are spread evenly.
fn even_step(stretch: &Stretch) -> u64
    requires ordered { stretch.now.first ≤ stretch.now.end }
    requires few { stretch.now.end < 2 ^ 32 }
    requires open_between { stretch.now.low < stretch.now.high }
    ensures fits { result * (stretch.now.end - stretch.now.first + 2) ≤ stretch.now.high - stretch.now.low }
    ensures some { HasRoom stretch.now → 0 < result }
    ensures room { 0 < result → HasRoom stretch.now }
{
    (stretch.high - stretch.low) / parts(stretch)
}

/// Whether a stretch is wide enough for its tuples.
fn is_sparse(stretch: &Stretch) -> bool
    requires ordered { stretch.now.first ≤ stretch.now.end }
    requires few { stretch.now.end < 2 ^ 32 }
    requires open_between { stretch.now.low < stretch.now.high }
    ensures sparse { result ≡ true → IsSparse stretch.now }
    ensures room { result ≡ true → HasRoom stretch.now }
{
    even_step(stretch) >= SPARSE * parts(stretch)
}

/// A stretch around a place that has room for one more tuple. It grows until it is sparse enough for its length, at most to
/// the whole list. Spread, its parts are sparser than they have to be, and they fill up before this stretch is spread
/// again, so the work is shared by many inserts.
fn roomy_stretch(tuples: &Tuples, slots: &BlockedList<Slot>, at: usize) -> Stretch
    requires labelled { IsLabelled tuples.now.entries slots.now }
    requires within { at ≤ length slots.now }
    ensures is { IsStretch (in_order tuples.now.entries slots.now) result }
    ensures before { result.first ≤ at }
    ensures after { at ≤ result.end }
    ensures room { HasRoom result }
    ensures sparse { IsSparse result ⊎ ((result.first ≡ 0) × (result.end ≡ length slots.now)) }
{
    let len = slots.len();
    let mut reach = NEAR;
    while reach < len {
        let stretch = stretch_of(
            tuples,
            slots,
            at.saturating_sub(reach),
            (at + reach).min(len),
        );
        if is_sparse(&stretch) {
            return stretch;
        }
        reach *= 2;
    }
    stretch_of(tuples, slots, 0, len)
}

/// Gives the tuples from one place to another the labels `low + step`, `low + 2 step` and so on.
fn spread(
    tuples: &mut Tuples,
    slots: &BlockedList<Slot>,
    first: usize,
    end: usize,
    low: u64,
    step: u64,
)
    requires places { ArePlaces (length tuples.old.entries) slots.now }
    requires ordered { first ≤ end }
    requires within { end ≤ length slots.now }
    requires fits { low + step * (end - first) < 2 ^ 64 }
    ensures same_length { length tuples.new.entries ≡ length tuples.old.entries }
    ensures spread { IsSpread (in_order tuples.old.entries slots.now) (in_order tuples.new.entries slots.now) first end low step }
{
    let mut walk = Walk::over(slots);
    let mut label = low;
    for i in first..end {
        label += step;
        write_label(tuples, walk.get(i), label);
    }
}

/// Spreads the labels around a place evenly, and gives the one that is left free there.
fn spread_around(tuples: &mut Tuples, slots: &BlockedList<Slot>, at: usize) -> u64
    requires labelled { IsLabelled tuples.old.entries slots.now }
    requires within { at ≤ length slots.now }
    ensures labelled { IsLabelled tuples.new.entries slots.now }
    ensures same { items_of tuples.new.entries slots.now ≡ items_of tuples.old.entries slots.now }
    ensures sits { SitsAt (in_order tuples.new.entries slots.now) at result }
{
    let stretch = roomy_stretch(tuples, slots, at);
    let step = even_step(&stretch);
    let label = stretch.low + step * ((at - stretch.first) as u64 + 1);
    spread(tuples, slots, stretch.first, at, stretch.low, step);
    spread(tuples, slots, at, stretch.end, label, step);
    label
}

/// How far above the label before a place its new label stands, where there is a gap of this width.
fn step_into(gap: u64, at: usize, len: usize) -> u64
    requires { 2 ≤ gap }
    ensures some { 0 < result }
    ensures less { result < gap }
{
    let half = gap / 2;
    if 0 < len && at == len {
        return half.min(STEP);
    }
    if 0 < len && at == 0 {
        return gap - half.min(STEP);
    }
    half
}

/// A label for a new tuple at a place. Where there is none between its neighbours, the labels around are spread first, which
/// callers of the list don't see. It takes no memory.
pub fn make_label(tuples: &mut Tuples, slots: &BlockedList<Slot>, at: usize) -> u64
    requires labelled { IsLabelled tuples.old.entries slots.now }
    requires within { at ≤ length slots.now }
    ensures labelled { IsLabelled tuples.new.entries slots.now }
    ensures same { items_of tuples.new.entries slots.now ≡ items_of tuples.old.entries slots.now }
    ensures sits { SitsAt (in_order tuples.new.entries slots.now) at result }
{
    let around = stretch_of(tuples, slots, at, at);
    let gap = around.high - around.low;
    if gap < 2 {
        return spread_around(tuples, slots, at);
    }
    around.low + step_into(gap, at, slots.len())
}
