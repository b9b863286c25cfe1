ghost use Rattle.std.specs.Prelude.{◌≡◌, ◌<◌, ◌-◌, ◌==◌, ◌&&◌, ◌||◌, ℕ, Bool, [], ◌∷◌, length, slice_index, slice_set, vec_len, take, false, All, None, not, IfOk, OnOk};
ghost use Rattle.std.specs.List.{find, position, range_with_len};
ghost use Rattle.af_graph.specs.Rows.{row_at, is_among, turned};
ghost use Rattle.af_graph.specs.Order.{one_more, order_of};
ghost use Rattle.af_graph.specs.Steps.{KeepsPace, IsReleased, IsPair, is_ready};

use crate::links::Links;
use std::alloc::{AllocError, Global};
use std::collections::BTreeSet;

/// The places taken so far, and what decides the next one.
#[derive(Drop)]
pub(crate) struct Taking {
    /// At each place, how many places upstream of it are left.
    waiting: Vec<u16>,
    /// The places that may be taken.
    ready: BTreeSet<u16>,
    /// The places taken, in their order.
    order: Vec<u16>,
}

/// The order in which the places of a graph are taken.
pub(crate) fn take_all(
    alloc: Global,
    upstream: &Links,
    downstream: &Links,
) -> Result<Vec<u16>, AllocError>
    requires pair { IsPair upstream.now downstream.now }
    requires few { length upstream.now < 65_536 }
    ensures { IfOk result (λ order. order.items ≡ order_of upstream.now) }
{
    let mut taking = Taking::open(alloc, upstream)?;
    for _ in 0..upstream.len() {
        taking.take_next(upstream, downstream)?;
    }
    let Taking {
        waiting: _,
        ready: _,
        order,
    } = taking;
    Ok(order)
}

/// The first of so many places that isn't among these, if there is one.
pub(crate) fn first_left(
    alloc: Global,
    order: &[u16],
    count: usize,
) -> Result<Option<usize>, AllocError>
    requires { All (λ place. place < count) order.now }
    ensures { IfOk result (λ left. left ≡ find (λ place. not (is_among order.now place)) (range_with_len 0 count)) }
{
    let mut taken = vec![in alloc; false; count]?;
    for place in order {
        taken[*place as usize] = true;
    }
    Ok(first_false(taken.as_slice()))
}

/// The first place that isn't marked.
fn first_false(marks: &[bool]) -> Option<usize>
    ensures { result ≡ position not marks.now }
{
    marks.iter().position(|mark| !*mark)
}

impl Taking {
    /// Nothing is taken yet.
    fn open(alloc: Global, upstream: &Links) -> Result<Taking, AllocError>
        requires few { length upstream.now < 65_536 }
        requires arranged { upstream.now ≡ turned (turned upstream.now) }
        ensures pace { IfOk result (λ taking. KeepsPace upstream.now taking) }
        ensures order { IfOk result (λ taking. taking.order.items ≡ []) }
    {
        let mut taking = Taking {
            waiting: Vec::with_capacity(alloc, upstream.len())?,
            ready: BTreeSet::new(alloc),
            order: Vec::with_capacity(alloc, upstream.len())?,
        };
        for place in 0..upstream.len() {
            let waiting = upstream.row(place).len() as u16;
            taking.waiting.push(waiting)?;
            if waiting == 0 {
                taking.ready.insert(place as u16)?;
            }
        }
        Ok(taking)
    }

    /// Takes the earliest place that may be taken, if there is one.
    fn take_next(&mut self, upstream: &Links, downstream: &Links) -> Result<(), AllocError>
        requires pair { IsPair upstream.now downstream.now }
        requires pace { KeepsPace upstream.now self.old }
        ensures pace { OnOk result (KeepsPace upstream.now self.new) }
        ensures order { OnOk result (self.new.order.items ≡ one_more upstream.now self.old.order.items) }
    {
        let Some(place) = self.ready.pop_first() else {
            return Ok(());
        };
        self.order.push(place)?;
        self.release_each(downstream.row(place as usize))
    }

    /// One place fewer is left upstream of each of these.
    fn release_each(&mut self, row: &[u16]) -> Result<(), AllocError>
        requires within { All (λ place. place < vec_len self.old.waiting) row.now }
        requires waits { All (λ place. 0 < slice_index self.old.waiting.items place) row.now }
        requires once { (k : ℕ) → k < length row.now → is_among (take k row.now) (slice_index row.now k) ≡ false }
        ensures { OnOk result (IsReleased row.now self.old self.new) }
    {
        for place in row {
            self.release(*place)?;
        }
        Ok(())
    }

    /// One place fewer is left upstream of this one; it may be taken once none is.
    fn release(&mut self, place: u16) -> Result<(), AllocError>
        requires within { place < vec_len self.old.waiting }
        requires waits { 0 < slice_index self.old.waiting.items place }
        ensures { OnOk result (IsReleased (place ∷ []) self.old self.new) }
    {
        self.waiting[place as usize] -= 1;
        if self.waiting[place as usize] == 0 {
            self.ready.insert(place)?;
        }
        Ok(())
    }
}
