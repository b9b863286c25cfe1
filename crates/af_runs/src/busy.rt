ghost use Rattle.std.specs.Prelude.{◌≡◌, ◌+◌, ◌≤◌, ◌<◌, ◌∷◌, [], ◌++◌, ◌==◌, OnOk, filter, length, not, vec_capacity, if◌then◌else◌};
ghost use Rattle.std.specs.List.Sorted.{IsStrictlySortedBy};
ghost use Rattle.std.specs.Ordering.{nat_cmp};
ghost use Rattle.af_runs.specs.Busy.{with_number};

use std::alloc::AllocError;

/// Reserves memory for as many numbers as there are rows, and for that many more. `AllocError` only where a growth was refused.
pub(crate) fn reserve_all(
    numbers: &mut Vec<u64>,
    rows: usize,
    additional: usize,
) -> Result<(), AllocError>
    ensures ok { OnOk result (rows + additional ≤ vec_capacity numbers.new) }
    ensures numbers { numbers.new.items ≡ numbers.old.items }
    ensures capacity { vec_capacity numbers.old ≤ vec_capacity numbers.new }
{
    let others = rows.saturating_sub(numbers.len());
    let room = others.checked_add(additional).ok_or(AllocError)?;
    numbers.reserve(room)
}

/// Sees to it that a number is among others, which rise, or that it is not. Where it is to be there, there is room for it.
pub(crate) fn keep(numbers: &mut Vec<u64>, number: u64, among: bool)
    requires in_order { IsStrictlySortedBy nat_cmp numbers.old.items }
    requires room { length (with_number number among numbers.old.items) ≤ vec_capacity numbers.old }
    ensures numbers { numbers.new.items ≡ with_number number among numbers.old.items }
    ensures capacity { vec_capacity numbers.old ≤ vec_capacity numbers.new }
{
    match numbers.binary_search(&number) {
        Ok(place) => {
            if !among {
                let _number = numbers.remove(place);
            }
        }
        Err(place) => {
            if among {
                // There is room, so it succeeds.
                let _inserted = numbers.insert(place, number);
            }
        }
    }
}

/// Puts a number after others, or not. Where it is to be there, there is room for it.
pub(crate) fn put_last(numbers: &mut Vec<u64>, number: u64, among: bool)
    ensures numbers { length numbers.old.items < vec_capacity numbers.old → numbers.new.items ≡ numbers.old.items ++ (if among then number ∷ [] else []) }
    ensures capacity { vec_capacity numbers.old ≤ vec_capacity numbers.new }
{
    if among {
        // There is room, so it succeeds.
        let _pushed = numbers.push(number);
    }
}

/// Takes a number out of others.
pub(crate) fn take_out(numbers: &mut Vec<u64>, number: u64)
    ensures numbers { numbers.new.items ≡ filter (λ other. not (other == number)) numbers.old.items }
    ensures capacity { vec_capacity numbers.new ≡ vec_capacity numbers.old }
{
    numbers.retain(|other| *other != number);
}
