//! The faults of tasks, found the plain way, by comparing ids. It takes no memory, and long where edges are many: it is asked only
//! where a growth was refused.
ghost use Rattle.std.specs.Prelude.{◌≡◌, ◌<◌, ◌≤◌, ◌+◌, take, IfSome, Some, None, not, length, MatchOption};
ghost use Rattle.std.specs.List.{find, list_all, position};
ghost use Rattle.af_graph.specs.Rows.{places, is_among};
ghost use Rattle.af_graph.specs.Graph.{place_of, upstream_rows};
ghost use Rattle.af_graph.specs.Limits.{most_tasks};
ghost use Rattle.af_graph.specs.Order.{is_free, one_more};
ghost use Rattle.af_graph.specs.Definition.{at_place, fault_of, is_never_taken, is_repeated, names_nobody};
ghost use Rattle.af_graph.specs.Steps.{is_done, told, IsPlaced};

use crate::misfit::Misfit;
use crate::task_spec::TaskSpec;
use crate::wiring::{MOST_TASKS, first_bad_slots};
use af_names::TaskId;

/// The first misfit of the tasks in the order of the faults.
pub(crate) fn first_misfit(tasks: &[TaskSpec]) -> Option<Misfit>
    ensures { MatchOption result (fault_of tasks.now ≡ None)
        (λ misfit. (fault_of tasks.now ≡ Some (told tasks.now misfit)) × IsPlaced (length tasks.now) misfit) }
{
    if tasks.is_empty() {
        return Some(Misfit::NoTask);
    }
    if tasks.len() > MOST_TASKS {
        return Some(Misfit::TooMany);
    }
    if let Some(place) = first_repeated(tasks) {
        return Some(Misfit::Duplicate(place));
    }
    if let Some(place) = first_unknown(tasks) {
        return Some(Misfit::UnknownUpstream(place));
    }
    if let Some(place) = first_never_taken(tasks) {
        return Some(Misfit::Cycle(place));
    }
    let place = first_bad_slots(tasks)?;
    Some(Misfit::BadSlots(place))
}

/// The place of the task of an id.
pub(crate) fn place_of(tasks: &[TaskSpec], id: &TaskId) -> Option<usize>
    ensures { result ≡ place_of tasks.now id.now }
{
    tasks.iter().position(|task| task.task_id == *id)
}

/// Whether an earlier task has the id of the task at a place.
fn is_repeated(tasks: &[TaskSpec], place: usize) -> bool
    requires { place < length tasks.now }
    ensures { result ≡ is_repeated tasks.now place }
{
    place_of(&tasks[..place], &tasks[place].task_id).is_some()
}

/// The place of the first task whose id an earlier one has.
fn first_repeated(tasks: &[TaskSpec]) -> Option<usize>
    ensures { result ≡ find (is_repeated tasks.now) (places tasks.now) }
{
    for place in 0..tasks.len() {
        if is_repeated(tasks, place) {
            return Some(place);
        }
    }
    None
}

/// Whether a task names an upstream task that isn't there.
fn names_nobody(tasks: &[TaskSpec], task: &TaskSpec) -> bool
    ensures { result ≡ names_nobody tasks.now task.now }
{
    task.upstream
        .as_slice()
        .iter()
        .any(|id| place_of(tasks, id).is_none())
}

fn position_of_unknown(tasks: &[TaskSpec]) -> Option<usize>
    ensures { result ≡ position (names_nobody tasks.now) tasks.now }
{
    tasks.iter().position(|task| names_nobody(tasks, task))
}

/// The place of the first task that names an upstream task that isn't there.
fn first_unknown(tasks: &[TaskSpec]) -> Option<usize>
    ensures { result ≡ find (at_place tasks.now (names_nobody tasks.now)) (places tasks.now) }
{
    position_of_unknown(tasks)
}

/// Whether a place is among these.
fn is_among(taken: &[u16], place: usize) -> bool
    ensures { result ≡ is_among taken.now place }
{
    taken.iter().any(|other| *other as usize == place)
}

/// Whether the task of an id is taken, or no task has it.
fn is_done(tasks: &[TaskSpec], taken: &[u16], id: &TaskId) -> bool
    ensures { result ≡ is_done tasks.now taken.now id.now }
{
    match place_of(tasks, id) {
        Some(place) => is_among(taken, place),
        None => true,
    }
}

/// Whether all of these ids are those of tasks that are taken, or of none.
fn are_done(tasks: &[TaskSpec], taken: &[u16], ids: &[TaskId]) -> bool
    ensures { result ≡ list_all (is_done tasks.now taken.now) ids.now }
{
    ids.iter().all(|id| is_done(tasks, taken, id))
}

/// Whether the task at a place may be taken once these have been.
fn is_free(tasks: &[TaskSpec], taken: &[u16], place: usize) -> bool
    requires { place < length tasks.now }
    ensures { result ≡ is_free (upstream_rows tasks.now) taken.now place }
{
    !is_among(taken, place) && are_done(tasks, taken, tasks[place].upstream.as_slice())
}

/// The first place that may be taken once these have been.
fn next_free(tasks: &[TaskSpec], taken: &[u16]) -> Option<usize>
    ensures first { result ≡ find (is_free (upstream_rows tasks.now) taken.now) (places (upstream_rows tasks.now)) }
    ensures within { IfSome result (λ place. place < length tasks.now) }
{
    for place in 0..tasks.len() {
        if is_free(tasks, taken, place) {
            return Some(place);
        }
    }
    None
}

/// Takes one place more behind the first so many, the next that may be taken, if there is one. Answers how many are taken.
fn take_next(tasks: &[TaskSpec], taken: &mut [u16], count: usize) -> usize
    requires few { length tasks.now ≤ most_tasks }
    requires room { count < length taken.old }
    ensures order { take result taken.new ≡ one_more (upstream_rows tasks.now) (take count taken.old) }
    ensures more { result ≤ count + 1 }
    ensures long { length taken.new ≡ length taken.old }
{
    match next_free(tasks, &taken[..count]) {
        Some(place) => {
            taken[count] = place as u16;
            count + 1
        }
        None => count,
    }
}

/// The first place that isn't among these.
fn first_left(tasks: &[TaskSpec], taken: &[u16]) -> Option<usize>
    ensures { result ≡ find (λ place. not (is_among taken.now place)) (places tasks.now) }
{
    for place in 0..tasks.len() {
        if !is_among(taken, place) {
            return Some(place);
        }
    }
    None
}

/// The place of the first task that stands on a cycle or below one.
fn first_never_taken(tasks: &[TaskSpec]) -> Option<usize>
    requires { length tasks.now ≤ most_tasks }
    ensures { result ≡ find (is_never_taken tasks.now) (places tasks.now) }
{
    let mut taken = [0; MOST_TASKS];
    let mut count = 0;
    for _ in 0..tasks.len() {
        count = take_next(tasks, &mut taken, count);
    }
    first_left(tasks, &taken[..count])
}
