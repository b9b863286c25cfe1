ghost use Rattle.std.specs.Prelude.{◌≡◌, ◌+◌, map, MatchOption};
ghost use Rattle.af_runs.specs.Chains.{AreChains};
ghost use Rattle.af_runs.specs.Places.{IsMetAt, IsMetNowhere, StandsAt, StandsNowhere};
ghost use Rattle.af_runs.specs.Runs.{AreRuns};
ghost use Rattle.af_runs.specs.Wanted.{key_of};

use crate::chains::Chains;
use crate::run::Run;
use crate::wanted::Wanted;

/// Where the row of the run of this number stands, the last number being known. Where no run was taken out each number has its
/// row, which stands right before it; no row is read then.
pub(crate) fn place_of(rows: &[Run], last: u64, number: u64) -> Option<usize>
    requires { AreRuns rows.now (last + 1) }
    ensures { MatchOption result (StandsNowhere rows.now number) (StandsAt rows.now number) }
{
    if rows.len() as u64 != last {
        return search(rows, last, number);
    }
    if number == 0 || last < number {
        return None;
    }
    Some((number - 1) as usize)
}

/// Where the row of the run of this number stands, by a binary search. The row stands at most where it would if no number
/// before it had been taken out, and at least where it would if none after it had been: the search goes between the two.
fn search(rows: &[Run], last: u64, number: u64) -> Option<usize>
    requires { AreRuns rows.now (last + 1) }
    ensures { MatchOption result (StandsNowhere rows.now number) (StandsAt rows.now number) }
{
    let after = last.saturating_sub(number);
    let mut low = (rows.len() as u64).saturating_sub(after).saturating_sub(1) as usize;
    let mut high = number.min(rows.len() as u64) as usize;
    while low < high {
        let middle = low + (high - low) / 2;
        let found = rows[middle].number;
        if found == number {
            return Some(middle);
        }
        if found < number {
            low = middle + 1;
        } else {
            high = middle;
        }
    }
    None
}

/// Where the run that is wanted stands, by the chains of the rows. The row that is likely to be it is looked at first, so that as a
/// rule no number is read.
pub(crate) fn find_place(
    rows: &[Run],
    last: u64,
    chains: &Chains,
    wanted: &Wanted<'_>,
) -> Option<usize>
    requires runs { AreRuns rows.now (last + 1) }
    requires chains { AreChains (map (key_of wanted.now) rows.now) chains.now }
    ensures { MatchOption result (IsMetNowhere wanted.now rows.now) (IsMetAt wanted.now rows.now) }
{
    let code = wanted.code();
    match chains.likely(code) {
        None => None,
        Some(likely) if likely < rows.len() && wanted.is_met(&rows[likely]) => Some(likely),
        Some(_) => follow(rows, last, chains, wanted),
    }
}

/// Where the run that is wanted stands, from the last row of its code back along the chain.
fn follow(rows: &[Run], last: u64, chains: &Chains, wanted: &Wanted<'_>) -> Option<usize>
    requires runs { AreRuns rows.now (last + 1) }
    requires chains { AreChains (map (key_of wanted.now) rows.now) chains.now }
    ensures { MatchOption result (IsMetNowhere wanted.now rows.now) (IsMetAt wanted.now rows.now) }
{
    let mut number = chains.last(wanted.code());
    while number != 0 {
        let Some(place) = place_of(rows, last, number) else {
            return None;
        };
        if wanted.is_met(&rows[place]) {
            return Some(place);
        }
        number = chains.before(place);
    }
    None
}
