ghost use Rattle.std.specs.Prelude.{◌≡◌, ◌≤◌, ◌⊎◌, Some, None, true, false, length, is_none, IfOk, IfErr, OnOk, MatchOption, ⊤};
ghost use Rattle.std.specs.Option.{option_map};
ghost use Rattle.std.specs.List.{find, list_any, filter_map};
ghost use Rattle.af_graph.specs.declared.dag_fault.DagFault.TheVariants as fault;
ghost use Rattle.af_graph.specs.Rows.{places};
ghost use Rattle.af_graph.specs.Graph.{named_rows};
ghost use Rattle.af_graph.specs.Definition.{is_repeated, at_place, names_nobody};
ghost use Rattle.af_graph.specs.Steps.{place_in, IsIndexOf};

use crate::links::Links;
use crate::misfit::Misfit;
use crate::task_spec::TaskSpec;
use af_names::TaskId;
use std::alloc::{AllocError, Global};
use std::collections::BTreeMap;

/// The places of tasks by their ids.
#[derive(Drop)]
pub(crate) struct Index<'a> {
    places: BTreeMap<&'a str, u16>,
}

impl<'a> Index<'a> {
    /// Enters the tasks. `Duplicate` names the first whose id an earlier one has.
    pub(crate) fn of(alloc: Global, tasks: &'a [TaskSpec]) -> Result<Index<'a>, Misfit>
        requires { length tasks.now ≤ 65_536 }
        ensures index { IfOk result (λ index. IsIndexOf index tasks.now) }
        ensures ok { OnOk result (find (is_repeated tasks.now) (places tasks.now) ≡ None) }
        ensures err { IfErr result (λ misfit. (misfit ≡ fault.OutOfMemory) ⊎ (option_map fault.Duplicate (find (is_repeated tasks.now) (places tasks.now)) ≡ Some misfit)) }
    {
        let mut index = Index {
            places: BTreeMap::new(alloc),
        };
        for (place, task) in tasks.iter().enumerate() {
            let old = index.places.insert(task.task_id.as_str(), place as u16)?;
            if old.is_some() {
                return Err(Misfit::Duplicate(place));
            }
        }
        Ok(index)
    }

    /// The place of the task of an id, or none where no task has it.
    pub(crate) fn find(&self, id: &TaskId) -> Option<u16>
        ensures { result ≡ place_in self.now id.now }
    {
        self.places.get(id.as_str()).copied()
    }

    /// The places of these ids, or none where one is no task's.
    fn places_of(&self, alloc: Global, ids: &[TaskId]) -> Result<Option<Vec<u16>>, AllocError>
        ensures none { IfOk result (λ row. list_any (λ id. is_none (place_in self.now id)) ids.now ≡ is_none row) }
        ensures some { IfOk result (λ row. MatchOption row ⊤ (λ row. row.items ≡ filter_map (place_in self.now) ids.now)) }
    {
        let mut row = Vec::with_capacity(alloc, ids.len())?;
        for id in ids {
            let Some(place) = self.find(id) else {
                return Ok(None);
            };
            row.push(place)?;
        }
        Ok(Some(row))
    }

    /// At each place the places that the task names as upstream. `UnknownUpstream` names the first
    /// task that names one that isn't there.
    pub(crate) fn named(&self, alloc: Global, tasks: &[TaskSpec]) -> Result<Links, Misfit>
        requires { IsIndexOf self.now tasks.now }
        ensures named { IfOk result (λ links. links ≡ named_rows tasks.now) }
        ensures ok { OnOk result (find (at_place tasks.now (names_nobody tasks.now)) (places tasks.now) ≡ None) }
        ensures err { IfErr result (λ misfit. (misfit ≡ fault.OutOfMemory) ⊎ (option_map fault.UnknownUpstream (find (at_place tasks.now (names_nobody tasks.now)) (places tasks.now)) ≡ Some misfit)) }
    {
        let mut rows = Vec::with_capacity(alloc, tasks.len())?;
        for (place, task) in tasks.iter().enumerate() {
            let Some(row) = self.places_of(alloc, task.upstream.as_slice())? else {
                return Err(Misfit::UnknownUpstream(place));
            };
            rows.push(row)?;
        }
        Ok(Links::of(rows))
    }
}
