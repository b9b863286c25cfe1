// The value that a role has in the access control of a DAG: a list of the actions on the DAG, or an object with such lists for the DAG and
// for its runs. `wrong` is told of any other value.
ghost use Rattle.std.specs.Prelude.{◌≡◌, [], map, option_map};
ghost use Rattle.std.specs.List.{list_all};
ghost use Rattle.serde_json.specs.Data.{Data};
ghost use Rattle.af_base.specs.JsonValue.{members_view, view};
ghost use Rattle.af_base.specs.Readings.{Makes, OrMemory, first_fault, seen, taking};
ghost use Rattle.af_role.specs.declared.dag_part.DagPart.TheVariants.{Itself, Runs};
ghost use Rattle.af_ops.specs.AccessTexts.{are_parts, is_part_name, is_text, list_for, member_tested, member_texts, part_in, part_name, text_taken, texts_in, texts_tested, value_tested};

use af_base::{Json, member};
use af_role::{DagPart, Text, Texts};
use std::alloc::Global;

/// Whether a value is a list of texts, or an object of such lists.
pub(crate) fn test_value<E: Copy>(value: &Json<'_>, wrong: E) -> Result<(), E>
    ensures { result ≡ value_tested wrong (view value.now) }
{
    if let Some(items) = value.as_array() {
        return test_items(items, wrong);
    }
    let Some(members) = value.as_object() else {
        return Err(wrong);
    };
    if !are_parts(members) {
        return Err(wrong);
    }
    test_member(member(value, part_name(DagPart::Itself)), wrong)?;
    test_member(member(value, part_name(DagPart::Runs)), wrong)
}

/// Whether the members of an object have no other names than those of the two lists.
fn are_parts(members: &[(&str, Json<'_>)]) -> bool
    ensures { result ≡ are_parts (members_view members.now) }
{
    all_parts(members)
}

fn all_parts(members: &[(&str, Json<'_>)]) -> bool
    ensures { result ≡ list_all (λ field. is_part_name field.0.now) members.now }
{
    members.iter().all(|field| is_part_name(field.0))
}

fn is_part_name(name: &str) -> bool
    ensures { result ≡ is_part_name name.now }
{
    part_name(DagPart::Itself) == name || part_name(DagPart::Runs) == name
}

/// The name of the member that lists the actions on the DAG itself, or on its runs.
fn part_name(part: DagPart) -> &'static str
    ensures { result.now ≡ part_name part }
{
    match part {
        DagPart::Itself => "DAGs",
        DagPart::Runs => "DAG Runs",
    }
}

/// Whether a member, if it is there, is a list of texts.
fn test_member<E: Copy>(found: Option<&Json<'_>>, wrong: E) -> Result<(), E>
    ensures { result ≡ member_tested wrong (option_map (λ value. view value.now) found.entry) }
{
    match found {
        Some(value) => test_texts(value, wrong),
        None => Ok(()),
    }
}

/// Whether a value is a list of texts.
fn test_texts<E: Copy>(value: &Json<'_>, wrong: E) -> Result<(), E>
    ensures { result ≡ texts_tested wrong (view value.now) }
{
    match value.as_array() {
        Some(items) => test_items(items, wrong),
        None => Err(wrong),
    }
}

fn test_items<E: Copy>(items: &[Json<'_>], wrong: E) -> Result<(), E>
    ensures { result ≡ first_fault (is_text wrong) (map view items.now) }
{
    for item in items {
        if item.as_str().is_none() {
            return Err(wrong);
        }
    }
    Ok(())
}

/// The texts that a value lists for the DAG itself, or for its runs.
pub(crate) fn read_part<E: Copy>(
    alloc: Global,
    value: &Json<'_>,
    part: DagPart,
    wrong: E,
    memory: E,
) -> Result<Texts, E>
    ensures { OrMemory memory (part_in wrong part (view value.now)) result }
{
    if value.as_array().is_some() {
        read_list(alloc, value, part, wrong, memory)
    } else {
        read_member(alloc, member(value, part_name(part)), wrong, memory)
    }
}

/// The texts of a list, all of which are for the DAG itself.
fn read_list<E: Copy>(
    alloc: Global,
    value: &Json<'_>,
    part: DagPart,
    wrong: E,
    memory: E,
) -> Result<Texts, E>
    ensures { OrMemory memory (list_for wrong part (view value.now)) result }
{
    match part {
        DagPart::Itself => read_texts(alloc, value, wrong, memory),
        DagPart::Runs => Ok(no_texts(alloc)),
    }
}

/// The texts of a member, none if it is not there.
fn read_member<E: Copy>(
    alloc: Global,
    found: Option<&Json<'_>>,
    wrong: E,
    memory: E,
) -> Result<Texts, E>
    ensures { OrMemory memory (member_texts wrong (option_map (λ value. view value.now) found.entry)) result }
{
    match found {
        Some(value) => read_texts(alloc, value, wrong, memory),
        None => Ok(no_texts(alloc)),
    }
}

fn no_texts(alloc: Global) -> Texts
    ensures { result ≡ [] }
{
    Texts::of(Vec::new(alloc))
}

/// A list of texts.
fn read_texts<E: Copy>(alloc: Global, value: &Json<'_>, wrong: E, memory: E) -> Result<Texts, E>
    ensures { OrMemory memory (texts_in wrong (view value.now)) result }
{
    let Some(items) = value.as_array() else {
        return Err(wrong);
    };
    let texts = read_items(alloc, items, wrong, memory)?;
    Ok(Texts::of(texts))
}

fn read_items<E: Copy>(
    alloc: Global,
    items: &[Json<'_>],
    wrong: E,
    memory: E,
) -> Result<Vec<Text>, E>
    ensures { OrMemory memory (taking (text_taken wrong) [] (map view items.now)) (seen (λ texts. texts.items) result) }
{
    let Ok(mut texts) = Vec::with_capacity(alloc, items.len()) else {
        return Err(memory);
    };
    for item in items {
        add_text(alloc, &mut texts, item, wrong, memory)?;
    }
    Ok(texts)
}

fn add_text<E: Copy>(
    alloc: Global,
    texts: &mut Vec<Text>,
    item: &Json<'_>,
    wrong: E,
    memory: E,
) -> Result<(), E>
    ensures { Makes memory (text_taken wrong texts.old.items (view item.now)) texts.new.items result }
{
    let Some(text) = item.as_str() else {
        return Err(wrong);
    };
    let Ok(text) = String::from_str(alloc, text) else {
        return Err(memory);
    };
    match texts.push(Text::new(text)) {
        Ok(()) => Ok(()),
        Err(_) => Err(memory),
    }
}
