// Reading the access control of a DAG: an object of names of roles, with a value for each. Each reader takes what is told of a value of
// another kind, of a name that is none and of out of memory, so that bodies and configurations may read alike.
ghost use Rattle.std.specs.Prelude.{◌≡◌, ◌++◌, [], map, IfOk, OnOk};
ghost use Rattle.std.specs.BTreeMap.{insert_entry};
ghost use Rattle.std.specs.Cmp.Lexicographic.{slice_cmp};
ghost use Rattle.std.specs.Ordering.{nat_cmp};
ghost use Rattle.serde_json.specs.Data.{put};
ghost use Rattle.af_base.specs.JsonValue.{members_view, view};
ghost use Rattle.af_base.specs.Readings.{Makes, OrMemory, first_fault, seen, taking};
ghost use Rattle.af_ops.specs.AccessTexts.{access_in, entries_view, field_of, field_tested, fields_of, row_in, row_taken};

use crate::access_value::{read_part, test_value};
use af_base::Json;
use af_names::{NameError, RoleName};
use af_role::{AccessControl, AccessRow, DagPart};
use std::alloc::{AllocError, Global};
use std::cmp::Ordering;
use std::collections::BTreeMap;

/// So many members at most are put in order without a map.
const FEW: usize = 8;

/// Reads which roles are to have which actions on a DAG and on its runs: an object, each of whose members has the name of a role, and is a
/// list of texts, or an object with such lists for the DAG and for its runs. The roles stand in byte order of their names; of a name that
/// comes twice the last member counts. The first fault decides: `wrong` where the value is no object, and then where a member is neither;
/// `misnamed` where a name is no role's; `memory` only where a growth was refused.
pub fn read_access<E: Copy>(
    alloc: Global,
    value: &Json<'_>,
    wrong: E,
    misnamed: E,
    memory: E,
) -> Result<AccessControl, E>
    ensures { OrMemory memory (access_in wrong misnamed (view value.now)) result }
{
    let Some(members) = value.as_object() else {
        return Err(wrong);
    };
    let Ok(fields) = in_order(alloc, members) else {
        return Err(memory);
    };
    test_fields(fields.as_slice(), wrong)?;
    let rows = read_rows(alloc, fields.as_slice(), wrong, misnamed, memory)?;
    Ok(AccessControl::new(rows))
}

/// The members of an object, each once, in byte order of their names.
fn in_order<'v, 'a>(
    alloc: Global,
    members: &'v [(&'a str, Json<'a>)],
) -> Result<Vec<(&'a str, &'v Json<'a>)>, AllocError>
    ensures { IfOk result (λ fields. map field_of fields.items ≡ fields_of (members_view members.now)) }
{
    if members.len() <= FEW {
        few_in_order(alloc, members)
    } else {
        many_in_order(alloc, members)
    }
}

/// The same, where there are few: each is put at its place among those before it.
fn few_in_order<'v, 'a>(
    alloc: Global,
    members: &'v [(&'a str, Json<'a>)],
) -> Result<Vec<(&'a str, &'v Json<'a>)>, AllocError>
    ensures { IfOk result (λ fields. map field_of fields.items ≡ fields_of (members_view members.now)) }
{
    let mut fields = Vec::new(alloc);
    for member in members {
        fields = with_field(alloc, fields.as_slice(), member.0, &member.1)?;
    }
    Ok(fields)
}

/// Members in byte order of their names with one more, in the place of one of its name.
fn with_field<'v, 'a>(
    alloc: Global,
    fields: &[(&'a str, &'v Json<'a>)],
    name: &'a str,
    value: &'v Json<'a>,
) -> Result<Vec<(&'a str, &'v Json<'a>)>, AllocError>
    ensures { IfOk result (λ made. entries_view made.items ≡ put name.now (view value.now) (entries_view fields.now)) }
{
    let mut made = Vec::with_capacity(alloc, fields.len().saturating_add(1))?;
    put_field(fields, name, value, &mut made)?;
    Ok(made)
}

/// Puts members behind others, with one more at its place, or in the place of one of its name.
fn put_field<'v, 'a>(
    fields: &[(&'a str, &'v Json<'a>)],
    name: &'a str,
    value: &'v Json<'a>,
    into: &mut Vec<(&'a str, &'v Json<'a>)>,
) -> Result<(), AllocError>
    ensures { OnOk result (into.new.items ≡ into.old.items ++ insert_entry (λ x y. slice_cmp nat_cmp x.now y.now) fields.now name.entry value.entry) }
{
    let Some((first, others)) = fields.split_first() else {
        into.push((name, value))?;
        return Ok(());
    };
    match name.cmp(first.0) {
        Ordering::Less => {
            into.push((name, value))?;
            into.extend_from_slice(fields)?;
        }
        Ordering::Equal => {
            into.push((first.0, value))?;
            into.extend_from_slice(others)?;
        }
        Ordering::Greater => {
            into.push(*first)?;
            put_field(others, name, value, into)?;
        }
    }
    Ok(())
}

/// The same as `in_order`, where there are many.
fn many_in_order<'v, 'a>(
    alloc: Global,
    members: &'v [(&'a str, Json<'a>)],
) -> Result<Vec<(&'a str, &'v Json<'a>)>, AllocError>
    ensures { IfOk result (λ fields. map field_of fields.items ≡ fields_of (members_view members.now)) }
{
    let mut fields = BTreeMap::new(alloc);
    for member in members {
        add_field(&mut fields, member.0, &member.1)?;
    }
    listed(alloc, fields)
}

/// Puts a member at its name, in the place of one that stands there.
fn add_field<'v, 'a>(
    fields: &mut BTreeMap<&'a str, &'v Json<'a>>,
    name: &'a str,
    value: &'v Json<'a>,
) -> Result<(), AllocError>
    ensures { OnOk result (entries_view fields.new.entries ≡ put name.now (view value.now) (entries_view fields.old.entries)) }
{
    fields.insert(name, value)?;
    Ok(())
}

/// The entries of a map, in the order of their names.
fn listed<'v, 'a>(
    alloc: Global,
    fields: BTreeMap<&'a str, &'v Json<'a>>,
) -> Result<Vec<(&'a str, &'v Json<'a>)>, AllocError>
    ensures { IfOk result (λ listed. listed.items ≡ fields.entry.entries) }
{
    fields.into_iter().collect(alloc)
}

/// Whether each member is a list of texts, or an object of such lists.
fn test_fields<E: Copy>(fields: &[(&str, &Json<'_>)], wrong: E) -> Result<(), E>
    ensures { result ≡ first_fault (field_tested wrong) (map field_of fields.now) }
{
    for field in fields {
        test_field(field, wrong)?;
    }
    Ok(())
}

/// Whether a member is a list of texts, or an object of such lists.
fn test_field<E: Copy>(field: &(&str, &Json<'_>), wrong: E) -> Result<(), E>
    ensures { result ≡ field_tested wrong (field_of field.now) }
{
    test_value(field.1, wrong)
}

/// The rows of the members.
fn read_rows<E: Copy>(
    alloc: Global,
    fields: &[(&str, &Json<'_>)],
    wrong: E,
    misnamed: E,
    memory: E,
) -> Result<Vec<AccessRow>, E>
    ensures { OrMemory memory (taking (row_taken wrong misnamed) [] (map field_of fields.now)) (seen (λ rows. rows.items) result) }
{
    let Ok(mut rows) = Vec::with_capacity(alloc, fields.len()) else {
        return Err(memory);
    };
    for field in fields {
        add_row(alloc, &mut rows, field, wrong, misnamed, memory)?;
    }
    Ok(rows)
}

/// Puts the row of a member last.
fn add_row<E: Copy>(
    alloc: Global,
    rows: &mut Vec<AccessRow>,
    field: &(&str, &Json<'_>),
    wrong: E,
    misnamed: E,
    memory: E,
) -> Result<(), E>
    ensures { Makes memory (row_taken wrong misnamed rows.old.items (field_of field.now)) rows.new.items result }
{
    let row = read_row(alloc, field, wrong, misnamed, memory)?;
    match rows.push(row) {
        Ok(()) => Ok(()),
        Err(_) => Err(memory),
    }
}

/// The row of a member.
fn read_row<E: Copy>(
    alloc: Global,
    field: &(&str, &Json<'_>),
    wrong: E,
    misnamed: E,
    memory: E,
) -> Result<AccessRow, E>
    ensures { OrMemory memory (row_in wrong misnamed (field_of field.now)) result }
{
    let role = match RoleName::parse(alloc, field.0) {
        Ok(role) => role,
        Err(NameError::OutOfMemory) => return Err(memory),
        Err(_) => return Err(misnamed),
    };
    let actions = read_part(alloc, field.1, DagPart::Itself, wrong, memory)?;
    let runs = read_part(alloc, field.1, DagPart::Runs, wrong, memory)?;
    Ok(AccessRow {
        role,
        actions,
        runs,
    })
}
