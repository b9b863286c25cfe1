// Reading the members of a JSON object. A member that is null counts as absent. Each reader takes the fault that is told of a
// member that is absent though it has to be there, or of another kind.
ghost use Rattle.std.specs.Prelude.{◌≡◌, map, option_map};
ghost use Rattle.serde_json.specs.Find.{as_bool, as_str};
ghost use Rattle.af_base.specs.JsonValue.{view};
ghost use Rattle.af_base.specs.Members.{as_list, as_whole_object};
ghost use Rattle.af_base.specs.Readings.{member_of, optional, required, seen};

use super::Json;

/// The member of that name, the last of several, unless it is absent or null.
pub fn member<'v, 'a>(object: &'v Json<'a>, name: &str) -> Option<&'v Json<'a>>
    ensures { option_map (λ value. view value.now) result ≡ member_of name.now (view object.now) }
{
    let value = object.get(name)?;
    if value.is_null() { None } else { Some(value) }
}

/// The text of a member that has to be there.
pub fn required_text<'a, E: Copy>(object: &Json<'a>, name: &str, fault: E) -> Result<&'a str, E>
    ensures { seen (λ text. text.now) result ≡ required as_str fault (member_of name.now (view object.now)) }
{
    match member(object, name) {
        Some(value) => value.as_str().ok_or(fault),
        None => Err(fault),
    }
}

/// The text of a member, where it is there.
pub fn optional_text<'a, E: Copy>(
    object: &Json<'a>,
    name: &str,
    fault: E,
) -> Result<Option<&'a str>, E>
    ensures { seen (option_map (λ text. text.now)) result ≡ optional as_str fault (member_of name.now (view object.now)) }
{
    let Some(value) = member(object, name) else {
        return Ok(None);
    };
    match value.as_str() {
        Some(text) => Ok(Some(text)),
        None => Err(fault),
    }
}

/// The truth value of a member that has to be there.
pub fn required_truth<E: Copy>(object: &Json<'_>, name: &str, fault: E) -> Result<bool, E>
    ensures { result ≡ required as_bool fault (member_of name.now (view object.now)) }
{
    match member(object, name) {
        Some(value) => value.as_bool().ok_or(fault),
        None => Err(fault),
    }
}

/// The truth value of a member, where it is there.
pub fn optional_truth<E: Copy>(object: &Json<'_>, name: &str, fault: E) -> Result<Option<bool>, E>
    ensures { result ≡ optional as_bool fault (member_of name.now (view object.now)) }
{
    let Some(value) = member(object, name) else {
        return Ok(None);
    };
    match value.as_bool() {
        Some(truth) => Ok(Some(truth)),
        None => Err(fault),
    }
}

/// The object of a member that has to be there.
pub fn required_object<'v, 'a, E: Copy>(
    object: &'v Json<'a>,
    name: &str,
    fault: E,
) -> Result<&'v Json<'a>, E>
    ensures { seen (λ value. view value.now) result ≡ required as_whole_object fault (member_of name.now (view object.now)) }
{
    match member(object, name) {
        Some(value) if value.is_object() => Ok(value),
        _ => Err(fault),
    }
}

/// The values of the list of a member that has to be there.
pub fn required_list<'v, 'a, E: Copy>(
    object: &'v Json<'a>,
    name: &str,
    fault: E,
) -> Result<&'v [Json<'a>], E>
    ensures { seen (λ values. map view values.now) result ≡ required as_list fault (member_of name.now (view object.now)) }
{
    match member(object, name) {
        Some(value) => value.as_array().ok_or(fault),
        None => Err(fault),
    }
}

/// The values of the list of a member, where it is there.
pub fn optional_list<'v, 'a, E: Copy>(
    object: &'v Json<'a>,
    name: &str,
    fault: E,
) -> Result<Option<&'v [Json<'a>]>, E>
    ensures { seen (option_map (λ values. map view values.now)) result ≡ optional as_list fault (member_of name.now (view object.now)) }
{
    let Some(value) = member(object, name) else {
        return Ok(None);
    };
    match value.as_array() {
        Some(values) => Ok(Some(values)),
        None => Err(fault),
    }
}
