use super::asserts::holds;
use af_base::{
    Json, json_in, member, optional_list, optional_text, optional_truth, required_list,
    required_object, required_text, required_truth,
};
use json::Scratch;
use std::process::Abort;
use std::test::Fail;

const OBJECT: &str =
    "{\"a\":1,\"b\":\"x\",\"a\":[true,{}],\"c\":2,\"c\":null,\"d\":{\"b\":false},\"\\u0065\":true}";

fn is_an_object(rt: &impl Abort, value: &Json<'_>) {
    holds(rt, value.is_object() && !value.is_null(), "an object");
    holds(
        rt,
        value.as_array().is_none() && value.as_bool().is_none(),
        "and nothing else",
    );
    holds(
        rt,
        matches!(value.as_object(), Some(members) if members.len() == 7),
        "as the text has them",
    );
}

fn has_members(rt: &impl Abort, value: &Json<'_>) {
    holds(
        rt,
        matches!(member(value, "b"), Some(Json::String("x"))),
        "a text",
    );
    holds(
        rt,
        matches!(member(value, "c"), None),
        "null, where it comes last, counts as absent",
    );
    holds(
        rt,
        value.get("c").is_some() && value.get("f").is_none(),
        "though it is there",
    );
}

fn has_lists(rt: &impl Abort, value: &Json<'_>) {
    holds(
        rt,
        matches!(
            required_list(value, "a", 1),
            Ok([Json::Bool(true), Json::Object(_)])
        ),
        "the last of two",
    );
    holds(
        rt,
        matches!(optional_list(value, "a", 1), Ok(Some([_, _]))),
        "the last of two again",
    );
}

fn has_texts(rt: &impl Abort, value: &Json<'_>) {
    holds(
        rt,
        required_text(value, "b", 1) == Ok("x") && required_text(value, "a", 1) == Err(1),
        "of its kind",
    );
    holds(
        rt,
        optional_text(value, "b", 1) == Ok(Some("x")) && optional_text(value, "c", 1) == Ok(None),
        "or absent",
    );
}

fn has_truths(rt: &impl Abort, value: &Json<'_>) {
    holds(
        rt,
        required_truth(value, "e", 1) == Ok(true) && required_truth(value, "f", 1) == Err(1),
        "a name with an escape",
    );
    holds(
        rt,
        optional_truth(value, "f", 1) == Ok(None) && optional_truth(value, "b", 1) == Err(1),
        "no truth value",
    );
}

fn has_objects(rt: &impl Abort, value: &Json<'_>) {
    holds(
        rt,
        matches!(required_object(value, "d", 1), Ok(it) if required_truth(it, "b", 1) == Ok(false)),
        "one in another",
    );
    holds(
        rt,
        matches!(required_object(value, "a", 1), Err(1)),
        "a list is none",
    );
}

#[test]
fn members_of_an_object(rt: HostRuntime) -> Result<(), Fail> {
    let mut scratch = Scratch::new(rt.alloc());
    let Some(value) = json_in(rt.alloc(), OBJECT.as_bytes(), &mut scratch)? else {
        return Err(Fail::from("the object is refused"));
    };
    is_an_object(&rt, &value);
    has_members(&rt, &value);
    has_lists(&rt, &value);
    has_texts(&rt, &value);
    has_truths(&rt, &value);
    has_objects(&rt, &value);
    Ok(())
}
