// JSON values over the text that they were read from: a text without escapes is borrowed, and a list or an object is one vector.
ghost use Rattle.std.specs.Prelude.{◌≡◌, is_some, map, option_map, option_and_then};
ghost use Rattle.serde_json.specs.Find.{as_array, as_bool, as_i64, as_null, as_number, as_object, as_str, as_u64, get, get_member};
ghost use Rattle.serde_json.specs.View.{items_of};
ghost use Rattle.af_base.specs.JsonValue.{members_view, number_view, view};
ghost use Rattle.af_base.specs.Members.{as_list};

mod members;
mod number;
mod reading;

pub use members::{
    member, optional_list, optional_text, optional_truth, required_list, required_object,
    required_text, required_truth,
};
pub use number::Numeric;
pub use reading::json_in;

/// A JSON value whose texts are borrowed. An object has its members in the order of the text; of a name that comes twice the
/// last member is the one that counts.
#[derive(Drop)]
pub enum Json<'a> {
    Null,
    Bool(bool),
    Number(Numeric),
    String(&'a str),
    Array(Vec<Json<'a>>),
    Object(Vec<(&'a str, Json<'a>)>),
}

impl<'a> Json<'a> {
    /// Whether the value is null.
    pub fn is_null(&self) -> bool
        ensures { result ≡ is_some (as_null (view self.now)) }
    {
        matches!(self, Json::Null)
    }

    /// The truth value that this is.
    pub fn as_bool(&self) -> Option<bool>
        ensures { result ≡ as_bool (view self.now) }
    {
        if let Json::Bool(truth) = self {
            Some(*truth)
        } else {
            None
        }
    }

    /// The text that this is.
    pub fn as_str(&self) -> Option<&'a str>
        ensures { option_map (λ text. text.now) result ≡ as_str (view self.now) }
    {
        if let Json::String(text) = self {
            Some(*text)
        } else {
            None
        }
    }

    /// The number that this is.
    pub fn as_number(&self) -> Option<Numeric>
        ensures { option_map number_view result ≡ as_number (view self.now) }
    {
        if let Json::Number(number) = self {
            Some(*number)
        } else {
            None
        }
    }

    /// The integer of 64 bits that this is, where it is none below zero.
    pub fn as_u64(&self) -> Option<u64>
        ensures { result ≡ option_and_then as_u64 (as_number (view self.now)) }
    {
        match self.as_number() {
            Some(number) => number.as_u64(),
            None => None,
        }
    }

    /// The integer of 64 bits with a sign that this is.
    pub fn as_i64(&self) -> Option<i64>
        ensures { result ≡ option_and_then as_i64 (as_number (view self.now)) }
    {
        match self.as_number() {
            Some(number) => number.as_i64(),
            None => None,
        }
    }

    /// Whether this is an integer of 64 bits that is not below zero.
    pub fn is_u64(&self) -> bool
        ensures { result ≡ is_some (option_and_then as_u64 (as_number (view self.now))) }
    {
        self.as_u64().is_some()
    }

    /// Whether this is an integer of 64 bits with a sign.
    pub fn is_i64(&self) -> bool
        ensures { result ≡ is_some (option_and_then as_i64 (as_number (view self.now))) }
    {
        self.as_i64().is_some()
    }

    /// The values of the list that this is.
    pub fn as_array(&self) -> Option<&[Json<'a>]>
        ensures { option_map (λ values. map view values.now) result ≡ as_list (view self.now) }
    {
        match self.as_vec() {
            Some(values) => Some(values.as_slice()),
            None => None,
        }
    }

    fn as_vec(&self) -> Option<&Vec<Json<'a>>>
        ensures { option_map (λ values. items_of (map view values.now.items)) result ≡ as_array (view self.now) }
    {
        if let Json::Array(values) = self {
            Some(values)
        } else {
            None
        }
    }

    /// The members of the object that this is, as the text has them.
    pub fn as_object(&self) -> Option<&[(&'a str, Json<'a>)]>
        ensures { option_map (λ members. members_view members.now) result ≡ as_object (view self.now) }
    {
        if let Json::Object(members) = self {
            Some(members.as_slice())
        } else {
            None
        }
    }

    /// Whether this is an object.
    pub fn is_object(&self) -> bool
        ensures { result ≡ is_some (as_object (view self.now)) }
    {
        self.as_object().is_some()
    }

    /// The member of that name of the object that this is, the last of several.
    pub fn get(&self, name: &str) -> Option<&Json<'a>>
        ensures { option_map (λ value. view value.now) result ≡ get name.now (view self.now) }
    {
        if let Json::Object(members) = self {
            last_of(members, name)
        } else {
            None
        }
    }
}

/// The last member of that name.
fn last_of<'v, 'a>(members: &'v Vec<(&'a str, Json<'a>)>, name: &str) -> Option<&'v Json<'a>>
    ensures { option_map (λ value. view value.now) result ≡ get_member name.now (members_view members.now.items) }
{
    let mut left = members.len();
    while left > 0 {
        left -= 1;
        let member = &members[left];
        if member.0 == name {
            return Some(&member.1);
        }
    }
    None
}
