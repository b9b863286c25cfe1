// The members of a row: one call each, in byte order of their names.
ghost use Rattle.std.specs.Prelude.{◌≡◌, ◌≤◌, ◌++◌, ◌∷◌, [], OnOk, IfOk, IsTrue, Some, true, false, map};
ghost use Rattle.std.specs.List.{list_all};
ghost use Rattle.json.specs.Run.{is_plain};
ghost use Rattle.serde_json.specs.Data.{null, array, boolean, number, unsigned, string};
ghost use Rattle.serde_json.specs.View.{items_of};
ghost use Rattle.serde_json.specs.Written.{compact_text, items_text};
ghost use Rattle.serde_json.specs.Find.{of_integer};
ghost use Rattle.af_ops.specs.Texts.{Adds, is_name};
ghost use Rattle.af_ops.specs.Fields.{instant_data};

use crate::instant_text::InstantText;
use crate::plain_bytes::is_plain_text;
use crate::text::Text;
use af_names::{DagId, Instant, Name, NameKind, RunId, TaskId};
use itoa::Buffer;
use json::Writer;
use std::alloc::{AllocError, Global};

impl Text {
    /// A text no byte of which wants an escape.
    #[inline(always)]
    pub fn plain(&mut self, later: bool, name: &str, value: &str) -> Result<(), AllocError>
        requires name { IsTrue (is_name name.now) }
        requires plain { list_all is_plain value.now ≡ true }
        ensures { OnOk result (Adds later self.old self.new ((name.now, string value.now) ∷ [])) }
    {
        self.plain_bytes(later, name, value.as_bytes())
    }

    /// A text of these bytes, none of which wants an escape.
    #[inline(always)]
    fn plain_bytes(&mut self, later: bool, name: &str, value: &[u8]) -> Result<(), AllocError>
        requires name { IsTrue (is_name name.now) }
        requires plain { list_all is_plain value.now ≡ true }
        ensures { OnOk result (Adds later self.old self.new ((name.now, string value.now) ∷ [])) }
    {
        self.reserve(value.len() + (name.len() + 16))?;
        self.push_text_member(later, name.as_bytes(), value);
        Ok(())
    }

    #[inline(always)]
    pub fn number(&mut self, later: bool, name: &str, value: u64) -> Result<(), AllocError>
        requires name { IsTrue (is_name name.now) }
        ensures { OnOk result (Adds later self.old self.new ((name.now, number (unsigned value)) ∷ [])) }
    {
        let mut buffer = Buffer::new();
        let digits = buffer.format(value);
        self.reserve(digits.len() + (name.len() + 16))?;
        self.push_member(later, name.as_bytes(), digits.as_bytes());
        Ok(())
    }

    pub fn wide(&mut self, later: bool, name: &str, value: u128) -> Result<(), AllocError>
        requires name { IsTrue (is_name name.now) }
        ensures { OnOk result (Adds later self.old self.new ((name.now, number (unsigned value)) ∷ [])) }
    {
        let mut buffer = Buffer::new();
        let digits = buffer.format(value);
        self.reserve(digits.len() + (name.len() + 16))?;
        self.push_member(later, name.as_bytes(), digits.as_bytes());
        Ok(())
    }

    pub fn integer(&mut self, later: bool, name: &str, value: i32) -> Result<(), AllocError>
        requires name { IsTrue (is_name name.now) }
        ensures { OnOk result (Adds later self.old self.new ((name.now, number (of_integer value)) ∷ [])) }
    {
        let mut buffer = Buffer::new();
        let digits = buffer.format(value);
        self.reserve(digits.len() + (name.len() + 16))?;
        self.push_member(later, name.as_bytes(), digits.as_bytes());
        Ok(())
    }

    #[inline(always)]
    pub fn truth(&mut self, later: bool, name: &str, value: bool) -> Result<(), AllocError>
        requires name { IsTrue (is_name name.now) }
        ensures { OnOk result (Adds later self.old self.new ((name.now, boolean value) ∷ [])) }
    {
        self.reserve(name.len() + 20)?;
        if value {
            self.push_member(later, name.as_bytes(), b"true");
        } else {
            self.push_member(later, name.as_bytes(), b"false");
        }
        Ok(())
    }

    #[inline(always)]
    pub fn null(&mut self, later: bool, name: &str) -> Result<(), AllocError>
        requires name { IsTrue (is_name name.now) }
        ensures { OnOk result (Adds later self.old self.new ((name.now, null) ∷ [])) }
    {
        self.reserve(name.len() + 20)?;
        self.push_member(later, name.as_bytes(), b"null");
        Ok(())
    }

    /// A text of any bytes.
    pub fn text(
        &mut self,
        alloc: Global,
        later: bool,
        name: &str,
        value: &str,
    ) -> Result<(), AllocError>
        requires name { IsTrue (is_name name.now) }
        ensures { OnOk result (Adds later self.old self.new ((name.now, string value.now) ∷ [])) }
    {
        if is_plain_text(value.as_bytes()) {
            return self.plain(later, name, value);
        }
        self.escaped(alloc, later, name, value)
    }

    #[cold]
    #[inline(never)]
    fn escaped(
        &mut self,
        alloc: Global,
        later: bool,
        name: &str,
        value: &str,
    ) -> Result<(), AllocError>
        requires name { IsTrue (is_name name.now) }
        ensures { OnOk result (Adds later self.old self.new ((name.now, string value.now) ∷ [])) }
    {
        let text = escaped_text(alloc, value)?;
        self.reserve(text.len() + (name.len() + 16))?;
        self.push_member(later, name.as_bytes(), text.as_slice());
        Ok(())
    }

    /// An instant, or null for none.
    #[inline]
    pub fn instant(
        &mut self,
        later: bool,
        name: &str,
        value: Option<Instant>,
    ) -> Result<(), AllocError>
        requires name { IsTrue (is_name name.now) }
        ensures { OnOk result (Adds later self.old self.new ((name.now, instant_data value) ∷ [])) }
    {
        match value {
            None => self.null(later, name),
            Some(instant) => {
                let text = self.text_of(instant);
                let told = self.plain_bytes(later, name, text.as_bytes());
                self.keep_at_hand(text);
                told
            }
        }
    }

    /// An instant, by the text at hand where that is its own.
    #[inline]
    pub(crate) fn instant_by(
        &mut self,
        later: bool,
        name: &str,
        value: Instant,
        at_hand: &InstantText,
    ) -> Result<(), AllocError>
        requires name { IsTrue (is_name name.now) }
        ensures { OnOk result (Adds later self.old self.new ((name.now, instant_data (Some value)) ∷ [])) }
    {
        if value == at_hand.instant() {
            return self.plain_bytes(later, name, at_hand.as_bytes());
        }
        self.instant(later, name, Some(value))
    }

    /// The id of a DAG.
    #[inline(always)]
    pub fn dag_id(&mut self, later: bool, name: &str, value: &DagId) -> Result<(), AllocError>
        requires name { IsTrue (is_name name.now) }
        ensures { OnOk result (Adds later self.old self.new ((name.now, string value.now) ∷ [])) }
    {
        self.plain(later, name, value.as_str())
    }

    /// The id of a task.
    #[inline(always)]
    pub fn task_id(&mut self, later: bool, name: &str, value: &TaskId) -> Result<(), AllocError>
        requires name { IsTrue (is_name name.now) }
        ensures { OnOk result (Adds later self.old self.new ((name.now, string value.now) ∷ [])) }
    {
        self.plain(later, name, value.as_str())
    }

    /// The id of a run.
    #[inline(always)]
    pub fn run_id(&mut self, later: bool, name: &str, value: &RunId) -> Result<(), AllocError>
        requires name { IsTrue (is_name name.now) }
        ensures { OnOk result (Adds later self.old self.new ((name.now, string value.now) ∷ [])) }
    {
        self.plain(later, name, value.as_str())
    }
}

impl Text {
    /// A list of names.
    pub fn names<K: NameKind>(
        &mut self,
        alloc: Global,
        later: bool,
        name: &str,
        values: &[&Name<K>],
    ) -> Result<(), AllocError>
        requires { IsTrue (is_name name.now) }
        ensures { OnOk result (Adds later self.old self.new ((name.now, array (items_of (map (λ value. string value.now) values.now))) ∷ [])) }
    {
        self.reserve(name.len() + 20)?;
        self.push_member(later, name.as_bytes(), b"[");
        put_names(alloc, self, values)?;
        self.reserve(8)?;
        Ok(())
    }
}

/// The names as the items of an array, and the end of that.
fn put_names<K: NameKind>(
    alloc: Global,
    out: &mut Text,
    values: &[&Name<K>],
) -> Result<(), AllocError>
    requires { 4 ≤ out.old.ready }
    ensures text { OnOk result (out.new.items ≡ out.old.items ++ items_text false (items_of (map (λ value. string value.now) values.now))) }
    ensures room { OnOk result (2 ≤ out.new.ready) }
{
    let mut later = false;
    for value in values {
        if later {
            out.push(b",");
        }
        put_text(alloc, out, value.as_str())?;
        later = true;
    }
    out.push(b"]");
    Ok(())
}

/// Appends a text of any bytes, in quotation marks.
fn put_text(alloc: Global, out: &mut Text, value: &str) -> Result<(), AllocError>
    ensures text { OnOk result (out.new.items ≡ out.old.items ++ compact_text (string value.now)) }
    ensures room { OnOk result (4 ≤ out.new.ready) }
{
    if is_plain_text(value.as_bytes()) {
        return put_plain(out, value);
    }
    let text = escaped_text(alloc, value)?;
    out.reserve(text.len() + 8)?;
    out.push(text.as_slice());
    Ok(())
}

/// Appends a text no byte of which wants an escape, in quotation marks.
pub(crate) fn put_plain(out: &mut Text, value: &str) -> Result<(), AllocError>
    requires { list_all is_plain value.now ≡ true }
    ensures text { OnOk result (out.new.items ≡ out.old.items ++ compact_text (string value.now)) }
    ensures room { OnOk result (4 ≤ out.new.ready) }
{
    out.reserve(value.len() + 8)?;
    out.push(b"\"");
    out.push(value.as_bytes());
    out.push(b"\"");
    Ok(())
}

/// A text as JSON spells it.
fn escaped_text(alloc: Global, value: &str) -> Result<Vec<u8>, AllocError>
    ensures { IfOk result (λ text. text.items ≡ compact_text (string value.now)) }
{
    let mut out = Writer::new(Vec::new(alloc));
    out.string(value)?;
    Ok(out.into_inner())
}
