// The pieces of lines: roles, tasks, permissions, texts, and rows of access control.
ghost use Rattle.std.specs.Prelude.{◌≡◌, ◌++◌, ◌∷◌, OnOk};
ghost use Rattle.json.specs.Token.{key};
ghost use Rattle.json.specs.Tree.{json_tokens};
ghost use Rattle.serde_json.specs.Data.{string};
ghost use Rattle.serde_json.specs.Written.{outline};
ghost use Rattle.af_base.specs.JsonValue.{view};
ghost use Rattle.af_base.specs.Readings.{OrMemory, seen};
ghost use Rattle.af_store.specs.Members.{list_value, required_in, text_value};
ghost use Rattle.af_store.specs.ChangeLines.{texts_told};
ghost use Rattle.af_store.specs.ChangeReads.{text_object};

use crate::body_text::BodyText;
use crate::line_fault::LineFault;
use crate::members::{list, name, name_of, text, text_of, value};
use crate::piece::{Piece, put_list};
use crate::told::{put_name, put_named};
use af_base::Json;
use af_names::{RoleName, TaskId};
use af_role::{AccessRow, PairText, Text, Texts};
use std::alloc::{AllocError, Global};

impl Piece for RoleName {
    ghost use Rattle.af_store.specs.Bodies.{name_object};
    ghost use Rattle.af_store.specs.ChangeReads.{role_name};

    ghost told = { name_object };

    ghost read_as = { role_name };

    fn put(&self, out: &mut BodyText) -> Result<(), AllocError> {
        put_name(out, self.as_str())
    }

    fn read(alloc: Global, value: &Json<'_>) -> Result<RoleName, LineFault> {
        name(alloc, value, "name")
    }
}

impl Piece for TaskId {
    ghost use Rattle.serde_json.specs.Data.{string};
    ghost use Rattle.af_names.specs.Names.{id_grammar};
    ghost use Rattle.af_store.specs.Members.{name_value};

    ghost told = { string };

    ghost read_as = { name_value id_grammar };

    fn put(&self, out: &mut BodyText) -> Result<(), AllocError> {
        out.text(self.as_str())
    }

    fn read(alloc: Global, value: &Json<'_>) -> Result<TaskId, LineFault> {
        name_of(alloc, value)
    }
}

impl Piece for Text {
    ghost use Rattle.serde_json.specs.Data.{string};
    ghost use Rattle.af_store.specs.Members.{text_value};

    ghost told = { string };

    ghost read_as = { text_value };

    fn put(&self, out: &mut BodyText) -> Result<(), AllocError> {
        out.text(self.as_str())
    }

    fn read(alloc: Global, value: &Json<'_>) -> Result<Text, LineFault> {
        let text = text_of(value)?;
        let text = String::from_str(alloc, text)?;
        Ok(Text::new(text))
    }
}

impl Piece for PairText {
    ghost use Rattle.af_store.specs.ChangeLines.{pair_told};
    ghost use Rattle.af_store.specs.ChangeReads.{pair_read};

    ghost told = { pair_told };

    ghost read_as = { pair_read };

    fn put(&self, out: &mut BodyText) -> Result<(), AllocError> {
        out.begin_object()?;
        put_named(out, "action", self.action.as_str())?;
        put_named(out, "resource", self.resource.as_str())?;
        out.end_object()?;
        Ok(())
    }

    fn read(alloc: Global, value: &Json<'_>) -> Result<PairText, LineFault> {
        let action = text_object(value, "action")?;
        let resource = text_object(value, "resource")?;
        let action = String::from_str(alloc, action)?;
        let resource = String::from_str(alloc, resource)?;
        Ok(PairText {
            action: Text::new(action),
            resource: Text::new(resource),
        })
    }
}

impl Piece for AccessRow {
    ghost use Rattle.af_store.specs.ChangeLines.{access_told};
    ghost use Rattle.af_store.specs.ChangeReads.{access_read};

    ghost told = { access_told };

    ghost read_as = { access_read };

    fn put(&self, out: &mut BodyText) -> Result<(), AllocError> {
        out.begin_object()?;
        put_texts(out, "DAG Runs", self.runs.as_slice())?;
        put_texts(out, "DAGs", self.actions.as_slice())?;
        put_text(out, "role", self.role.as_str())?;
        out.end_object()?;
        Ok(())
    }

    fn read(alloc: Global, value: &Json<'_>) -> Result<AccessRow, LineFault> {
        let role = name(alloc, value, "role")?;
        let actions = texts(alloc, value, "DAGs")?;
        let runs = texts(alloc, value, "DAG Runs")?;
        Ok(AccessRow {
            role,
            actions,
            runs,
        })
    }
}

/// The text of the name of a member, as in `{"name":..}`.
fn text_object<'a>(row: &Json<'a>, name: &str) -> Result<&'a str, LineFault>
    ensures { seen (λ text. text.now) result ≡ required_in text_object name.now (view row.now) }
{
    let object = value(row, name)?;
    text(object, "name")
}

/// The texts of a member that has to be there.
fn texts(alloc: Global, row: &Json<'_>, name: &str) -> Result<Texts, LineFault>
    ensures { OrMemory LineFault.OutOfMemory (required_in (list_value text_value) name.now (view row.now)) result }
{
    let texts = list(alloc, row, name)?;
    Ok(Texts::of(texts))
}

/// A member that is a list of texts.
fn put_texts(out: &mut BodyText, name: &str, texts: &[Text]) -> Result<(), AllocError>
    ensures { OnOk result (out.new ≡ out.old ++ key name.now ∷ json_tokens (outline (texts_told texts.now))) }
{
    out.key(name)?;
    put_list(out, texts)
}

/// A member that is a text.
fn put_text(out: &mut BodyText, name: &str, text: &str) -> Result<(), AllocError>
    ensures { OnOk result (out.new ≡ out.old ++ key name.now ∷ json_tokens (outline (string text.now))) }
{
    out.key(name)?;
    out.text(text)
}
