ghost use Rattle.std.specs.Prelude.{◌≡◌, ◌≤◌, ◌++◌, IfOk, OnOk, IsTrue, map, List, false, ◌∷◌, []};
ghost use Rattle.serde_json.specs.Data.{array};
ghost use Rattle.serde_json.specs.View.{items_of};
ghost use Rattle.serde_json.specs.Written.{compact_text, items_text};
ghost use Rattle.af_ops.specs.Fields.{Field, late_listing_of, list_of, object_of, listing_of};
ghost use Rattle.af_ops.specs.Texts.{Adds, is_name};

use crate::text::Text;
use std::alloc::{AllocError, Global};

/// Bytes set aside for a row, as many as most rows have; a longer text grows.
const ROW_ROOM: usize = 384;

/// A row that is told as an object.
pub trait Row {
    /// Its members, in byte order of their names.
    ghost fields: { Self → List Field };

    /// Appends its members.
    fn put_fields(&self, alloc: Global, out: &mut Text) -> Result<(), AllocError>
        ensures { OnOk result (Adds false out.old out.new (fields self.now)) };
}

impl<R: Row> Row for &R {
    ghost fields = { λ row. R.fields row.now };

    fn put_fields(&self, alloc: Global, out: &mut Text) -> Result<(), AllocError> {
        (**self).put_fields(alloc, out)
    }
}

/// The text of a row. `AllocError` only where a growth was refused.
pub fn row_text<R: Row>(alloc: Global, row: &R) -> Result<Vec<u8>, AllocError>
    ensures { IfOk result (λ text. text.items ≡ compact_text (object_of (R.fields row.now))) }
{
    row_text_within(alloc, row, ROW_ROOM)
}

/// The same, where so many bytes are set aside; a longer text grows.
pub(crate) fn row_text_within<R: Row>(
    alloc: Global,
    row: &R,
    room: usize,
) -> Result<Vec<u8>, AllocError>
    ensures { IfOk result (λ text. text.items ≡ compact_text (object_of (R.fields row.now))) }
{
    let mut out = Text::with_memory(alloc, room)?;
    put_row(alloc, &mut out, row)?;
    Ok(out.into_bytes())
}

/// Appends a row, where there is room for what stands around it.
#[inline(always)]
fn put_row<R: Row>(alloc: Global, out: &mut Text, row: &R) -> Result<(), AllocError>
    requires { 2 ≤ out.old.ready }
    ensures text { OnOk result (out.new.items ≡ out.old.items ++ compact_text (object_of (R.fields row.now))) }
    ensures room { OnOk result (4 ≤ out.new.ready) }
{
    out.push(b"{");
    row.put_fields(alloc, out)?;
    out.push(b"}");
    Ok(())
}

/// The text of a listing: these rows under their name, and how many rows there are in all. `AllocError` only where a growth
/// was refused.
pub fn listing_text<R: Row>(
    alloc: Global,
    name: &str,
    rows: &[&R],
    total: usize,
) -> Result<Vec<u8>, AllocError>
    requires { IsTrue (is_name name.now) }
    ensures { IfOk result (λ text. text.items ≡ compact_text (listing_of name.now (map (λ row. object_of (R.fields row.now)) rows.now) total)) }
{
    rows_text(alloc, name, rows, total)
}

/// The same of rows that stand one beside the other.
pub(crate) fn rows_text<R: Row>(
    alloc: Global,
    name: &str,
    rows: &[R],
    total: usize,
) -> Result<Vec<u8>, AllocError>
    requires { IsTrue (is_name name.now) }
    ensures { IfOk result (λ text. text.items ≡ compact_text (listing_of name.now (map (λ row. object_of (R.fields row)) rows.now) total)) }
{
    let mut out = Text::with_memory(alloc, ROW_ROOM * (1 + rows.len().min(100)))?;
    out.push(b"{");
    out.each_row(alloc, false, name, rows)?;
    out.number(true, "total_entries", total as u64)?;
    out.push(b"}");
    Ok(out.into_bytes())
}

/// The text of a listing whose rows' name stands after `total_entries` in byte order. `AllocError` only where a growth was refused.
pub fn late_listing_text<R: Row>(
    alloc: Global,
    name: &str,
    rows: &[&R],
    total: usize,
) -> Result<Vec<u8>, AllocError>
    requires { IsTrue (is_name name.now) }
    ensures { IfOk result (λ text. text.items ≡ compact_text (late_listing_of name.now (map (λ row. object_of (R.fields row.now)) rows.now) total)) }
{
    let mut out = Text::with_memory(alloc, ROW_ROOM * (1 + rows.len().min(100)))?;
    out.push(b"{");
    out.number(false, "total_entries", total as u64)?;
    out.rows(alloc, true, name, rows)?;
    out.push(b"}");
    Ok(out.into_bytes())
}

/// The text of a list that is told whole: these rows under their name. `AllocError` only where a growth was refused.
pub fn list_text<R: Row>(alloc: Global, name: &str, rows: &[&R]) -> Result<Vec<u8>, AllocError>
    requires { IsTrue (is_name name.now) }
    ensures { IfOk result (λ text. text.items ≡ compact_text (list_of name.now (map (λ row. object_of (R.fields row.now)) rows.now))) }
{
    let mut out = Text::with_memory(alloc, ROW_ROOM * (1 + rows.len().min(100)))?;
    out.push(b"{");
    out.rows(alloc, false, name, rows)?;
    out.push(b"}");
    Ok(out.into_bytes())
}

/// The rows as the items of an array, and the end of that.
fn put_rows<R: Row>(alloc: Global, out: &mut Text, rows: &[R]) -> Result<(), AllocError>
    requires { 4 ≤ out.old.ready }
    ensures text { OnOk result (out.new.items ≡ out.old.items ++ items_text false (items_of (map (λ row. object_of (R.fields row)) rows.now))) }
    ensures room { OnOk result (2 ≤ out.new.ready) }
{
    let mut later = false;
    for row in rows {
        if later {
            out.push(b",");
        }
        put_row(alloc, out, row)?;
        later = true;
    }
    out.push(b"]");
    Ok(())
}

impl Text {
    /// One row.
    pub fn row<R: Row>(
        &mut self,
        alloc: Global,
        later: bool,
        name: &str,
        row: &R,
    ) -> Result<(), AllocError>
        requires { IsTrue (is_name name.now) }
        ensures { OnOk result (Adds later self.old self.new ((name.now, object_of (R.fields row.now)) ∷ [])) }
    {
        self.reserve(name.len() + 20)?;
        self.push_member(later, name.as_bytes(), b"");
        put_row(alloc, self, row)?;
        self.reserve(8)?;
        Ok(())
    }

    /// A list of rows.
    pub fn rows<R: Row>(
        &mut self,
        alloc: Global,
        later: bool,
        name: &str,
        rows: &[&R],
    ) -> Result<(), AllocError>
        requires { IsTrue (is_name name.now) }
        ensures { OnOk result (Adds later self.old self.new ((name.now, array (items_of (map (λ row. object_of (R.fields row.now)) rows.now))) ∷ [])) }
    {
        self.each_row(alloc, later, name, rows)
    }

    /// A list of rows that stand one beside the other.
    fn each_row<R: Row>(
        &mut self,
        alloc: Global,
        later: bool,
        name: &str,
        rows: &[R],
    ) -> Result<(), AllocError>
        requires { IsTrue (is_name name.now) }
        ensures { OnOk result (Adds later self.old self.new ((name.now, array (items_of (map (λ row. object_of (R.fields row)) rows.now))) ∷ [])) }
    {
        self.reserve(name.len() + 20)?;
        self.push_member(later, name.as_bytes(), b"[");
        put_rows(alloc, self, rows)?;
        self.reserve(8)?;
        Ok(())
    }
}
