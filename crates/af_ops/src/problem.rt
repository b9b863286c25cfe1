ghost use Rattle.std.specs.Prelude.{OnOk, false};
ghost use Rattle.af_ops.specs.Texts.{Adds};
ghost use Rattle.af_ops.specs.Rows.{problem_fields};

use crate::row::Row;
use crate::status::Status;
use crate::text::Text;
use std::alloc::{AllocError, Global};
use std::marker::Model;

/// A fault (RFC 9457): its status, and what it is about.
#[derive(Drop)]
pub(crate) struct ProblemRow<'a> {
    pub status: Status,
    pub detail: &'a str,
}

impl<'a> Model for ProblemRow<'a> {
    ghost use Rattle.af_ops.specs.Rows.{Problem};

    ghost Value = { Problem };

    ghost view = { λ row. record { status = row.status; detail = row.detail.now } };
}

impl<'a> Row for ProblemRow<'a> {
    ghost fields = { problem_fields };

    fn put_fields(&self, alloc: Global, out: &mut Text) -> Result<(), AllocError> {
        put_problem(alloc, out, self.status, self.detail)
    }
}

fn put_problem(
    alloc: Global,
    out: &mut Text,
    status: Status,
    detail: &str,
) -> Result<(), AllocError>
    ensures { OnOk result (Adds false out.old out.new (problem_fields (record { status = status; detail = detail.now }))) }
{
    out.text(alloc, false, "detail", detail)?;
    out.number(true, "status", u64::from(status.code()))?;
    out.text(alloc, true, "title", status.reason())?;
    out.plain(true, "type", "about:blank")?;
    Ok(())
}
