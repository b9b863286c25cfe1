// A variable as it is told.
ghost use Rattle.std.specs.Prelude.{OnOk, false};
ghost use Rattle.af_ops.specs.Rows.{variable_fields};
ghost use Rattle.af_ops.specs.Texts.{Adds};

use crate::row::Row;
use crate::text::Text;
use af_vars::{VarText, Variable};
use std::alloc::{AllocError, Global};
use std::marker::Model;

impl Row for Variable {
    ghost fields = { variable_fields };

    fn put_fields(&self, alloc: Global, out: &mut Text) -> Result<(), AllocError> {
        put_variable(alloc, out, self.key.as_str(), self.value.as_str())
    }
}

/// A variable as it stands once it holds another text.
#[derive(Drop)]
pub(crate) struct WrittenRow<'a> {
    pub row: &'a Variable,
    pub value: &'a VarText,
}

impl<'a> Model for WrittenRow<'a> {
    ghost use Rattle.af_vars.specs.declared.variable.Variable.{Variable};

    ghost Value = { Variable };

    ghost view = { λ row. record row.row.now { value = row.value.now } };
}

impl<'a> Row for WrittenRow<'a> {
    ghost fields = { variable_fields };

    fn put_fields(&self, alloc: Global, out: &mut Text) -> Result<(), AllocError> {
        put_variable(alloc, out, self.row.key.as_str(), self.value.as_str())
    }
}

fn put_variable(alloc: Global, out: &mut Text, key: &str, value: &str) -> Result<(), AllocError>
    ensures { OnOk result (Adds false out.old out.new (variable_fields (record { key = key.now; value = value.now }))) }
{
    out.text(alloc, false, "key", key)?;
    out.text(alloc, true, "value", value)?;
    Ok(())
}
