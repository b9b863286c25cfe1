// The trigger rule of a task of the configuration.
ghost use Rattle.std.specs.Prelude.{◌≡◌};
ghost use Rattle.af_base.specs.JsonValue.{view};
ghost use Rattle.af_server.specs.Tasks.{rule_in};

use crate::reason::Reason;
use af_base::{Json, optional_text};
use af_graph::Rule;

/// Reads the rule: that all upstream tasks succeeded, unless another is named.
pub fn read_rule(row: &Json<'_>) -> Result<Rule, Reason>
    ensures { result ≡ rule_in (view row.now) }
{
    match optional_text(row, "trigger_rule", Reason::Shape)? {
        None => Ok(Rule::AllSuccess),
        Some(text) => Rule::read(text).ok_or(Reason::Shape),
    }
}
