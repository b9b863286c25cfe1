// The limits of the configuration: `history_limit` and `version_limit`.
ghost use Rattle.std.specs.Prelude.{◌≡◌};
ghost use Rattle.af_base.specs.JsonValue.{view};
ghost use Rattle.af_server.specs.declared.reason.Reason.{Reason};
ghost use Rattle.af_server.specs.Configurations.{limits_in};

use crate::members::number_or;
use crate::reason::Reason;
use af_base::Json;

/// The least and the most limit of entries.
const HISTORY: (u32, u32) = (1, 4_294_967_294);

/// The least and the most last version.
const VERSIONS: (u32, u32) = (1, 4_294_967_295);

/// How much there may be.
#[derive(Clone, Copy, Debug, PartialEq, Eq)]
pub struct Limits {
    /// The most entries of the audit.
    pub history: u32,
    /// The last version that the policy may have.
    pub versions: u32,
}

/// Reads the limits.
pub fn read_limits(config: &Json<'_>) -> Result<Limits, Reason>
    ensures { result ≡ limits_in (view config.now) }
{
    let history = number_or(config, "history_limit", HISTORY, 1_000_000)?;
    let versions = number_or(config, "version_limit", VERSIONS, 4_294_967_295)?;
    Ok(Limits { history, versions })
}
