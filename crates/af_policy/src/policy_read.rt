ghost use Rattle.std.specs.Prelude.{◌≡◌};
ghost use Rattle.af_policy.specs.Reads.{read_kind};

use crate::{BadInput, ReadKind, Span};
use af_names::{RoleName, UserName};

/// What somebody asks to read of a policy.
#[derive(Drop)]
pub enum PolicyRead {
    /// Some of its roles, in byte order of their names.
    Roles(Span),
    /// The role of a name.
    Role(RoleName),
    /// Some of its users, in byte order of their names.
    Users(Span),
    /// The user of a name.
    User(UserName),
    /// Something of a kind, with a parameter that is none.
    Bad(ReadKind, BadInput),
}

impl PolicyRead {
    /// What kind of thing is asked for.
    pub fn kind(&self) -> ReadKind
        ensures { result ≡ read_kind self.now }
    {
        match self {
            PolicyRead::Roles(_) => ReadKind::Roles,
            PolicyRead::Role(_) => ReadKind::Role,
            PolicyRead::Users(_) => ReadKind::Users,
            PolicyRead::User(_) => ReadKind::User,
            PolicyRead::Bad(kind, _) => *kind,
        }
    }
}
