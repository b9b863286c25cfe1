ghost use Rattle.std.specs.Prelude.{◌≡◌, IfOk};
ghost use Rattle.std.specs.Arc.{arc_value};
ghost use Rattle.af_policy.specs.Tables.{name_row};

use crate::User;
use crate::shared::Row;
use std::alloc::AllocError;
use std::marker::Model;
use std::sync::Arc;

/// A user's name and digest, found by name, whose front stands beside it. The roles of the user that it shares may be out of date.
/// Contracts therefore see the name and the digest alone.
#[derive(Drop)]
pub(crate) struct ByName {
    front: u64,
    user: Arc<User>,
}

impl Model for ByName {
    ghost use Rattle.std.specs.Prelude.{◌≡◌};
    ghost use Rattle.std.specs.Arc.{arc_value};
    ghost use Rattle.af_policy.specs.Fronts.{front_of};
    ghost use Rattle.af_policy.specs.Tables.{NameRow, name_row};

    ghost Value = { NameRow };

    ghost view = { λ row. name_row (arc_value row.user) };

    ghost invariant = { λ row. row.front ≡ front_of (arc_value row.user).name };
}

impl ByName {
    pub(crate) fn new(user: Arc<User>) -> ByName
        ensures { result ≡ name_row (arc_value user) }
    {
        ByName {
            front: user.fronted_name().front(),
            user,
        }
    }

    /// The SHA-256 of the user's token.
    pub(crate) fn digest(&self) -> [u8; 32]
        ensures { result ≡ self.now.digest }
    {
        self.user.digest()
    }
}

impl Row for ByName {
    ghost key = { λ row. row.name };

    fn key(&self) -> &[u8] {
        self.user.name().as_str().as_bytes()
    }

    fn front(&self) -> u64 {
        self.front
    }

    fn copied(&self) -> Result<ByName, AllocError> {
        let user = Arc::try_clone(&self.user)?;
        Ok(ByName {
            front: self.front,
            user,
        })
    }
}

/// A user, found by the digest of the token, whose front stands beside it, so that a search reads few other places. Contracts see it as
/// the user.
#[derive(Drop)]
pub(crate) struct ByDigest {
    front: u64,
    user: Arc<User>,
}

impl Model for ByDigest {
    ghost use Rattle.std.specs.Prelude.{◌≡◌};
    ghost use Rattle.std.specs.Arc.{arc_value};
    ghost use Rattle.af_policy.specs.Fronts.{front_of};
    ghost use Rattle.af_policy.specs.Rows.{UserRow};

    ghost Value = { UserRow };

    ghost view = { λ row. arc_value row.user };

    ghost invariant = { λ row. row.front ≡ front_of (arc_value row.user).digest };
}

impl ByDigest {
    pub(crate) fn new(user: Arc<User>) -> ByDigest
        ensures { result ≡ arc_value user }
    {
        ByDigest {
            front: user.fronted_digest().front(),
            user,
        }
    }

    /// The user.
    pub(crate) fn user(&self) -> &User
        ensures { result.now ≡ self.now }
    {
        &self.user
    }

    /// The user's name and digest, found by name.
    pub(crate) fn by_name(&self) -> Result<ByName, AllocError>
        ensures { IfOk result (λ row. row ≡ name_row self.now) }
    {
        let user = Arc::try_clone(&self.user)?;
        Ok(ByName::new(user))
    }
}

impl Row for ByDigest {
    ghost key = { λ row. row.digest };

    fn key(&self) -> &[u8] {
        self.user.fronted_digest().value().as_slice()
    }

    fn front(&self) -> u64 {
        self.front
    }

    fn copied(&self) -> Result<ByDigest, AllocError> {
        let user = Arc::try_clone(&self.user)?;
        Ok(ByDigest {
            front: self.front,
            user,
        })
    }
}
