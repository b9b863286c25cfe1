ghost use Rattle.std.specs.Prelude.{◌≡◌, List, ℕ, Some, IfOk, nat_eq, refl};
ghost use Rattle.std.specs.Arc.{arc_value};
ghost use Rattle.std.specs.Ordering.{nat_cmp};
ghost use Rattle.std.specs.Cmp.{partial_equiv_from_equiv};
ghost use Rattle.std.specs.Cmp.Lexicographic.{nat_list_cmp_total, nat_list_eq_equiv, pointwise, slice_cmp, texts_po, texts_ties};
ghost use Rattle.af_policy.specs.Fronts.{front_of};

use crate::User;
use crate::shared::{front, order};
use af_names::UserName;
use std::alloc::{AllocError, Global};
use std::cmp::Ordering;
use std::marker::Model;
use std::sync::Arc;

/// What is told by its bytes.
pub(crate) trait Spelled: Drop {
    /// The bytes.
    ghost spelling: { Self → List ℕ };

    /// The bytes.
    fn spelling(&self) -> &[u8]
        ensures { result.now ≡ spelling self.now };
}

impl Spelled for UserName {
    ghost spelling = { λ name. name };

    fn spelling(&self) -> &[u8] {
        self.as_str().as_bytes()
    }
}

/// A user is told by the name.
impl Spelled for Arc<User> {
    ghost spelling = { λ user. (arc_value user).name };

    fn spelling(&self) -> &[u8] {
        self.name().as_str().as_bytes()
    }
}

impl Spelled for [u8; 32] {
    ghost spelling = { λ digest. digest };

    fn spelling(&self) -> &[u8] {
        self.as_slice()
    }
}

/// A value with its front, which decides most comparisons alone. Contracts see it as its bytes, in whose order it stands.
#[derive(Drop)]
pub(crate) struct Fronted<T: Spelled> {
    front: u64,
    value: T,
}

impl<T: Spelled> Model for Fronted<T> {
    ghost use Rattle.std.specs.Prelude.{◌≡◌, List, ℕ};
    ghost use Rattle.af_policy.specs.Fronts.{front_of};

    ghost Value = { List ℕ };

    ghost view = { λ fronted. T.spelling fronted.value };

    ghost invariant = { λ fronted. fronted.front ≡ front_of (T.spelling fronted.value) };
}

impl<T: Spelled> Fronted<T> {
    /// A value with its front.
    pub(crate) fn new(value: T) -> Fronted<T>
        ensures { result ≡ T.spelling value }
    {
        Fronted {
            front: front(value.spelling()),
            value,
        }
    }

    /// The front.
    pub(crate) fn front(&self) -> u64
        ensures { result ≡ front_of self.now }
    {
        self.front
    }

    /// The value.
    pub(crate) fn value(&self) -> &T
        ensures { T.spelling result.now ≡ self.now }
    {
        &self.value
    }
}

impl Fronted<UserName> {
    /// The same name again.
    pub(crate) fn copied(&self, alloc: Global) -> Result<Fronted<UserName>, AllocError>
        ensures { IfOk result (λ copy. copy ≡ self.now) }
    {
        Ok(Fronted {
            front: self.front,
            value: self.value.copied(alloc)?,
        })
    }
}

impl Fronted<Arc<User>> {
    /// A key of a map: the name of a user, which the key shares.
    pub(crate) fn name_of(user: Arc<User>) -> Fronted<Arc<User>>
        ensures { result ≡ (arc_value user).name }
    {
        Fronted {
            front: user.fronted_name().front(),
            value: user,
        }
    }
}

impl Fronted<[u8; 32]> {
    /// The same digest again.
    pub(crate) fn again(&self) -> Fronted<[u8; 32]>
        ensures { result ≡ self.now }
    {
        Fronted {
            front: self.front,
            value: self.value,
        }
    }
}

impl<T: Spelled> PartialEq for Fronted<T> {
    ghost eq = { pointwise nat_eq };

    ghost laws = { partial_equiv_from_equiv nat_list_eq_equiv };

    fn eq(&self, other: &Fronted<T>) -> bool {
        self.value.spelling() == other.value.spelling()
    }
}

impl<T: Spelled> Eq for Fronted<T> {
    ghost laws = { nat_list_eq_equiv };
}

impl<T: Spelled> PartialOrd for Fronted<T> {
    ghost partial_cmp = { λ x y. Some (slice_cmp nat_cmp x y) };

    ghost laws = { texts_po };

    fn partial_cmp(&self, other: &Fronted<T>) -> Option<Ordering> {
        Some(self.cmp(other))
    }
}

impl<T: Spelled> Ord for Fronted<T> {
    ghost cmp = { slice_cmp nat_cmp };

    ghost total = { nat_list_cmp_total };

    ghost matches_partial_cmp = { λ x y. refl };

    ghost matches_eq = { texts_ties };

    fn cmp(&self, other: &Fronted<T>) -> Ordering {
        order(
            self.front,
            self.value.spelling(),
            other.front,
            other.value.spelling(),
        )
    }
}
