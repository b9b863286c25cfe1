ghost use Rattle.std.specs.Prelude.{◌≡◌, ◌<◌, ◌≤◌, [], ◌∷◌, ◌++◌, length, nat_le, slice_get, OnOk, OnErr};
ghost use Rattle.std.specs.Option.{option_copied};
ghost use Rattle.af_policy.specs.Versions.{Follows, IsHistory, all_versions, with_version};

use af_policy::Policy;
use std::alloc::{AllocError, Global};
use std::marker::Model;

/// The versions of a policy, numbered from 0, and the greatest number that a version may have. Each later one is made of the
/// one before by a change, whose author lacked nothing there. Contracts see it as the policies and that number.
pub struct Versions {
    earlier: Vec<Policy>,
    latest: Policy,
    last: u32,
}

impl Drop for Versions {
    fn drop(self) {
        let Versions {
            earlier: _,
            latest: _,
            last: _,
        } = self;
    }
}

impl Model for Versions {
    ghost use Rattle.std.specs.Prelude.{◌≤◌, length};
    ghost use Rattle.af_policy.specs.Versions.{IsHistory, VersionRows};

    ghost Value = { VersionRows };

    ghost view = { λ versions. record { earlier = versions.earlier.items; latest = versions.latest; last = versions.last } };

    ghost invariant = { λ versions. (length versions.earlier.items ≤ versions.last) × IsHistory versions.earlier.items versions.latest };
}

impl Versions {
    /// The one version 0, and the greatest number that a version may have.
    pub fn open(alloc: Global, policy: Policy, last: u32) -> Versions
        ensures { result ≡ record { earlier = []; latest = policy; last = last } }
    {
        Versions {
            earlier: Vec::new(alloc),
            latest: policy,
            last,
        }
    }

    /// The number of the latest version.
    pub fn current(&self) -> u32
        ensures { result ≡ length self.now.earlier }
    {
        let _last = self.last;
        self.earlier.len() as u32
    }

    /// The latest version.
    pub fn latest(&self) -> &Policy
        ensures { result.now ≡ self.now.latest }
    {
        &self.latest
    }

    /// A version. None past the latest.
    pub fn policy(&self, version: u32) -> Option<&Policy>
        ensures { option_copied result ≡ slice_get (all_versions self.now) version }
    {
        if version == self.current() {
            return Some(&self.latest);
        }
        self.earlier.get(version as usize)
    }

    /// Whether the latest version has the greatest number that one may have.
    pub fn is_full(&self) -> bool
        ensures { result ≡ nat_le self.now.last (length self.now.earlier) }
    {
        self.current() >= self.last
    }

    /// The conditions that versions meet at all times: each policy follows the one before it, and no number of a version is past
    /// the greatest.
    pub fn conditions(&self)
        ensures history { IsHistory self.now.earlier self.now.latest }
        ensures within { length self.now.earlier ≤ self.now.last }
    {
        let _last = self.last;
    }

    /// Puts a policy behind the latest, which it follows. `AllocError` only where a growth was refused; then there is no
    /// further version.
    pub fn publish(&mut self, policy: Policy) -> Result<(), AllocError>
        requires room { length self.old.earlier < self.old.last }
        requires follows { Follows self.old.latest policy }
        ensures ok { OnOk result (self.new ≡ with_version self.old policy) }
        ensures err { OnErr result (self.new ≡ self.old) }
    {
        push_copy(&mut self.earlier, &self.latest)?;
        self.latest = policy;
        Ok(())
    }
}

/// Puts a policy once more behind others. `AllocError` only where a growth was refused; they are then as before.
fn push_copy(policies: &mut Vec<Policy>, policy: &Policy) -> Result<(), AllocError>
    ensures ok { OnOk result (policies.new.items ≡ policies.old.items ++ policy.now ∷ []) }
    ensures err { OnErr result (policies.new.items ≡ policies.old.items) }
{
    let copy = policy.copy()?;
    policies.push(copy)?;
    Ok(())
}
