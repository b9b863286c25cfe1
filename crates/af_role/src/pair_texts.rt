ghost use Rattle.std.specs.Prelude.{◌≡◌, ◌⊎◌, ◌<◌, length, Ok, Err, IfOk, IfErr};
ghost use Rattle.std.specs.Option.{option_copied};
ghost use Rattle.af_role.specs.PairTexts.{bad_pair_action, pairs_read, pairs_read_at, refused_pair};

use crate::{PairFault, PairText, Permissions, Text};
use std::alloc::Global;

/// The set of these permissions. The faults in order, where several apply: the first text that is none of the four
/// actions; the first permission that is not there, since its resource is not known or does not carry its action.
/// `OutOfMemory` only where a growth was refused, and of no texts never.
pub fn read_pairs(alloc: Global, texts: &[PairText]) -> Result<Permissions, PairFault>
    ensures ok { IfOk result (λ permissions. pairs_read texts.now ≡ Ok permissions) }
    ensures refused { IfErr (pairs_read texts.now) (λ fault. (result ≡ Err fault) ⊎ (result ≡ Err PairFault.OutOfMemory)) }
    ensures fault { IfErr result (λ fault. (pairs_read texts.now ≡ Err fault) ⊎ (fault ≡ PairFault.OutOfMemory)) }
    ensures memory { result ≡ Err PairFault.OutOfMemory → 0 < length texts.now }
{
    if let Some(text) = bad_action(texts) {
        return Err(PairFault::BadAction(text.copied(alloc)?));
    }
    read_each(alloc, texts)
}

/// The first fault that `read_pairs` tells of these permissions. `OutOfMemory` is told in the place of a fault alone,
/// whose text takes memory.
pub fn check_pairs(alloc: Global, texts: &[PairText]) -> Result<(), PairFault>
    ensures accepted { IfOk (pairs_read texts.now) (λ _. result ≡ Ok tt) }
    ensures refused { IfErr (pairs_read texts.now) (λ fault. (result ≡ Err fault) ⊎ (result ≡ Err PairFault.OutOfMemory)) }
{
    if let Some(text) = bad_action(texts) {
        return Err(PairFault::BadAction(text.copied(alloc)?));
    }
    match refused_pair(alloc, texts) {
        Some(text) => Err(PairFault::NotAllowed(text.copied(alloc)?)),
        None => Ok(()),
    }
}

/// The first that is no permission, whether there is memory to read them or not.
fn refused_pair(alloc: Global, texts: &[PairText]) -> Option<&PairText>
    ensures { option_copied result ≡ refused_pair texts.now }
{
    texts.iter().find(|text| !text.is_pair(alloc))
}

/// The first text that is none of the four actions.
fn bad_action(texts: &[PairText]) -> Option<&Text>
    ensures { option_copied result ≡ bad_pair_action texts.now }
{
    match texts.iter().find(|text| !text.has_action()) {
        Some(text) => Some(&text.action),
        None => None,
    }
}

/// The set of these permissions, or the first that is not there.
fn read_each(alloc: Global, texts: &[PairText]) -> Result<Permissions, PairFault>
    ensures ok { IfOk result (λ permissions. pairs_read_at texts.now ≡ Ok permissions) }
    ensures refused { IfErr (pairs_read_at texts.now) (λ fault. (result ≡ Err fault) ⊎ (result ≡ Err PairFault.OutOfMemory)) }
    ensures fault { IfErr result (λ fault. (pairs_read_at texts.now ≡ Err fault) ⊎ (fault ≡ PairFault.OutOfMemory)) }
    ensures memory { result ≡ Err PairFault.OutOfMemory → 0 < length texts.now }
{
    let mut permissions = Permissions::new(alloc);
    for text in texts {
        match text.read(alloc)? {
            Some(pair) => permissions.add(pair)?,
            None => return Err(PairFault::NotAllowed(text.copied(alloc)?)),
        }
    }
    Ok(permissions)
}
