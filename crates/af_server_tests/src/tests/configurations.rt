//! Why a configuration is refused, and the limits that it says, up to the largest.
use super::asserts::{all_go, first_fault};
use af_server::{Configuration, Reason};
use std::alloc::{AllocError, Global};

/// An administrator.
const ADMIN: &str =
    r#""users":[{"username":"u","roles":[{"name":"Admin"}],"token_sha256":"8c6976e5b5410415bde908bd4dee15dfb167a9c873fc4bb8a81f6f2ab448a918"}]"#;

/// What a configuration that is taken may say.
#[derive(Clone, Copy)]
enum Said {
    Anything,
    /// The limits of entries and of versions.
    Limits(u32, u32),
}

/// Whether a configuration says this.
fn is_said(read: &Configuration, said: Said) -> bool {
    match said {
        Said::Anything => true,
        Said::Limits(history, versions) => {
            read.limits.history == history && read.limits.versions == versions
        }
    }
}

/// Whether a configuration says this, or why it is refused. No other function owns one: its parts are many, and each way out of a
/// function drops each of them.
fn says(alloc: Global, config: &str, said: Said) -> Result<bool, Reason> {
    match Configuration::read(alloc, config.as_bytes()) {
        Ok(read) => {
            let is_said = is_said(&read, said);
            drop(read);
            Ok(is_said)
        }
        Err(reason) => Err(reason),
    }
}

/// Whether a configuration of these parts is taken, and says this.
fn is_taken(alloc: Global, parts: &[&str], said: Said) -> Result<bool, AllocError> {
    let config = parts.concat(alloc)?;
    let is_taken = says(alloc, config.as_str(), said) == Ok(true);
    drop(config);
    Ok(is_taken)
}

/// Why a configuration is refused, or none where it is taken.
pub fn refused(alloc: Global, config: &str) -> Option<Reason> {
    says(alloc, config, Said::Anything).err()
}

/// Members behind an administrator, and the limits of entries and of versions that are read.
type Limits = (&'static str, u32, u32);

const LIMITS: [Limits; 3] = [
    ("", 1_000_000, 4_294_967_295),
    (
        r#","history_limit":4294967294"#,
        4_294_967_294,
        4_294_967_295,
    ),
    (r#","version_limit":2,"history_limit":3"#, 3, 2),
];

/// Whether members are taken, and give these limits.
fn are_kept(alloc: Global, limits: &Limits) -> Result<bool, AllocError> {
    let (members, history, versions) = *limits;
    let said = Said::Limits(history, versions);
    is_taken(alloc, &["{", ADMIN, members, "}"], said)
}

#[test]
fn limits_are_kept(rt: HostRuntime) {
    all_go(&rt, first_fault(rt.alloc(), &LIMITS, are_kept), "limits");
}
