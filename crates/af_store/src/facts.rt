// What holds of values that lines hold, from their types.
ghost use Rattle.af_store.specs.Names.{AreNames, IsDigest, IsName};
ghost use Rattle.af_store.specs.ChangeLines.{AreRows};

use af_names::{Name, NameKind};
use af_role::AccessRow;

/// A name is a name of its kind.
pub(crate) fn show_name<K: NameKind>(name: &Name<K>)
    ensures { IsName K.grammar name.now }
{
    let _text = name.as_str();
}

/// Names are names of their kind.
pub(crate) fn show_names<K: NameKind>(names: &[Name<K>])
    ensures { AreNames K.grammar names.now }
{
    for name in names {
        show_name(name);
    }
}

/// The roles of rows of access control are names of roles.
pub(crate) fn show_rows(rows: &[AccessRow])
    ensures { AreRows rows.now }
{
    for row in rows {
        show_name(&row.role);
    }
}

/// A digest has 32 bytes.
pub(crate) fn show_digest(digest: [u8; 32])
    ensures { IsDigest digest }
{
    let _digest = digest;
}
