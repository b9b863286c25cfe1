ghost use Rattle.std.specs.Prelude.{◌≡◌};
ghost use Rattle.af_names.specs.Names.{account_name_grammar, is_id_byte, is_run_byte, is_printed_byte, id_grammar, row_name_grammar, run_id_grammar};

use crate::name::{Name, NameKind};
use std::marker::PhantomData;

/// The most bytes of a name, but for those of users and roles.
const LONGEST: usize = 250;

/// The most bytes of the name of a user or a role.
const LONGEST_OF_AN_ACCOUNT: usize = 64;

/// The id of a DAG: 1 to 250 of ASCII letters, digits, `_`, `-` and `.`.
pub type DagId = Name<DagKind>;

/// The id of a task: 1 to 250 of ASCII letters, digits, `_`, `-` and `.`.
pub type TaskId = Name<TaskKind>;

/// The id of a run: 1 to 250 of ASCII letters, digits, `_`, `-`, `.`, `~`, `:` and `+`, and not `~` alone.
pub type RunId = Name<RunKind>;

/// The name of a user: 1 to 64 bytes of 32 to 126.
pub type UserName = Name<UserKind>;

/// The name of a role: 1 to 64 bytes of 32 to 126.
pub type RoleName = Name<RoleKind>;

/// The name of a pool: 1 to 250 bytes of 32 to 126.
pub type PoolName = Name<PoolKind>;

/// The key of a variable: 1 to 250 bytes of 32 to 126.
pub type VarKey = Name<VarKind>;

/// The kind of a DAG's id.
pub type DagKind = KindOf<IdSpelling, DagMark>;

/// The kind of a task's id.
pub type TaskKind = KindOf<IdSpelling, TaskMark>;

/// The kind of a run's id.
pub type RunKind = KindOf<RunSpelling, RunMark>;

/// The kind of a user's name.
pub type UserKind = KindOf<AccountSpelling, UserMark>;

/// The kind of a role's name.
pub type RoleKind = KindOf<AccountSpelling, RoleMark>;

/// The kind of a pool's name.
pub type PoolKind = KindOf<RowSpelling, PoolMark>;

/// The kind of a variable's key.
pub type VarKind = KindOf<RowSpelling, VarMark>;

/// The kind of the names of one sort of thing, spelled by a grammar: names of two kinds are of two types, though one grammar
/// spells both.
#[derive(Drop)]
pub struct KindOf<S: NameKind, M> {
    spelling: PhantomData<S>,
    mark: PhantomData<M>,
}

impl<S: NameKind, M> NameKind for KindOf<S, M> {
    ghost grammar = { S.grammar };

    fn allows(byte: u8) -> bool {
        S::allows(byte)
    }

    fn reserves(text: &str) -> bool {
        S::reserves(text)
    }

    fn longest() -> usize {
        S::longest()
    }
}

/// Marks a DAG's id.
#[derive(Clone, Copy, Debug, PartialEq, Eq)]
pub struct DagMark;

/// Marks a task's id.
#[derive(Clone, Copy, Debug, PartialEq, Eq)]
pub struct TaskMark;

/// Marks a run's id.
#[derive(Clone, Copy, Debug, PartialEq, Eq)]
pub struct RunMark;

/// Marks a user's name.
#[derive(Clone, Copy, Debug, PartialEq, Eq)]
pub struct UserMark;

/// Marks a role's name.
#[derive(Clone, Copy, Debug, PartialEq, Eq)]
pub struct RoleMark;

/// Marks a pool's name.
#[derive(Clone, Copy, Debug, PartialEq, Eq)]
pub struct PoolMark;

/// Marks a variable's key.
#[derive(Clone, Copy, Debug, PartialEq, Eq)]
pub struct VarMark;

/// How ids of DAGs and tasks are spelled.
#[derive(Clone, Copy, Debug, PartialEq, Eq)]
pub struct IdSpelling;

impl NameKind for IdSpelling {
    ghost grammar = { id_grammar };

    fn allows(byte: u8) -> bool {
        is_id_byte(byte)
    }

    fn reserves(_text: &str) -> bool {
        false
    }

    fn longest() -> usize {
        LONGEST
    }
}

/// How ids of runs are spelled.
#[derive(Clone, Copy, Debug, PartialEq, Eq)]
pub struct RunSpelling;

impl NameKind for RunSpelling {
    ghost grammar = { run_id_grammar };

    fn allows(byte: u8) -> bool {
        is_run_byte(byte)
    }

    fn reserves(text: &str) -> bool {
        text == "~"
    }

    fn longest() -> usize {
        LONGEST
    }
}

/// How names of users and roles are spelled.
#[derive(Clone, Copy, Debug, PartialEq, Eq)]
pub struct AccountSpelling;

impl NameKind for AccountSpelling {
    ghost grammar = { account_name_grammar };

    fn allows(byte: u8) -> bool {
        is_printed_byte(byte)
    }

    fn reserves(_text: &str) -> bool {
        false
    }

    fn longest() -> usize {
        LONGEST_OF_AN_ACCOUNT
    }
}

/// How names of pools and keys of variables are spelled.
#[derive(Clone, Copy, Debug, PartialEq, Eq)]
pub struct RowSpelling;

impl NameKind for RowSpelling {
    ghost grammar = { row_name_grammar };

    fn allows(byte: u8) -> bool {
        is_printed_byte(byte)
    }

    fn reserves(_text: &str) -> bool {
        false
    }

    fn longest() -> usize {
        LONGEST
    }
}

fn is_id_byte(byte: u8) -> bool
    ensures { result ≡ is_id_byte byte }
{
    byte.is_ascii_alphanumeric() || matches!(byte, b'_' | b'-' | b'.')
}

fn is_run_byte(byte: u8) -> bool
    ensures { result ≡ is_run_byte byte }
{
    is_id_byte(byte) || matches!(byte, b'~' | b':' | b'+')
}

fn is_printed_byte(byte: u8) -> bool
    ensures { result ≡ is_printed_byte byte }
{
    (32..=126).contains(&byte)
}
