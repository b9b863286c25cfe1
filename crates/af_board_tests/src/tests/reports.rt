//! What a call returns, reported piece by piece beside the text that is wanted, so that no text of the whole is made and owned.
use crate::tests::asserts::has_memory;
use af_board::{Receipt, SubmitFault};
use af_policy::{ChangeFault, Me, MeFault, PolicyReply, ReadFault, Refusal, UserShown};
use af_role::Permissions;
use std::alloc::Global;
use std::process::Abort;

/// What was reported so far, beside the text that is wanted.
#[derive(Clone, Copy)]
pub struct Report<'a> {
    /// What is wanted after the pieces that were reported.
    rest: &'a [u8],
    /// Whether a piece was another than what was wanted in its place.
    is_other: bool,
}

impl<'a> Report<'a> {
    /// Nothing was reported yet, and this is wanted.
    pub fn of(wanted: &'a str) -> Report<'a> {
        Report {
            rest: wanted.as_bytes(),
            is_other: false,
        }
    }

    /// Reports a piece.
    pub fn add(&mut self, piece: &str) {
        match self.rest.strip_prefix(piece.as_bytes()) {
            Some(rest) => self.rest = rest,
            None => self.is_other = true,
        }
    }

    /// Reports a word, and a number after it.
    pub fn add_number(&mut self, rt: &impl Abort, alloc: Global, word: &str, number: usize) {
        let text = format!(in alloc; "{number}").expect(rt, "the text of a number");
        self.add(word);
        self.add(text.as_str());
    }

    /// Reports the version under which something was decided.
    pub fn add_version(&mut self, rt: &impl Abort, alloc: Global, version: u32) {
        self.add_number(rt, alloc, "under ", version as usize);
        self.add(": ");
    }

    /// Whether exactly what is wanted was reported.
    pub fn is_wanted(&self) -> bool {
        self.rest.is_empty() && !self.is_other
    }
}

/// Reports the version that a change made, its author, and the version under which the change was decided.
pub fn report_receipt(rt: &impl Abort, alloc: Global, report: &mut Report<'_>, receipt: &Receipt) {
    report.add_number(rt, alloc, "version ", receipt.mark().version() as usize);
    report.add(" by ");
    report.add(receipt.author().as_str());
    report.add_number(rt, alloc, " on ", receipt.base().version() as usize);
}

/// Reports why no version was made.
pub fn report_fault(rt: &impl Abort, alloc: Global, report: &mut Report<'_>, fault: SubmitFault) {
    let is_last = matches!(&fault, SubmitFault::Full(_, None));
    if let Some(mark) = fault.mark() {
        report.add_version(rt, alloc, mark.version());
    }
    match fault.told() {
        Refusal::Refused(ChangeFault::Exists) => report.add("exists"),
        Refusal::Moved(version) => {
            report.add_number(rt, alloc, "moved to version ", version as usize);
        }
        Refusal::Full if is_last => report.add("the last version"),
        refusal => report.add(word_of(rt, &refusal)),
    }
}

/// The word of a refusal that names nothing.
fn word_of(rt: &impl Abort, refusal: &Refusal) -> &'static str {
    has_memory(rt, !matches!(refusal, Refusal::OutOfMemory), "a change");
    match refusal {
        Refusal::NotFound => "not found",
        Refusal::Denied(_) => "denied",
        Refusal::Full => "no place is left",
        _ => "no such report",
    }
}

/// Reports permissions, each with a comma.
fn report_permissions(
    rt: &impl Abort,
    alloc: Global,
    report: &mut Report<'_>,
    permissions: &Permissions,
) {
    for pair in permissions.iter() {
        let text = format!(in alloc; "{pair},").expect(rt, "the text of a permission");
        report.add(text.as_str());
    }
}

/// Reports a user, with the roles in parentheses.
fn report_user(report: &mut Report<'_>, user: &UserShown<'_>) {
    report.add(user.name().as_str());
    report.add("(");
    for role in user.roles() {
        report.add(role.as_str());
        report.add(",");
    }
    report.add(")");
}

/// Reports the token's owner with the permissions.
pub fn report_me(
    rt: &impl Abort,
    alloc: Global,
    report: &mut Report<'_>,
    answer: &Result<Me<'_>, MeFault>,
) {
    has_memory(rt, !matches!(answer, Err(MeFault::OutOfMemory)), "who am I");
    match answer {
        Ok(me) => {
            report_user(report, &me.user);
            report.add(" ");
            report_permissions(rt, alloc, report, me.permissions.as_permissions());
        }
        Err(MeFault::Unauthenticated) => report.add("unauthenticated"),
        Err(_) => report.add("no such report"),
    }
}

/// Reports what was read: a role with its permissions, or users and how many there are in all.
pub fn report_reply(
    rt: &impl Abort,
    alloc: Global,
    report: &mut Report<'_>,
    answer: &Result<PolicyReply<'_>, ReadFault>,
) {
    has_memory(
        rt,
        !matches!(answer, Err(ReadFault::OutOfMemory)),
        "a reading",
    );
    match answer {
        Ok(PolicyReply::Role(role)) => {
            report.add(role.name().as_str());
            report.add(": ");
            report_permissions(rt, alloc, report, role.permissions());
        }
        Ok(PolicyReply::Users(page)) => {
            for user in page.rows() {
                report_user(report, user);
            }
            report.add_number(rt, alloc, " of ", page.total());
        }
        Err(ReadFault::NoSuchRole) => report.add("no such role"),
        Err(ReadFault::Denied(_)) => report.add("denied"),
        _ => report.add("no such report"),
    }
}
