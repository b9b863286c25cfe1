// Laws about operations on the policy. Each is the contract of a function that does nothing.
ghost use Rattle.std.specs.Prelude.{List};
ghost use Rattle.af_ops.specs.PolicyUnder.{VerdictsAreUnderTheLatest};
ghost use Rattle.af_ops.specs.PolicyLaws.{AnswersNameTheLatest, ChangesAddOneVersion, DenialsAreRefused, PolicyNeedsAreTheTables, PolicyPagesAreCut, ReadingsLeaveTheVersions, RefusalsLeaveTheVersions, StrangersAreRefused};

/// The table requires of who reads or changes the policy what the policy does, and of who asks about oneself nothing but a token.
pub fn policy_needs_are_the_tables()
    ensures { PolicyNeedsAreTheTables }
{}

/// Whatever is asked of the policy, a refusal leaves the versions as they are.
pub fn refusals_leave_the_versions()
    ensures { RefusalsLeaveTheVersions }
{}

/// Whatever is asked of the policy, nobody's token is told so, and changes nothing.
pub fn strangers_are_refused()
    ensures { StrangersAreRefused }
{}

/// Whatever is asked of the policy, a user who lacks a requirement is told the first one lacked, and changes nothing.
pub fn denials_are_refused()
    ensures { DenialsAreRefused }
{}

/// What makes a policy adds one version, the last, which a change by a user who lacks nothing made of the one before.
pub fn changes_add_one_version()
    ensures { ChangesAddOneVersion }
{}

/// What is asked for by GET leaves the versions as they are.
pub fn readings_leave_the_versions()
    ensures { ReadingsLeaveTheVersions }
{}

/// What is told of an operation on the policy names the version that is then the latest.
pub fn answers_name_the_latest()
    ensures { AnswersNameTheLatest }
{}

/// A page of roles or users is cut as every other listing is.
pub fn policy_pages_are_cut<T>()
    ensures { (rows : List T) → PolicyPagesAreCut rows }
{}

/// The verdict under the latest of the versions is the one under that policy and its number.
pub fn verdicts_are_under_the_latest()
    ensures { VerdictsAreUnderTheLatest }
{}
