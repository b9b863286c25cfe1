ghost use Rattle.std.specs.Prelude.{◌≡◌};
ghost use Rattle.af_ops.specs.Bodies.{name_of};

use crate::body_fault::Member;

/// Its name in a body.
pub fn name_of(member: Member) -> &'static str
    ensures { result.now ≡ name_of member }
{
    match member {
        Member::IsPaused => "is_paused",
        Member::DagRunId => "dag_run_id",
        Member::LogicalDate => "logical_date",
        Member::ExecutionDate => "execution_date",
        Member::Conf => "conf",
        Member::State => "state",
        Member::DryRun => "dry_run",
        Member::OnlyFailed => "only_failed",
        Member::TaskIds => "task_ids",
        Member::StartDate => "start_date",
        Member::EndDate => "end_date",
        Member::Name => "name",
        Member::Slots => "slots",
        Member::Key => "key",
        Member::Value => "value",
    }
}
