ghost use Rattle.std.specs.Prelude.{◌≡◌, Some, nat_eq};
ghost use Rattle.std.specs.List.{find};
ghost use Rattle.std.specs.Cmp.Lexicographic.{pointwise};
ghost use Rattle.af_graph.specs.Texts.{rule_of, rule_text};

/// When a task may run, by the states of the tasks directly upstream of it. The names are those of
/// Airflow 2 ("DAGs": trigger rules); what each decides is this product's own table.
#[derive(Clone, Copy, Debug, PartialEq, Eq)]
pub enum Rule {
    AllSuccess,
    AllFailed,
    AllDone,
    OneSuccess,
    OneFailed,
    OneDone,
    NoneFailed,
    NoneFailedMinOneSuccess,
    NoneSkipped,
    AllSkipped,
    Always,
}

impl Rule {
    /// The rule of that name, or none where no rule has it.
    pub fn read(text: &str) -> Option<Rule>
        ensures { result ≡ rule_of text.now }
    {
        of_text(
            &[
                Rule::AllSuccess,
                Rule::AllFailed,
                Rule::AllDone,
                Rule::OneSuccess,
                Rule::OneFailed,
                Rule::OneDone,
                Rule::NoneFailed,
                Rule::NoneFailedMinOneSuccess,
                Rule::NoneSkipped,
                Rule::AllSkipped,
                Rule::Always,
            ],
            text,
        )
    }

    /// The name of the rule, which `read` reads back.
    pub fn as_str(self) -> &'static str
        ensures text { result.now ≡ rule_text self }
        ensures read_back { rule_of result.now ≡ Some self }
    {
        match self {
            Rule::AllSuccess => "all_success",
            Rule::AllFailed => "all_failed",
            Rule::AllDone => "all_done",
            Rule::OneSuccess => "one_success",
            Rule::OneFailed => "one_failed",
            Rule::OneDone => "one_done",
            Rule::NoneFailed => "none_failed",
            Rule::NoneFailedMinOneSuccess => "none_failed_min_one_success",
            Rule::NoneSkipped => "none_skipped",
            Rule::AllSkipped => "all_skipped",
            Rule::Always => "always",
        }
    }
}

/// The first of these whose text it is.
fn of_text(rules: &[Rule], text: &str) -> Option<Rule>
    ensures { result ≡ find (λ rule. pointwise nat_eq (rule_text rule) text.now) rules.now }
{
    rules.iter().copied().find(|rule| rule.as_str() == text)
}
