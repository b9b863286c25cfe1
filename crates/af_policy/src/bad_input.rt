ghost use Rattle.std.specs.Prelude.{◌≡◌};
ghost use Rattle.af_policy.specs.Inputs.{member_text, parameter_text};

/// Why a request about policies is none, in the order in which the faults are told.
#[derive(Clone, Copy, Debug, PartialEq, Eq)]
pub enum BadInput {
    /// A parameter of the query is none: `limit` or `offset`.
    Parameter(Parameter),
    /// The body is no JSON object.
    Body,
    /// A member of the body is missing, or of a wrong kind or value: the first in the written order.
    Member(Member),
}

/// The parameters of a listing.
#[derive(Clone, Copy, Debug, PartialEq, Eq)]
pub enum Parameter {
    Limit,
    Offset,
}

/// The members of bodies that change a policy.
#[derive(Clone, Copy, Debug, PartialEq, Eq)]
pub enum Member {
    Name,
    Actions,
    Username,
    Roles,
    TokenSha256,
    AccessControl,
}

impl Parameter {
    /// The parameter's name in the query.
    pub fn text(self) -> &'static str
        ensures { result.now ≡ parameter_text self }
    {
        match self {
            Parameter::Limit => "limit",
            Parameter::Offset => "offset",
        }
    }
}

impl Member {
    /// The member's name in the body.
    pub fn text(self) -> &'static str
        ensures { result.now ≡ member_text self }
    {
        match self {
            Member::Name => "name",
            Member::Actions => "actions",
            Member::Username => "username",
            Member::Roles => "roles",
            Member::TokenSha256 => "token_sha256",
            Member::AccessControl => "access_control",
        }
    }
}
