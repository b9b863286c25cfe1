ghost use Rattle.std.specs.Prelude.{◌≡◌};

use crate::method::Method;
use crate::path_template::PathTemplate;
use af_role::Need;
use std::marker::Model;

/// A row of the table of operations: the method and the path of an operation, and what it requires of its user, in the order
/// in which that is tested.
#[derive(Drop)]
pub struct Route {
    pub method: Method,
    pub template: PathTemplate,
    pub needs: &'static [Need],
    /// It asks for no token, and is decided under no policy.
    pub is_open: bool,
}

impl Model for Route {
    ghost use Rattle.af_ops.specs.Table.{RouteRow};

    ghost Value = { RouteRow };

    ghost view = { λ route. record {
      method = route.method;
      template = route.template;
      needs = route.needs.now;
      is_open = route.is_open;
    } };
}
