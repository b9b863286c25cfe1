ghost use Rattle.std.specs.Prelude.{◌≡◌};
ghost use Rattle.af_ops.specs.Methods.{method_name, method_of};

/// A method that some operation has.
#[derive(Clone, Copy, Debug, PartialEq, Eq)]
pub enum Method {
    Get,
    Post,
    Patch,
    Delete,
}

impl Method {
    /// The methods, in the order in which `Allow` lists them.
    pub const ALL: [Method; 4] = [Method::Get, Method::Post, Method::Patch, Method::Delete];

    /// Its name.
    pub fn name(self) -> &'static str
        ensures { result.now ≡ method_name self }
    {
        match self {
            Method::Get => "GET",
            Method::Post => "POST",
            Method::Patch => "PATCH",
            Method::Delete => "DELETE",
        }
    }

    /// The method of that name, to the letter; none where no operation has it.
    pub fn named(name: &[u8]) -> Option<Method>
        ensures { result ≡ method_of name.now }
    {
        Method::ALL
            .iter()
            .copied()
            .find(|method| name == method.name().as_bytes())
    }
}
