ghost use Rattle.std.specs.Prelude.{◌<◌};

use af_ops::{PATH_TEMPLATES, PathTemplate};
use matchit::Router;
use std::alloc::{AllocError, Global};

/// How many paths of the table are kept, each for paths with so many slashes.
const PLACES: usize = 16;

/// Which path of the table a path likely is. Nothing rests on it: whether a path has its form is tested.
#[derive(Drop)]
pub struct Likely {
    router: Router<PathTemplate>,
    /// What the router found last of paths with so many slashes.
    found: [Option<PathTemplate>; PLACES],
}

/// The place of the paths with as many slashes as this one.
fn place_of(path: &[u8]) -> usize
    ensures { result < 16 }
{
    let mut slashes: usize = 0;
    for byte in path {
        if *byte == b'/' {
            slashes = slashes.wrapping_add(1);
        }
    }
    slashes % PLACES
}

/// A router of all paths of the table.
fn router_of_templates(alloc: Global) -> Result<Router<PathTemplate>, AllocError> {
    let mut router = Router::new(alloc);
    for template in PATH_TEMPLATES {
        if router.insert(template.text(), template).is_err() {
            return Err(AllocError);
        }
    }
    Ok(router)
}

impl Likely {
    /// Nothing was found yet.
    pub fn new(alloc: Global) -> Result<Likely, AllocError> {
        Ok(Likely {
            router: router_of_templates(alloc)?,
            found: [None; PLACES],
        })
    }

    /// What was found last of a path with as many slashes: one who asks again mostly asks for a path of the same form.
    pub fn again(&self, path: &[u8]) -> Option<PathTemplate> {
        self.found[place_of(path)]
    }

    /// What the router takes a path for.
    pub fn routed(&mut self, path: &[u8]) -> Option<PathTemplate> {
        let text = str::from_utf8(path).ok()?;
        let found = self.router.at(text).ok()?;
        let template = *found.value;
        self.found[place_of(path)] = Some(template);
        Some(template)
    }
}
