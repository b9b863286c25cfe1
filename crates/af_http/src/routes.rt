ghost use Rattle.std.specs.Prelude.{◌≡◌, ◌+◌, ◌≤◌, ◌∷◌, [], Some, false, length, map, string_bytes, true};
ghost use Rattle.af_ops.specs.Segments.{seen};
ghost use Rattle.af_ops.specs.Table.{segments_of};
ghost use Rattle.af_http.specs.Limits.{part_limit};
ghost use Rattle.af_http.specs.Parts.{IsFit, IsFound, IsLeftOut, IsPut, part_count, unfit};
ghost use Rattle.af_http.specs.Routes.{IsRouted, before, endpoint_of, has_form, named, onward, call_of, parts_in, path_of, template_of, query_of, read, stands_for};

use crate::fit::Fit;
use crate::likely::Likely;
use crate::parts::Parts;
use crate::route_fault::RouteFault;
use af_ops::{
    Call, Endpoint, Method, PATH_TEMPLATES, PathTemplate, Segment, are_names, endpoint_at,
    methods_at, read_row,
};
use json::Scratch;
use memchr::memchr;
use std::alloc::{AllocError, Global};

/// The table of paths, with room for the parts of one. A router finds the likely one, or that of a path before; that it has the path's form
/// is tested, so what is found depends on neither.
pub struct Routes {
    alloc: Global,
    likely: Likely,
    /// The parts of the path that is read.
    parts: Parts,
    /// Where texts of a body with escapes are spelled out.
    scratch: Scratch,
}

impl Drop for Routes {
    fn drop(self) {
        let Routes {
            alloc: _,
            likely: _,
            parts: _,
            scratch: _,
        } = self;
    }
}

/// What stands before the first slash, and from it on. It is near, so the bytes are looked at one by one.
fn cut(path: &[u8]) -> (&[u8], &[u8])
    ensures { (result.0.now ≡ before 47 path.now) × (result.1.now ≡ onward 47 path.now) }
{
    for (at, byte) in path.iter().enumerate() {
        if *byte == b'/' {
            return path.split_at(at);
        }
    }
    (path, &[])
}

/// Whether a segment stands for this text.
fn stands_for(segment: &Segment, piece: &[u8]) -> bool
    ensures { result ≡ stands_for (seen segment.now) piece.now }
{
    if segment.is_part {
        !piece.is_empty()
    } else {
        piece == segment.text.as_bytes()
    }
}

/// Whether a path is these segments, a slash before each.
fn has_form(segments: &[Segment], path: &[u8]) -> bool
    ensures { result ≡ has_form (map seen segments.now) path.now }
{
    let Some((segment, segments)) = segments.split_first() else {
        return path.is_empty();
    };
    let Some((slash, path)) = path.split_first() else {
        return false;
    };
    let (piece, rest) = cut(path);
    *slash == b'/' && (stands_for(segment, piece) && has_form(segments, rest))
}

/// Puts the text of a part behind those that are there, and tells whether it has one that is not too long for a name. Where the
/// segment is no part there is none to put.
fn put_part(segment: &Segment, piece: &[u8], parts: &mut Parts) -> bool
    requires { length parts.old + part_count (seen segment.now ∷ []) ≤ part_limit }
    ensures put { result ≡ true → IsPut (seen segment.now) piece.now parts.old parts.new }
    ensures unfit { result ≡ false → IsLeftOut (seen segment.now) piece.now }
{
    if !segment.is_part {
        return true;
    }
    parts.push(piece)
}

/// What a path is to these segments where a part before has no text, or one that is too long for a name.
fn unfit(segments: &[Segment], path: &[u8]) -> Fit
    ensures { result ≡ unfit (has_form (map seen segments.now) path.now) }
{
    if has_form(segments, path) {
        Fit::Unfit
    } else {
        Fit::Other
    }
}

/// What a path is to these segments, a slash before each. The texts of its parts are put behind those that are there, in order.
fn compared(segments: &[Segment], path: &[u8], parts: &mut Parts) -> Fit
    requires { length parts.old + part_count (map seen segments.now) ≤ part_limit }
    ensures { IsFit (map seen segments.now) path.now parts.old parts.new result }
{
    let Some((segment, segments)) = segments.split_first() else {
        return if path.is_empty() {
            Fit::Fits
        } else {
            Fit::Other
        };
    };
    let Some((slash, path)) = path.split_first() else {
        return Fit::Other;
    };
    let (piece, rest) = cut(path);
    if *slash != b'/' || !stands_for(segment, piece) {
        return Fit::Other;
    }
    if !put_part(segment, piece, parts) {
        return unfit(segments, rest);
    }
    compared(segments, rest, parts)
}

/// The operation of a method at a path.
fn endpoint_of(method: &[u8], template: PathTemplate) -> Option<Endpoint>
    ensures { result ≡ endpoint_of method.now template }
{
    match Method::named(method) {
        Some(method) => endpoint_at(method, template),
        None => None,
    }
}

/// What an operation reads.
fn read(
    alloc: Global,
    endpoint: Endpoint,
    parts: &[String],
    query: &[u8],
    body: &[u8],
    scratch: &mut Scratch,
) -> Result<Call, RouteFault>
    ensures { IsRouted (read endpoint (map (λ part. string_bytes part) parts.now) query.now body.now) result }
{
    match read_row(alloc, endpoint, parts, query, body, scratch) {
        Ok(Some(call)) => Ok(call),
        Ok(None) => Err(RouteFault::NoPath),
        Err(_) => Err(RouteFault::OutOfMemory),
    }
}

/// What a method, a query and a body ask for at a path of this form, whose parts have these texts. Each is read as a name once: by its
/// operation, or where the path has no such method.
fn named(
    alloc: Global,
    method: &[u8],
    template: PathTemplate,
    parts: &[String],
    query: &[u8],
    body: &[u8],
    scratch: &mut Scratch,
) -> Result<Call, RouteFault>
    ensures { IsRouted (named method.now query.now body.now template (map (λ part. string_bytes part) parts.now)) result }
{
    match endpoint_of(method, template) {
        Some(endpoint) => read(alloc, endpoint, parts, query, body, scratch),
        None if are_names(alloc, Method::named(method), template, parts) => Err(
            RouteFault::BadMethod(methods_at(template)),
        ),
        None => Err(RouteFault::NoPath),
    }
}

/// The path of a target, which stands before its first `?`, and its query, which stands behind that.
fn parted(target: &[u8]) -> (&[u8], &[u8])
    ensures path { result.0.now ≡ path_of target.now }
    ensures query { result.1.now ≡ query_of target.now }
{
    match memchr(b'?', target) {
        Some(at) => {
            let (path, marked) = target.split_at(at);
            let (_, query) = marked.split_at(1);
            (path, query)
        }
        None => (target, &[]),
    }
}

impl Routes {
    /// The table. It is made once for a connection.
    pub fn new(alloc: Global) -> Result<Routes, AllocError> {
        let likely = Likely::new(alloc)?;
        let parts = Parts::new(alloc)?;
        Ok(Routes {
            alloc,
            likely,
            parts,
            scratch: Scratch::new(alloc),
        })
    }

    /// The path of the table that has this form, looked for from the first on.
    fn template_of(&self, path: &[u8]) -> Option<PathTemplate>
        ensures { result ≡ template_of path.now }
    {
        PATH_TEMPLATES
            .iter()
            .copied()
            .find(|template| has_form(template.segments(), path))
    }

    /// What a path is to the segments of a path of the table. The texts of its parts are those of this one alone.
    fn read_parts(&mut self, template: PathTemplate, path: &[u8]) -> Fit
        ensures { IsFit (segments_of template) path.now [] self.new.parts result }
    {
        self.parts.clear();
        compared(template.segments(), path, &mut self.parts)
    }

    /// The path of the table that this is, with the texts of its parts; none also where one of these has no text, or one that is
    /// too long for a name.
    fn find(&mut self, path: &[u8]) -> Option<PathTemplate>
        ensures { IsFound path.now self.new.parts result }
    {
        if let Some(template) = self.likely.again(path) {
            match self.read_parts(template, path) {
                Fit::Fits => return Some(template),
                Fit::Unfit => return None,
                Fit::Other => {}
            }
        }
        self.find_routed(path)
    }

    /// The same where no path before tells it: what the router finds is tried.
    fn find_routed(&mut self, path: &[u8]) -> Option<PathTemplate>
        ensures { IsFound path.now self.new.parts result }
    {
        match self.likely.routed(path) {
            Some(template) => match self.read_parts(template, path) {
                Fit::Fits => Some(template),
                Fit::Unfit => None,
                Fit::Other => self.search(path),
            },
            None => self.search(path),
        }
    }

    /// The same where the router did not find it: each path of the table is tried.
    #[cold]
    fn search(&mut self, path: &[u8]) -> Option<PathTemplate>
        ensures { IsFound path.now self.new.parts result }
    {
        match self.template_of(path) {
            Some(template) => match self.read_parts(template, path) {
                Fit::Fits => Some(template),
                _ => None,
            },
            None => None,
        }
    }

    /// What a method, a target and a body ask for, or why they ask for nothing. Out of memory is told only where they ask for
    /// something.
    pub fn read_call(
        &mut self,
        method: &[u8],
        target: &[u8],
        body: &[u8],
    ) -> Result<Call, RouteFault>
        ensures { IsRouted (call_of method.now target.now body.now) result }
    {
        let (path, query) = parted(target);
        match self.find(path) {
            Some(template) => named(
                self.alloc,
                method,
                template,
                self.parts.as_slice(),
                query,
                body,
                &mut self.scratch,
            ),
            None => Err(RouteFault::NoPath),
        }
    }
}
