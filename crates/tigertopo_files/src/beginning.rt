//! The kinds of files that are made, and how each begins.

ghost use Rattle.std.specs.Prelude.{◌≡◌, ◌≤◌, length};
ghost use Rattle.tigertopo_files.specs.Files.{beginning_of, may_go as may_go_of, may_be_left as may_be_left_of};

/// What is made.
#[derive(Clone, Copy, Debug, PartialEq, Eq)]
pub enum FileKind {
    /// A certificate.
    Certificate,
    /// A collection of features, in GeoJSON.
    Collection,
    /// A picture, in SVG.
    Picture,
    /// Records, of a map's border: their VERSION is EDGE, which no county has, since those are numbers.
    Records,
}

/// At least as many bytes as a beginning has.
pub const FRONT: usize = 64;

/// How each file of the kind begins.
pub fn first_bytes<'a>(kind: FileKind) -> &'a [u8]
    ensures bytes { result.now ≡ beginning_of kind }
    ensures short { length result.now ≤ FRONT }
{
    match kind {
        FileKind::Certificate => b"TIGERCERT ",
        FileKind::Collection => b"{\"type\":\"FeatureCollection\",\"name\":\"tigertopo\"",
        FileKind::Picture => b"<svg xmlns=\"http://www.w3.org/2000/svg\" class=\"tigertopo\"",
        FileKind::Records => b"1EDGE",
    }
}

/// Whether a file of these bytes may be written over by one of the kind: there are none, or they begin as those of the kind
/// do.
pub fn may_go(kind: FileKind, bytes: &[u8]) -> bool
    ensures { result ≡ may_go_of kind bytes.now }
{
    bytes.is_empty() || bytes.starts_with(first_bytes(kind))
}

/// Whether a file of these bytes may be one of the kind that an earlier run left unfinished: they begin as those of the kind do, or
/// end before that could be told.
pub fn may_be_left(kind: FileKind, bytes: &[u8]) -> bool
    ensures { result ≡ may_be_left_of kind bytes.now }
{
    bytes.starts_with(first_bytes(kind)) || first_bytes(kind).starts_with(bytes)
}
