//! Files that are opened together.

ghost use Rattle.std.specs.Prelude.{◌≡◌, All, IfOk, IfErr, None, map, string_bytes};
ghost use Rattle.std.specs.Bool.{OnFalse};
ghost use Rattle.std.specs.List.{sum_by};
ghost use Rattle.tigertopo_files.specs.Counting.{IsShort};
ghost use Rattle.tigertopo_files.specs.Files.{Under, bytes_under};
ghost use Rattle.tigertopo_files.specs.World.{SomeMissing};
ghost use Rattle.tl_cert_output.specs.Stops.{StopsFor};

use std::alloc::Global;
use tl_cert_output::Stop;
use tl_record::Source;

/// Files of which each can be opened by itself.
pub trait Opener {
    /// A file that is read.
    type Reader: Source + Drop;

    // What stands under each name, where that is known.
    ghost held: { Self → Under };

    /// Opens the file that stands under a name. A device fails only where the bytes of none are known. A file has fewer than 2^63 bytes.
    fn open_one(&self, alloc: Global, name: &str) -> Result<Self::Reader, Stop>
        ensures opened { IfOk result (λ file. Self.Reader.remaining file ≡ bytes_under (held self.now) name.now) }
        ensures short { IfOk result (λ file. IsShort (Self.Reader.remaining file)) }
        ensures fresh { IfOk result (λ file. Self.Reader.failure_count file ≡ 0) }
        ensures failed { IfErr result (StopsFor (bytes_under (held self.now) name.now ≡ None)) };

    /// Whether the file that stands under a name can be read again from its beginning: where it is no regular file it can't, as a pipe
    /// can't.
    fn lasts(&self, name: &str) -> Result<bool, Stop>
        ensures passing { IfOk result (λ lasts. OnFalse lasts (held self.now name.now ≡ None)) }
        ensures failed { IfErr result (StopsFor (bytes_under (held self.now) name.now ≡ None)) };
}

/// The files of these names, each opened once and in their order.
pub fn open_each<O: Opener>(
    opener: &O,
    alloc: Global,
    names: &[String],
) -> Result<Vec<O::Reader>, Stop>
    ensures opened { IfOk result (λ files. map O.Reader.remaining files.items
        ≡ map (λ name. bytes_under (O.held opener.now) (string_bytes name)) names.now) }
    ensures short { IfOk result (λ files. All (λ file. IsShort (O.Reader.remaining file)) files.items) }
    ensures fresh { IfOk result (λ files. sum_by O.Reader.failure_count files.items ≡ 0) }
    ensures failed { IfErr result (StopsFor (SomeMissing (O.held opener.now) (map string_bytes names.now))) }
{
    let mut files = Vec::new(alloc);
    for name in names {
        files.push(opener.open_one(alloc, name.as_str())?)?;
    }
    Ok(files)
}
