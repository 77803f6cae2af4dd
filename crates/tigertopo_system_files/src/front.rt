//! What the front of a file tells of it.

ghost use Rattle.std.specs.Prelude.{◌≡◌, ◌≤◌, IfOk, IfSome, length, min, take};
ghost use Rattle.tigertopo_files.specs.Files.{beginning_of, may_go as may_go_of, may_be_left as may_be_left_of};

use std::io;
use std::io::Read;
use tigertopo_files::{FRONT, FileKind, first_bytes, may_be_left, may_go};

/// Whether a file of this size may be written over by one of the kind: it is empty, or begins as those of the kind do.
pub fn is_of_kind<T: Read>(file: &mut T, size: u64, kind: FileKind) -> io::Result<bool>
    ensures { IfOk result (λ goes. IfSome (T.remaining file.old) (λ bytes. goes ≡ may_go_of kind (take size bytes))) }
{
    let mut front = [0; FRONT];
    let front = front_of(file, size, kind, &mut front)?;
    Ok(may_go(kind, front))
}

/// Whether a file of this size may be one of the kind that an earlier run left unfinished: it begins as those of the kind do, or
/// ends before that could be told.
pub fn is_unfinished<T: Read>(file: &mut T, size: u64, kind: FileKind) -> io::Result<bool>
    ensures { IfOk result (λ is_left. IfSome (T.remaining file.old)
        (λ bytes. is_left ≡ may_be_left_of kind (take size bytes))) }
{
    let mut front = [0; FRONT];
    let front = front_of(file, size, kind, &mut front)?;
    Ok(may_be_left(kind, front))
}

// As many bytes from the front of a file of this size as the beginning of the kind has, or all where it has fewer.
fn front_of<'a, T: Read>(
    file: &mut T,
    size: u64,
    kind: FileKind,
    front: &'a mut [u8; FRONT],
) -> io::Result<&'a [u8]>
    ensures { IfOk result (λ front. IfSome (T.remaining file.old)
        (λ bytes. front.now ≡ take (min size (length (beginning_of kind))) bytes)) }
{
    let count = count_of(size, kind);
    file.read_exact(&mut front[..count])?;
    Ok(&front[..count])
}

// How many bytes from the front of a file of this size are looked at.
fn count_of(size: u64, kind: FileKind) -> usize
    ensures count { result ≡ min size (length (beginning_of kind)) }
    ensures short { result ≤ FRONT }
{
    let whole = first_bytes(kind).len();
    if size < whole as u64 {
        size as usize
    } else {
        whole
    }
}
