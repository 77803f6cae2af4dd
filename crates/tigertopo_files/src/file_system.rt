//! What a file system does.

ghost use Rattle.std.specs.Prelude.{◌≡◌, ℕ, Bool, true, false, is_some, List, [], Option, None, Some};
ghost use Rattle.std.specs.Prelude.{IfOk, IfErr, IfSome, OnOk, OnErr, map, option_map, string_bytes};
ghost use Rattle.tigertopo_files.specs.Files.{Under, standing, beside, trouble_of, IsRoom, IsFree, KeepsBut, KeepsEach};
ghost use Rattle.tigertopo_files.specs.Log.{Log, after_draft, with_settled};
ghost use Rattle.tigertopo_files.specs.Reading.{DoesAgain, IsReply, all_names, single_under, text_under};
ghost use Rattle.tigertopo_files.specs.World.{Does, world};
ghost use Rattle.tigertopo_files.specs.declared.beginning.FileKind.{FileKind};
ghost use Rattle.tl_cert_output.specs.Stops.{StopsFor};
ghost use Rattle.tl_cert_output.specs.Texts.{PrintsText};

use crate::beginning::FileKind;
use crate::lending::{Reading, Reply};
use std::alloc::{AllocError, Global};
use tl_cert_output::{Stop, Text};

/// Whether a file may be made of a name.
#[derive(Clone, Copy, Debug, PartialEq, Eq)]
pub enum Room {
    /// It may: nothing stands there, or an empty file, or one that begins as those of its kind do, or no regular file; and nothing
    /// stands under the name of one that isn't whole yet, or what an earlier run of its kind left there. None of these is read.
    Free,
    /// A regular file stands there that isn't empty and doesn't begin as those of its kind do.
    Taken,
    /// It is one of the files that are read.
    IsRead,
    /// Under the name of one that isn't whole yet stands what no earlier run of its kind left.
    TakenBeside,
    /// What stands under the name of one that isn't whole yet is one of the files that are read.
    IsReadBeside,
}

/// A new file, which isn't whole yet. It is of one kind, and is to take one name.
pub trait Draft {
    // The bytes that it holds, where they are known.
    ghost contents: { Self → Option (List ℕ) };

    // How many writes of it have failed.
    ghost failure_count: { Self → ℕ };

    // The name that it is to take.
    ghost target: { Self → List ℕ };

    ghost kind: { Self → FileKind };

    /// Writes a text into it. Where that stops, it isn't whole.
    fn print<T: Text>(&mut self, alloc: Global, text: &T) -> Result<(), Stop>
        requires { T.is_ready text.now }
        ensures printed { PrintsText contents failure_count self.old self.new (T.text text.now) result }
        ensures target { target self.new ≡ target self.old }
        ensures kind { kind self.new ≡ kind self.old };
}

/// Files by their names. A call that stops does so for want of memory, or since no file stands there or a device failed. A
/// new file stands beside its name until it is kept: what stood under the name stays till then, and no one sees a part of
/// the new one.
pub trait FileSystem {
    /// A new file, which is written.
    type Draft: Draft + Drop;

    // What stands under each name, where that is known.
    ghost under: { Self → Under };

    // What was done so far.
    ghost log: { Self → Log };

    // Whether it is known what is done, and what the bytes of new files are.
    ghost knows: { Bool };

    /// Opens the files that stand under these names, each once and in their order, and that of `single` behind them, has them read when
    /// all are open, and closes them. Where `counts`, it counts the lines of each but that of `single`, and reads what the reading left of
    /// them. A device fails where the bytes of one aren't known, a read of one failed, or as the reading says.
    fn read<Q: Reading>(
        &mut self,
        alloc: Global,
        names: &[String],
        single: Option<&String>,
        counts: bool,
        reading: &Q,
    ) -> Result<Reply<Q::Answer>, Stop>
        ensures { let known = text_under (under self.old) (map string_bytes names.now) in
            let alone = single_under (under self.old) (option_map (λ name. string_bytes name.now) single.entry) in
            Does (world under log knows self.old self.new)
            (all_names (map string_bytes names.now) (option_map (λ name. string_bytes name.now) single.entry)) None
            (IsReply (Q.answers reading.now known alone) (under self.old) (map string_bytes names.now) counts) (Q.stops reading.now known alone) result };

    /// Has the files read once more, as [`FileSystem::read`] does, where each of them can be read again from its
    /// beginning. `None` says that one can't: it is no regular file, as a pipe is none.
    fn read_again<Q: Reading>(
        &mut self,
        alloc: Global,
        names: &[String],
        single: Option<&String>,
        reading: &Q,
    ) -> Result<Option<Q::Answer>, Stop>
        ensures { let known = text_under (under self.old) (map string_bytes names.now) in
            let alone = single_under (under self.old) (option_map (λ name. string_bytes name.now) single.entry) in
            DoesAgain (world under log knows self.old self.new)
            (all_names (map string_bytes names.now) (option_map (λ name. string_bytes name.now) single.entry))
            (Q.answers reading.now known alone) (Q.stops reading.now known alone) result };

    /// Whether it may be that no line that was read begins as a record of type 1 does. Where it isn't followed what is read, it may.
    fn may_lack_chains(&self) -> bool
        ensures { knows ≡ true → result ≡ true };

    /// Why the file of a name can't be opened or read, in the system's words, and `None` where it can be. The error is that
    /// memory was refused.
    fn trouble(&self, alloc: Global, name: &str) -> Result<Option<String>, AllocError>
        ensures { IfOk result (λ words. IfSome (under self.now name.now) (λ file.
            option_map string_bytes words ≡ trouble_of file)) };

    /// Whether what is made under this name is no file: it goes straight to a pipe or a device, which stands there.
    fn passes(&self, name: &str) -> bool
        ensures { result ≡ true → under self.now name.now ≡ None };

    /// Why the last new file that wasn't made couldn't be, in the system's words: it couldn't be begun, a write of it failed, or it
    /// couldn't take its name. `None` where there is no such file. The error is that memory was refused.
    fn obstacle(&self, alloc: Global) -> Result<Option<String>, AllocError>
        ensures { IfOk result (λ words. knows ≡ true → words ≡ None) };

    /// From now on it is shown how far the reading of files is, where someone may see it; the file of this name is read last.
    fn show_progress(&mut self, last: String)
        ensures stays { under self.new ≡ under self.old }
        ensures logged { knows ≡ true → log self.new ≡ record (log self.old) { watched = Some (string_bytes last) } };

    /// Whether a new file of this kind may take a name, where those of these names are read.
    fn room(&self, alloc: Global, name: &str, read: &[String], kind: FileKind) -> Result<Room, Stop>
        ensures room { IfOk result (IsRoom (under self.now) name.now (map string_bytes read.now) kind) }
        ensures failed { IfErr result (StopsFor (under self.now name.now ≡ None)) };

    /// A new file of this kind that is to take a name, which it may, where those of these names are read. It is made when its first
    /// byte is written.
    fn draft(
        &mut self,
        alloc: Global,
        name: &str,
        read: &[String],
        kind: FileKind,
    ) -> Result<Self::Draft, Stop>
        requires { IsFree (under self.old) name.now (map string_bytes read.now) kind }
        ensures empty { IfOk result (λ file. IfSome (Self.Draft.contents file) (λ bytes. bytes ≡ [])) }
        ensures fresh { IfOk result (λ file. Self.Draft.failure_count file ≡ 0) }
        ensures target { IfOk result (λ file. Self.Draft.target file ≡ name.now) }
        ensures kind { IfOk result (λ file. Self.Draft.kind file ≡ kind) }
        ensures refused { IfErr result (StopsFor (knows ≡ false)) }
        ensures stays { under self.new ≡ under self.old }
        ensures logged { knows ≡ true → log self.new ≡ after_draft (log self.old) result };

    /// The new file takes its name, in place of what stood there. Where that fails, what stood there stays.
    fn keep(&mut self, alloc: Global, file: Self::Draft) -> Result<(), Stop>
        ensures refused { IfErr result (StopsFor (knows ≡ false)) }
        ensures kept { OnOk result (under self.new (Self.Draft.target file) ≡ standing (Self.Draft.contents file)) }
        ensures failed { OnErr result (KeepsEach (under self.old) (under self.new) (Self.Draft.target file)) }
        ensures others { KeepsBut (under self.old) (under self.new) (Self.Draft.target file) }
        ensures logged { knows ≡ true → log self.new ≡ with_settled (log self.old) (Self.Draft.failure_count file) };

    /// The new file is taken away.
    fn discard(&mut self, file: Self::Draft)
        ensures stays { KeepsEach (under self.old) (under self.new) (Self.Draft.target file) }
        ensures logged { knows ≡ true → log self.new ≡ with_settled (log self.old) (Self.Draft.failure_count file) };

    // The law that each implementation proves: they are of all new files, or of none.
    ghost alike: { (draft : Self.Draft) → is_some (Self.Draft.contents draft) ≡ knows };
}
