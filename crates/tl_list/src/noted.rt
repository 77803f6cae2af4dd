//! What is noted of lines while they are read, so that it can be told where records and refused lines stand.

ghost use Rattle.std.specs.Prelude.{◌≡◌, true, IfOk};

use std::alloc::{AllocError, Global};
use tl_list_text::NotedRecords;
use tl_record::Refusal;

/// Records with the numbers of their lines, and the first bytes of refused lines.
#[derive(Drop)]
pub struct NotedLines {
    /// Each record with its line's number, counted from 1, in the order of the text: as it stands there, before chains are joined.
    pub records: NotedRecords,
    /// The first bytes of each refused line, 1,024 at most, in the order of the text; of one beyond the greatest number of a line there
    /// are none.
    pub fronts: Vec<Vec<u8>>,
}

impl NotedLines {
    ghost use Rattle.std.specs.Prelude.{◌∷◌, [], ◌++◌, OnOk, drop, length, map};
    ghost use Rattle.tl_list.specs.Keeping.Noting.{bytes_of, no_front};

    /// Nothing.
    pub(crate) fn new(alloc: Global) -> NotedLines
        ensures records { result.records ≡ [] }
        ensures fronts { result.fronts.items ≡ [] }
    {
        NotedLines {
            records: NotedRecords::new(alloc),
            fronts: Vec::new(alloc),
        }
    }

    /// Adds the first bytes of a refused line, where that is asked.
    pub(crate) fn add_front(&mut self, notes: bool, front: Vec<u8>) -> Result<(), AllocError>
        ensures added { OnOk result (notes ≡ true → bytes_of self.new.fronts.items ≡ bytes_of self.old.fronts.items ++ front.items ∷ []) }
        ensures records { self.new.records ≡ self.old.records }
    {
        if notes {
            self.fronts.push(front)?;
        }
        Ok(())
    }

    /// Adds nothing for each of these refused lines that is behind those of which something was added, where that is asked.
    pub(crate) fn end_fronts(
        &mut self,
        alloc: Global,
        notes: bool,
        refused: &[Refusal],
    ) -> Result<(), AllocError>
        ensures added { OnOk result (notes ≡ true → bytes_of self.new.fronts.items
            ≡ bytes_of self.old.fronts.items ++ map no_front (drop (length self.old.fronts.items) refused.now)) }
        ensures records { self.new.records ≡ self.old.records }
    {
        if !notes {
            return Ok(());
        }
        let known = self.fronts.len().min(refused.len());
        for _refusal in &refused[known..] {
            self.fronts.push(Vec::new(alloc))?;
        }
        Ok(())
    }
}

/// These bytes, where something is noted.
pub(crate) fn front_noted(alloc: Global, notes: bool, bytes: &[u8]) -> Result<Vec<u8>, AllocError>
    ensures { IfOk result (λ front. notes ≡ true → front.items ≡ bytes.now) }
{
    if notes {
        Vec::from_slice(alloc, bytes)
    } else {
        Ok(Vec::new(alloc))
    }
}
