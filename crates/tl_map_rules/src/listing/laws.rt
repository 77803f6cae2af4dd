//! What holds of the definitions alone. Each law is a function that does nothing: its contract is the law.

ghost use Rattle.std.specs.Prelude.{◌≡◌, ◌≢◌, ℕ, ◌<◌, List, length, slice_index_or};
ghost use Rattle.tl_record.specs.declared.record.Record.{Record};
ghost use Rattle.tl_map_rules.specs.declared.fault.RecordFault.{RecordFault};
ghost use Rattle.tl_map_rules.specs.Listing.AllFaults.{AreAllFaults};

/// A list of records has one list of all faults at most.
pub fn records_have_one_list()
    ensures { (rs : List Record) (a b : List RecordFault) → AreAllFaults rs a → AreAllFaults rs b → a ≡ b }
{}

/// No fault stands in it twice.
pub fn no_fault_stands_twice()
    ensures { (rs : List Record) (faults : List RecordFault) (i j : ℕ) (d : RecordFault) → AreAllFaults rs faults → i < j →
        j < length faults → slice_index_or faults i d ≢ slice_index_or faults j d }
{}
