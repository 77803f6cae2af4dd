//! What holds of the definitions alone. Each law is a function that does nothing: its contract is the law.

ghost use Rattle.std.specs.Prelude.{◌≡◌, IsTrue, List};
ghost use Rattle.tl_record.specs.declared.record.Record.{Record};
ghost use Rattle.tl_record.specs.Records.{Records};
ghost use Rattle.tl_map_county.specs.TheMap.{TheMap};
ghost use Rattle.tl_map_rules.specs.MapOf.{IsMapOf};
ghost use Rattle.tl_map_rules.specs.Faults.{HaveNoFault};
ghost use Rattle.tl_map_rules.specs.Lacking.{IsComplete};
ghost use Rattle.tl_map_rules.specs.Reading.{IsReadFrom, records_in};

/// A list of records draws one map at most.
pub fn records_draw_one_map()
    ensures { (rs : List Record) (m n : TheMap) → HaveNoFault rs → IsMapOf rs m → IsMapOf rs n →
        (m.chains ≡ n.chains) × (m.polygons ≡ n.polygons) × (m.landmarks ≡ n.landmarks) }
{}

/// Where records of each of the types 1, I and P are asked for, a map is read only of a text that has some.
pub fn a_map_has_what_is_asked_for()
    ensures { (all : Records) (m : TheMap) → IsReadFrom all m → IsTrue all.complete → IsComplete (records_in all) }
{}
