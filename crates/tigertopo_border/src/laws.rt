//! Laws of borders, each the contract of a function that does nothing.

ghost use Rattle.std.specs.Prelude.{◌≡◌, ◌↔◌, ℕ, Bool, List, map};
ghost use Rattle.std.specs.List.{flat_map};
ghost use Rattle.tl_record.specs.declared.record.Record.{Record};
ghost use Rattle.tl_record.specs.declared.judge.Judgement.TheVariants.{Read};
ghost use Rattle.tl_record.specs.declared.options.Options.{Options};
ghost use Rattle.tl_record.specs.declared.options.TheConstants.{PLAIN};
ghost use Rattle.tl_record.specs.Layout.{tiger_2006, layout_with};
ghost use Rattle.tl_record.specs.Records.{records_of};
ghost use Rattle.tl_record.specs.Judgement.{content_judgement};
ghost use Rattle.tl_map_county.specs.TheMap.{TheMap};
ghost use Rattle.tl_map.specs.Joined.Told.{joined_records};
ghost use Rattle.tl_map_rules.specs.MapOf.{IsMapOf};
ghost use Rattle.tl_map_rules.specs.Reading.{IsReadFrom};
ghost use Rattle.tigertopo_border.specs.Whole.Joined.{IsJoined};
ghost use Rattle.tigertopo_files.specs.Joining.{joined};
ghost use Rattle.tigertopo_border.specs.Whole.Sound.{IsSoundWithFaces, AreSoundWithFaces};
ghost use Rattle.tigertopo_border.specs.Spelling.{record_line};
ghost use Rattle.tigertopo_border.specs.Spellable.{IsName, IsSpellable};
ghost use Rattle.tigertopo_border.specs.Readable.{IsReadable};
ghost use Rattle.tigertopo_border.specs.Again.{IsReadAgain};
ghost use Rattle.tigertopo_border.specs.Parts.{all_records, homes_of, HaveNoFaultButMany, DrawParts};
ghost use Rattle.tigertopo_border.specs.InParts.{joining, border_texts, IsDrawnTogether, IsReadTogether, AreReadApart, AreNames, EmptyComeLast, IsDrawnInParts};

/// What is spelt is read again: the line of each record that can be spelt means that record.
pub fn what_is_spelt_is_read()
    ensures { (r : Record) → IsSpellable r → content_judgement tiger_2006 (record_line r) ≡ Read r }
{}

/// So the text of a map's border is records that draw the border, and nothing else, where the map can be told in records.
pub fn a_border_is_read_again()
    ensures { (name : List ℕ) (m : TheMap) → IsName name → IsReadable m → IsReadAgain name m }
{}

/// As each map can that the records of a text draw.
pub fn what_records_draw_can_be_told()
    ensures { (options : Options) (text : List ℕ) (m : TheMap) → IsReadFrom (records_of (layout_with options) text) m → IsReadable m }
{}

/// So the border of the map of a text's records is read again.
pub fn a_border_of_records_is_read_again()
    ensures { (name : List ℕ) (options : Options) (text : List ℕ) (m : TheMap) → IsName name →
        IsReadFrom (records_of (layout_with options) text) m → IsReadAgain name m }
{}

/// The map of joined records is joined from the maps of the parts that they come in. Each list of records, joined itself or as it stands, has
/// no fault but that it may be too long, and draws a map; so do the records of all lists, joined and without those of landmarks. Then their
/// map is joined from the maps of the lists, with the polygons of each behind those of the lists before it.
pub fn joined_records_draw_a_joined_map()
    ensures { (join : Bool) (lists : List (List Record)) (parts : List TheMap) (joined_map : TheMap) → DrawParts join lists parts →
        HaveNoFaultButMany (joined_records (all_records lists)) → IsMapOf (joined_records (all_records lists)) joined_map →
        IsJoined (homes_of parts) parts joined_map }
{}

/// So the map that several texts draw together is joined from the maps that are read of each text by itself: without `--join`, as of
/// counties, or with it, as of states whose texts are those of their counties.
pub fn texts_draw_a_joined_map()
    ensures { (options : Options) (texts : List (List ℕ)) (parts : List TheMap) (drawn : TheMap) → AreReadApart options texts parts →
        IsDrawnTogether options texts drawn → IsJoined (homes_of parts) parts drawn }
{}

/// What is read of them as one, with `--join`, they draw together.
pub fn what_is_read_as_one_is_drawn_together()
    ensures { (options : Options) (texts : List (List ℕ)) (parts : List TheMap) (read : TheMap) → AreReadApart options texts parts →
        IsReadTogether options texts read → IsDrawnTogether options texts read }
{}

/// So a nation is decided by the texts of its counties one by one, and then by the texts of their borders alone: the map that all counties
/// draw together, be they more than can be read as one, is sound and its faces are true exactly where this holds of the map of each county,
/// and of the map that the texts of their borders draw. It is said of counties in an order in which those without a polygon come last.
pub fn counties_and_their_borders_are_enough()
    ensures { (options : Options) (texts names : List (List ℕ)) (parts : List TheMap) (drawn border : TheMap) →
        IsDrawnInParts options texts names parts drawn border → IsSoundWithFaces drawn ↔ (AreSoundWithFaces parts × IsSoundWithFaces border) }
{}

/// In steps, then: the map that all counties draw together is sound and its faces are true exactly where this holds of the map of each
/// county, of the map of each state, which is read of its counties' borders as one, and of the map that the states' borders draw. It is
/// said of counties, and of states, in an order in which those without a polygon come last.
pub fn counties_and_states_are_enough()
    ensures { (options : Options) (texts names state_names : List (List ℕ)) (groups : List (List (List ℕ))) (parts states : List TheMap)
        (drawn border nation : TheMap) →
        IsDrawnInParts options texts names parts drawn border → flat_map (λ group. group) groups ≡ border_texts names parts →
        AreReadApart (joining PLAIN) (map joined groups) states → EmptyComeLast states → AreNames state_names states →
        IsDrawnTogether PLAIN (border_texts state_names states) nation →
        IsSoundWithFaces drawn ↔ (AreSoundWithFaces parts × AreSoundWithFaces states × IsSoundWithFaces nation) }
{}
