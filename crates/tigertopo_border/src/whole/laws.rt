//! Laws of the definitions, each the contract of a function that does nothing.

ghost use Rattle.std.specs.Prelude.{◌≡◌, ◌↔◌, ℕ, ℤ, pos, Bool, true, false, Some, List, slice_get, if◌then◌else◌};
ghost use Rattle.tl_geom.specs.declared.rational.Rational.{Rational};
ghost use Rattle.tl_map_county.specs.declared.sides.Side.{Side};
ghost use Rattle.tl_map_county.specs.declared.sides.Side.TheVariants.{Outside};
ghost use Rattle.tl_map_county.specs.TheMap.{TheMap, MapChain};
ghost use Rattle.tl_check_planar.specs.Planar.{IsPlanar, IsOnChain};
ghost use Rattle.tl_check_sides.specs.Sides.{SidesAgree, IsClosed};
ghost use Rattle.tl_check_sides.specs.Cells.Cells.{CellsAgree};
ghost use Rattle.tl_check_inside.specs.Inside.{is_polygon, IsCountAt};
ghost use Rattle.tl_check_faces.specs.Crossings.Headings.{AreProper};
ghost use Rattle.tl_check_faces.specs.Clear.{IsOffBoundary};
ghost use Rattle.tl_check_faces.specs.Truth.{AreFacesTrue, AreSidesTrue};
ghost use Rattle.tl_check_verdict.specs.Sound.{IsSoundFor};
ghost use Rattle.tigertopo_border.specs.Whole.Told.{AreTold};
ghost use Rattle.tigertopo_border.specs.Whole.Homes.{Homes, is_named};
ghost use Rattle.tigertopo_border.specs.Whole.Joined.{IsJoined, IsBorder};
ghost use Rattle.tigertopo_border.specs.Whole.Borders.{IsBorderOf, AreBordersOf, of_borders, AreTlidsRising};
ghost use Rattle.tigertopo_border.specs.Whole.Lines.{DoPolygonsStay};
ghost use Rattle.tigertopo_border.specs.Whole.Sound.{IsSoundWithFaces, AreSoundWithFaces};

/// A joined map is sound and its faces are true exactly where this holds of each of its parts, and of their joined borders. So a nation
/// is decided by its counties, each by itself, and then by their borders alone.
pub fn parts_are_enough()
    ensures { (homes : Homes) (parts borders : List TheMap) (joined border : TheMap) → IsJoined homes parts joined → AreBordersOf parts borders →
        IsJoined (of_borders homes) borders border → AreProper joined.chains → AreTlidsRising joined.chains → AreTlidsRising border.chains →
        IsSoundWithFaces joined ↔ (AreSoundWithFaces parts × IsSoundWithFaces border) }
{}

/// For the joined borders of all parts are the border between the parts: of the joined map's chains those whose sides aren't both of one
/// part, on which each part is one polygon.
pub fn joined_borders_are_the_border()
    ensures { (homes : Homes) (parts borders : List TheMap) (joined border : TheMap) → IsJoined homes parts joined → AreBordersOf parts borders →
        IsJoined (of_borders homes) borders border → AreTlidsRising joined.chains → AreTlidsRising border.chains → IsBorder homes joined border }
{}

/// And a joined map is sound and its faces are true exactly where this holds of its parts and of the border between them.
pub fn parts_and_the_border_are_enough()
    ensures { (homes : Homes) (parts : List TheMap) (joined border : TheMap) → IsJoined homes parts joined → IsBorder homes joined border →
        AreProper joined.chains → IsSoundWithFaces joined ↔ (AreSoundWithFaces parts × IsSoundWithFaces border) }
{}

/// A border of the border between parts is one of the joined map. So a state's border can be taken from its counties' borders, and a nation
/// be decided in steps: counties, the joined borders of each state's counties, and the joined borders of states.
pub fn a_border_of_the_border_is_one_of_the_map()
    ensures { (homes : Homes) (joined border own : TheMap) → IsBorder homes joined border → IsBorderOf border own → IsBorderOf joined own }
{}

/// Any chains of a map can be told with their sides by any names. So each map can be cut into parts, and has a border between them.
pub fn any_chains_can_be_told()
    ensures { (names : Side → Side) (told : MapChain → Bool) (chains : List MapChain) → (others : List MapChain) × AreTold names told chains others }
{}

/// What is asked here of each map is what `audit` asks with `--faces`, where zero-cell ids agree, as where none are read.
pub fn it_is_what_is_asked_with_faces()
    ensures { (m : TheMap) → CellsAgree m.chains → IsSoundFor true m ↔ IsSoundWithFaces m }
{}

/// Where some chains of a map are told with their sides by other names, they count what all chains count by these names, if each chain
/// that is left out has one name on both sides.
pub fn told_chains_count_as_all()
    ensures { (names : Side → Side) (told : MapChain → Bool) (chains others : List MapChain) (q : Rational) (S : Side → Bool) (n : ℤ) →
        AreTold names told chains others → ((chain : MapChain) → told chain ≡ false → names chain.left ≡ names chain.right) →
        AreProper chains → IsCountAt others q S n ↔ IsCountAt chains q (λ s. S (names s)) n }
{}

/// So at each place the sum of the counts of all polygons of a part is the count of its name in the border: a chain with polygons of the
/// part on both sides adds as much as it takes.
pub fn a_part_counts_as_its_name()
    ensures { (homes : Homes) (parts : List TheMap) (joined border : TheMap) (k : ℕ) (part : TheMap) (q : Rational) (n : ℤ) →
        IsJoined homes parts joined → IsBorder homes joined border → AreProper joined.chains → slice_get parts k ≡ Some part →
        IsCountAt part.chains q is_named n ↔ IsCountAt border.chains q (is_polygon k) n }
{}

/// What a chain names lies on it, too: where a map is sound and its faces are true, the count of any sides at a place on a chain is 1 if
/// the chain has one of them on its left, and else 0, as long as the place is not of their boundary.
pub fn what_a_chain_names_lies_on_it()
    ensures { (chains : List MapChain) (c : ℕ) (chain : MapChain) (r : Rational) (S : Side → Bool) → AreProper chains → IsPlanar chains →
        SidesAgree chains → AreFacesTrue chains → slice_get chains c ≡ Some chain → IsOnChain chain.points r → S Outside ≡ false →
        IsOffBoundary chains S r → IsCountAt chains r S (if S chain.left then pos 1 else pos 0) }
{}

/// Where chains are planar, each side names what lies there, and counts stay along straight lines that meet no chain, sides agree about
/// nodes: such lines lead about a node from beside each dart to beside the next one.
pub fn sides_agree_where_they_are_true()
    ensures { (chains : List MapChain) → AreProper chains → IsPlanar chains → AreSidesTrue chains → DoPolygonsStay chains → SidesAgree chains }
{}

/// Where chains are planar and sides agree about nodes, the boundary of every side is closed rings: there are such rings.
pub fn boundaries_are_closed()
    ensures { (chains : List MapChain) (side : Side) → AreProper chains → IsPlanar chains → SidesAgree chains → IsClosed chains side }
{}

/// Where some chains of a sound map whose faces are true are told with their sides by other names, they are planar, their sides agree and
/// their faces are true, if the outside keeps its name and each chain that is left out has one name on both sides.
pub fn told_chains_are_sound()
    ensures planar { (names : Side → Side) (told : MapChain → Bool) (chains others : List MapChain) → AreTold names told chains others →
        IsPlanar chains → IsPlanar others }
    ensures sides { (names : Side → Side) (told : MapChain → Bool) (chains others : List MapChain) → AreTold names told chains others →
        names Outside ≡ Outside → ((chain : MapChain) → told chain ≡ false → names chain.left ≡ names chain.right) →
        AreProper chains → IsPlanar chains → SidesAgree chains → AreFacesTrue chains → SidesAgree others }
    ensures faces { (names : Side → Side) (told : MapChain → Bool) (chains others : List MapChain) → AreTold names told chains others →
        names Outside ≡ Outside → ((chain : MapChain) → told chain ≡ false → names chain.left ≡ names chain.right) →
        AreProper chains → IsPlanar chains → SidesAgree chains → AreFacesTrue chains → AreFacesTrue others }
{}
