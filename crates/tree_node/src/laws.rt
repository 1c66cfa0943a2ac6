//! Laws of the definitions, and worked examples. Each function does nothing: its clauses are the law.

ghost use Rattle.tree_node.specs.Classes.{RootsTellClasses, NodesAreDet, NoneHasNone, SoundHasOne, OneNamesClass, RootNamesClass};
ghost use Rattle.tree_node.specs.Fields.{FeaturesAreDistinct, PlacesTellFeatures, OrderTellsFields};
ghost use Rattle.tree_node.specs.Compare.{EqualIsTold, EqualIsFound, DifferentIsTold, DifferentIsFound, OpenIsTold, OpenIsAll, NeverBoth, EqualStays, DifferentStays, DifferentIsNeverSame, OpenStays, OpenListStays, MoreIsWithin, AgreeingAnswer};
ghost use Rattle.tree_node.specs.ShownStays.{ShownStays};
ghost use Rattle.tree_node.specs.Rows.{RingIsCut, FieldsByName, FieldsByPlace, OtherBar, ListInList, ThreeNodes, OneNode, FieldIsNeeded, CutIsNotNeeded, ProcShows, CellShows, PortShows, LeastShows, ReservedShows, EmptyShows, PartsAreTold, EitherIsBound, RingIsMet, PairsAreCompared};

/// Two variables have one root exactly where a path of equations joins them.
pub fn roots_tell_classes()
    ensures { RootsTellClasses }
{}

/// A node that is found is one of the class, and none is found only where the class has none.
pub fn nodes_tell_det()
    ensures found { NodesAreDet }
    ensures none { NoneHasNone }
{}

/// In a sound store a class has one node at most, and the root of one without a node has no equation of its own.
pub fn sound_stores()
    ensures one_node { SoundHasOne }
    ensures root { RootNamesClass }
{}

/// Where each variable has one equation of its own at most, one variable at most of a class has none.
pub fn one_names_class()
    ensures { OneNamesClass }
{}

/// Fields in order have each feature once, and are compared place by place.
pub fn fields_in_order()
    ensures distinct { FeaturesAreDistinct }
    ensures places { PlacesTellFeatures }
    ensures same { OrderTellsFields }
{}

/// A comparison answers that two variables are equal, or different, exactly where they are, and never both. Else it answers
/// the open variables of all pairs that it comes to, which do not depend on how deep one looks beyond the depth of the store.
pub fn comparisons_are_exact()
    ensures equal { EqualIsTold }
    ensures equal_found { EqualIsFound }
    ensures different { DifferentIsTold }
    ensures different_found { DifferentIsFound }
    ensures open_told { OpenIsTold }
    ensures all { OpenIsAll }
    ensures one { NeverBoth }
{}

/// What is equal or different stays so in every sound store that says more, as one with more equations does, and what is
/// different is never of one class.
/// What is open stays open, and its list stays, as long as none of its variables is bound. Stores that say the same answer alike.
pub fn comparisons_stay()
    ensures equal { EqualStays }
    ensures different { DifferentStays }
    ensures apart { DifferentIsNeverSame }
    ensures open_stays { OpenStays }
    ensures list { OpenListStays }
    ensures more { MoreIsWithin }
    ensures agreeing { AgreeingAnswer }
{}

/// What shows as a text shows so in each sound store that says more, and what needs a variable needs it there as long as that has no node.
pub fn shown_stays()
    ensures { ShownStays }
{}

/// Records and lists as they are shown.
pub fn shown_records()
    ensures ring { RingIsCut }
    ensures names { FieldsByName }
    ensures places { FieldsByPlace }
    ensures bar { OtherBar }
    ensures nested { ListInList }
{}

/// Where nodes run out, and which variables are needed.
pub fn shown_cuts()
    ensures three { ThreeNodes }
    ensures one { OneNode }
    ensures needed { FieldIsNeeded }
    ensures not_needed { CutIsNotNeeded }
{}

/// Single nodes as they are shown.
pub fn shown_nodes()
    ensures procedure { ProcShows }
    ensures cell { CellShows }
    ensures port { PortShows }
    ensures least { LeastShows }
    ensures reserved { ReservedShows }
    ensures empty { EmptyShows }
{}

/// What pairs of goals lead to: records part by part, two variables, and a pair that was met.
pub fn worked_goals()
    ensures parts { PartsAreTold }
    ensures either { EitherIsBound }
    ensures ring { RingIsMet }
{}

/// Comparisons: of records that differ in one field, of records whose fields tell nothing alone, of a ring, of other kinds of nodes,
/// and of variables.
pub fn worked_comparisons()
    ensures { PairsAreCompared }
{}
