//! What the definitions say as a whole, each as the contract of a function that does nothing.
ghost use Rattle.enc_objects.specs.Laws.{CutsAreOfKinds, NumbersOfKindsStay, BinaryAreNamed, UnaryAreNamed, FieldsAreSet, OtherFieldsStay, StaticsAreSet, OtherStaticsStay, ElementsAreSet, OtherElementsStay, PartsStayApart, NewObjectsAreThere, OldObjectsStay, ObjectsStayThere};

/// A number that is cut to a kind is one of the kind's, and a number of the kind is cut to itself.
pub fn kind_laws()
    ensures cut { CutsAreOfKinds }
    ensures stays { NumbersOfKindsStay }
{}

/// The instructions on two values and on one are those of their names (ECMA-335 III.3).
pub fn instruction_laws()
    ensures two { BinaryAreNamed }
    ensures one { UnaryAreNamed }
{}

/// A store is a finite map: a field, a static or an element that is set has the value, a new object its content, and
/// everything else in the store is as it was.
pub fn store_laws()
    ensures field { FieldsAreSet }
    ensures other_fields { OtherFieldsStay }
    ensures statics { StaticsAreSet }
    ensures other_statics { OtherStaticsStay }
    ensures element { ElementsAreSet }
    ensures other_elements { OtherElementsStay }
    ensures apart { PartsStayApart }
    ensures new_objects { NewObjectsAreThere }
    ensures old_objects { OldObjectsStay }
    ensures objects { ObjectsStayThere }
{}
