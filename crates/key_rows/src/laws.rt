//! Laws over the definitions. Each function's contract is one law; its body does nothing.
ghost use Rattle.key_rows.specs.Positions.{CutKeysAreGiven};
ghost use Rattle.key_rows.specs.Laws.{PlacesAgreeInEitherOrder, GivenKeysAreOne, RowsSayAllInputs, ClassesAreEqualFields, SpreadingKeysVary};

/// Two places of an object say the same in either order.
pub fn places_agree_in_either_order()
    ensures { PlacesAgreeInEitherOrder }
{}

/// The given keys are one: two that are nearest are equal.
pub fn given_keys_are_one()
    ensures { GivenKeysAreOne }
{}

/// A key gives two inputs of a family different table indices exactly where one of its
/// bits is 1 that meet the index.
pub fn spreading_keys_vary()
    ensures { SpreadingKeysVary }
{}

/// Two keys hash all tied inputs alike exactly where the windows of each class add up to 0 modulo
/// 2.
pub fn rows_say_all_inputs()
    ensures { RowsSayAllInputs }
{}

/// Two fields are of one class exactly where they are equal in all tied inputs.
pub fn classes_are_equal_fields()
    ensures { ClassesAreEqualFields }
{}

/// What is nearest in 319 bits of each key, cut to its ports' positions, is nearest in these.
pub fn cut_keys_are_given()
    ensures { CutKeysAreGiven }
{}
