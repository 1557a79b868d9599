//! What the definitions of fields owe, apart from how bytes are read and written.

ghost use Rattle.pb_wire.specs.Cause.{CausesAreFound, CausesAreOne, FieldsHaveNone};
ghost use Rattle.pb_wire.specs.InRow.{FieldsAreInRow, FieldsAreLongest, FaultIsAfter, FaultHasCause};
ghost use Rattle.pb_wire.specs.ReadBack.{FieldsAreReadBack, FieldIsReadBack, SpellingIsShortest};

/// The fields that are read from the start of the bytes on are those of the longest prefix that is spellings of
/// fields one after the other. Where this prefix is not all of the bytes, its length is the place of the fault, and the
/// bytes after it have the fault's cause.
pub fn fields_are_the_longest_prefix()
    ensures in_row { FieldsAreInRow }
    ensures longest { FieldsAreLongest }
    ensures fault { FaultIsAfter }
    ensures cause { FaultHasCause }
{}

/// Bytes begin with a field, or have one cause for which they begin with none.
pub fn causes_are_one()
    ensures found { CausesAreFound }
    ensures one { CausesAreOne }
    ensures none { FieldsHaveNone }
{}

/// What is written is read again, alone and between other bytes.
pub fn written_is_read()
    ensures fields { FieldsAreReadBack }
    ensures field { FieldIsReadBack }
{}

/// What is written is the shortest spelling that is read as that field.
pub fn written_is_shortest()
    ensures { SpellingIsShortest }
{}
