//! What the numbers of the lines are.

ghost use Rattle.script_text.specs.NumberLaws.{NumbersAreThoseOpened, NumbersRise};

/// A link has a line exactly where a turn of the script opens it. The lines stand by rising number, one for each link.
pub fn lines_are_of_opened_links()
    ensures opened { NumbersAreThoseOpened }
    ensures order { NumbersRise }
{}
