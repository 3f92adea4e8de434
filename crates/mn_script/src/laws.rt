ghost use Rattle.mn_script.specs.Laws.{ReadIsRight, RefusalIsFirst, WrittenIsRead};

/// What a text spells meets the rules and limits of a script.
pub fn read_is_right()
    ensures { ReadIsRight }
{}

/// The text that `write_script` gives reads as that script, unless it is too long.
pub fn written_is_read()
    ensures { WrittenIsRead }
{}

/// The line at which a text is refused is the first at which it can't go on to be a script.
pub fn refusal_is_first()
    ensures { RefusalIsFirst }
{}
