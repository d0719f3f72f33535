ghost use Rattle.dynamic_data.specs.numbers.Laws as law;

/// A text that means a value still means it where numbers stand for raw bits.
pub fn numbers_come_back()
    ensures { law.NumbersComeBack }
{}

/// A text without such numbers means the same.
pub fn bits_are_read()
    ensures { law.BitsAreRead }
{}

/// The JSON of a value of a type without floats is also its JSON with numbers.
pub fn plain_is_shown()
    ensures { law.PlainIsShown }
{}

/// For such a type a text means the same where floats may be numbers.
pub fn plain_is_read()
    ensures { law.PlainIsRead }
{}
