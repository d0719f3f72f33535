ghost use Rattle.idl_laws.specs.parsed.Laws as law;

/// Whatever a text declares is a list that can be printed: its full names are apart, each name is free of keywords, and each type is valid and
/// made of parts that have a text, where the types with names stand before it.
pub fn parsed_is_printable()
    ensures { law.ParsedIsPrintable }
{}

/// Of whatever a text declares a text is printed that declares the same types again, under the same full names and in the same order.
pub fn parsed_is_read_again()
    ensures { law.ParsedIsReadAgain }
{}
