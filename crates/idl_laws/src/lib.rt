//! The laws that tie the reader of IDL texts to the printer: a printed text declares the types that it was printed from, and in `parsed`,
//! what a text declares can be printed.
#![tactic(auto)]

ghost use Rattle.idl_laws.specs.Laws as law;

/// What is printed of a printable list of types declares the same types again, by the same full names and in the same order (as trees, with
/// all names, ids, bounds, annotations and bases). A list is printable where each type is valid and its modules, names and labels are words
/// and characters that a text can have, and each type in a type, and each base, stands in the list before (`specs/Printable.antt`).
pub fn printed_is_read_again()
    ensures { law.PrintedIsReadAgain }
{}

pub mod parsed;
