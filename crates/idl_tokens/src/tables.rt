ghost use Rattle.std.specs.Prelude.{◌≡◌, map};
ghost use Rattle.idl_tokens.specs.Tables as spec;

use crate::tokens::same;

/// What stands beside a word in a table, at its first place; None where the table hasn't the word.
pub fn beside<T: Copy>(mut table: &[(&[u8], T)], word: &[u8]) -> Option<T>
    ensures { result ≡ spec.beside (map (λ entry. (entry.0.now, entry.1)) table.entry.now) word.now }
{
    while let [entry, rest @ ..] = table {
        if same(entry.0, word) {
            return Some(entry.1);
        }
        table = rest;
    }
    None
}
