//! Octets and texts, appended.
ghost use Rattle.std.specs.Prelude.{◌≡◌, ◌++◌, ◌∷◌, true, IfSome};
ghost use Rattle.json.specs.Print.{escape, quoted};
ghost use Rattle.serde_json.specs.Written.{comma_if, compact_text};
ghost use Rattle.json_values.specs.Written.{text_data};

use xt_lists::Text;

#[inline(always)]
pub(crate) fn put(octets: &[u8], out: &mut Text) -> Option<()>
    ensures { IfSome result (λ u. out.new ≡ out.old ++ octets.now) }
{
    match out.append(octets) {
        Ok(()) => Some(()),
        Err(_) => None,
    }
}

/// A comma, where something stands before.
#[inline(always)]
pub(crate) fn put_comma(is_later: bool, out: &mut Text) -> Option<()>
    ensures { IfSome result (λ u. out.new ≡ out.old ++ comma_if is_later) }
{
    if is_later {
        put(b",", out)?;
    }
    Some(())
}

// Whether the octets stand in JSON as they are.
fn is_plain(octets: &[u8]) -> bool
    ensures { result ≡ true → escape octets.now ≡ octets.now }
{
    for octet in octets {
        if *octet < 32 {
            return false;
        }
        if *octet == 34 {
            return false;
        }
        if *octet == 92 {
            return false;
        }
    }
    true
}

/// Octets in quotes. None says nothing; it comes where one would be escaped, too.
pub(crate) fn put_quoted(octets: &[u8], out: &mut Text) -> Option<()>
    ensures { IfSome result (λ u. out.new ≡ out.old ++ quoted octets.now) }
{
    if !is_plain(octets) {
        return None;
    }
    put(b"\"", out)?;
    put(octets, out)?;
    put(b"\"", out)?;
    Some(())
}

/// A text in quotes. None says nothing; it comes for octets that are no UTF-8, too.
#[tactic(auto, using(json_values::proofs::Utf8::text_is))]
pub(crate) fn put_text(octets: &[u8], out: &mut Text) -> Option<()>
    ensures { IfSome result (λ u. out.new ≡ out.old ++ compact_text (text_data octets.now)) }
{
    match simdutf8::basic::from_utf8(octets) {
        Ok(_) => {
            put_quoted(octets, out)?;
            Some(())
        }
        Err(_) => None,
    }
}
