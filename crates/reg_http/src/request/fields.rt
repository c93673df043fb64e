//! The fields of a head.
ghost use Rattle.std.specs.Prelude.{◌≡◌, ℕ, List, [], ◌∷◌, ◌++◌, length, map, All};
ghost use Rattle.std.specs.Str.{str_eq_ignore_ascii_case};
ghost use Rattle.httparse.specs.Spans.{header_bytes, IsHeaderWithin};
ghost use Rattle.reg_http.specs.Fields.{values_of, AreValues};

use httparse::spans::HeaderSpan;

/// The values of the fields of this name, whatever the case of its letters.
pub(crate) fn values_named<'b>(buf: &'b [u8], headers: &[HeaderSpan], name: &[u8]) -> Values<'b>
    requires { All (IsHeaderWithin (length buf.now)) headers.now }
    ensures { AreValues (values_of name.now (map (header_bytes buf.now) headers.now)) result }
{
    let mut found = Values::Absent;
    for header in headers {
        if is_same_name(header.name.of(buf), name) {
            found = found.and(header.value.of(buf));
        }
    }
    found
}

/// The values of the fields of one name.
#[derive(Clone, Copy, Debug)]
pub(crate) enum Values<'b> {
    /// No field has the name.
    Absent,
    /// One field has it.
    One(&'b [u8]),
    /// Several fields have it.
    Many,
}

impl<'b> Values<'b> {
    /// These values and one more.
    fn and(self, value: &'b [u8]) -> Values<'b>
        ensures { (values : List (List ℕ)) → AreValues values self.entry → AreValues (values ++ value.now ∷ []) result }
    {
        match self {
            Values::Absent => Values::One(value),
            _ => Values::Many,
        }
    }
}

fn is_same_name(a: &[u8], b: &[u8]) -> bool
    ensures { result ≡ str_eq_ignore_ascii_case a.now b.now }
{
    a.eq_ignore_ascii_case(b)
}
