//! The fields of a head by their names.
ghost use Rattle.std.specs.Prelude.{◌≡◌, ◌≢◌, ◌<◌, ◌↔◌, [], ◌∷◌, length, All, IfSome, IfNone, IsTrue, MatchBool, codes};
ghost use Rattle.std.specs.Str.{str_eq_ignore_ascii_case};
ghost use Rattle.httparse.specs.Spans.{IsHeaderWithin};

use httparse::spans::HeaderSpan;

/// The fields of a head, as spans of its bytes.
#[derive(Clone, Copy)]
pub(crate) struct Fields<'a> {
    pub(crate) bytes: &'a [u8],
    pub(crate) spans: &'a [HeaderSpan],
    pub ghost within: { All (IsHeaderWithin (length bytes.now)) spans.now },
}

/// The values of the fields of one name, in their order. The name is written in any case.
#[derive(Clone, Copy)]
pub(crate) struct Values<'a> {
    pub(crate) fields: Fields<'a>,
    pub(crate) name: &'a [u8],
}

/// Whether two names are one, in any case.
fn is_name(name: &[u8], wanted: &[u8]) -> bool
    ensures { result ≡ str_eq_ignore_ascii_case name.now wanted.now }
{
    name.eq_ignore_ascii_case(wanted)
}

impl<'a> Iterator for Values<'a> {
    ghost use Rattle.std.specs.Iterator.{YieldsFirstBy, item_count};
    ghost use Rattle.beam_http.specs.Values.{values_left};

    type Item = &'a [u8];

    ghost next_gives = { YieldsFirstBy (λ value. value.now) values_left };

    ghost remaining = { item_count values_left };

    #[tactic(auto, using(crate::proofs::FieldLemmas::values_first, crate::proofs::FieldLemmas::values_behind))]
    fn next(&mut self) -> Option<&'a [u8]> {
        while let Some((span, rest)) = self.fields.spans.split_first() {
            let bytes = self.fields.bytes;
            self.fields = Fields { bytes, spans: rest };
            if is_name(span.name.of(bytes), self.name) {
                return Some(span.value.of(bytes));
            }
        }
        None
    }
}

impl<'a> Fields<'a> {
    ghost use Rattle.beam_http.specs.Fields.{values_of, LacksBody};
    ghost use Rattle.beam_http.specs.Values.{fields_in, values_left};

    /// The values of the fields of that name.
    pub(crate) fn values(&self, name: &'a [u8]) -> Values<'a>
        ensures { values_left result ≡ values_of name.now (fields_in self.now) }
    {
        Values {
            fields: *self,
            name,
        }
    }

    /// The value of the only field of that name. `None` where there is none, or more than one.
    pub(crate) fn only(&self, name: &'a [u8]) -> Option<&'a [u8]>
        ensures some { IfSome result (λ value. values_of name.now (fields_in self.now) ≡ value.now ∷ []) }
        ensures none { IfNone result (length (values_of name.now (fields_in self.now)) ≢ 1) }
    {
        let mut values = self.values(name);
        let value = values.next()?;
        match values.next() {
            Some(_second) => None,
            None => Some(value),
        }
    }

    /// Whether there is a field of that name.
    pub(crate) fn has(&self, name: &'a [u8]) -> bool
        ensures { MatchBool result (0 < length (values_of name.now (fields_in self.now))) (values_of name.now (fields_in self.now) ≡ []) }
    {
        self.values(name).next().is_some()
    }

    /// Whether each length of a body that is said is 0.
    fn has_no_length(&self) -> bool
        ensures { IsTrue result ↔ All (λ value. value ≡ codes "0") (values_of (codes "content-length") (fields_in self.now)) }
    {
        self.values(b"content-length")
            .all(|length| length == b"0".as_slice())
    }

    /// Whether the fields announce no body.
    pub(crate) fn lack_body(&self) -> bool
        ensures { IsTrue result ↔ LacksBody (fields_in self.now) }
    {
        !self.has(b"transfer-encoding") && self.has_no_length()
    }
}
