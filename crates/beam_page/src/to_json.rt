//! Values that are told as JSON.
ghost use Rattle.std.specs.Prelude.{◌≡◌, List, IfOk, string_bytes};
ghost use Rattle.json.specs.Print.{print};
ghost use Rattle.json.specs.Token.{Token};
ghost use Rattle.beam_page.specs.Json.{Appends, array, count, member, or_null, text, truth};

use beam_term::Atom;
use json::Writer;
use std::alloc::{AllocError, Global};

/// What is told as a value of JSON.
pub(crate) trait ToJson {
    ghost tokens: { Self → List Token };

    /// Appends it. It fails only for memory, and then leaves a part of it.
    fn put(&self, writer: &mut Writer) -> Result<(), AllocError>
        ensures { Appends result writer.old writer.new (tokens self.now) };
}

impl ToJson for u64 {
    ghost tokens = { count };

    fn put(&self, writer: &mut Writer) -> Result<(), AllocError> {
        writer.u64(*self)
    }
}

impl ToJson for u32 {
    ghost tokens = { count };

    fn put(&self, writer: &mut Writer) -> Result<(), AllocError> {
        writer.u64(u64::from(*self))
    }
}

impl ToJson for bool {
    ghost tokens = { truth };

    fn put(&self, writer: &mut Writer) -> Result<(), AllocError> {
        writer.boolean(*self)
    }
}

impl ToJson for Atom {
    ghost tokens = { text };

    fn put(&self, writer: &mut Writer) -> Result<(), AllocError> {
        writer.string(self.as_str())
    }
}

impl ToJson for String {
    ghost tokens = { λ s. text (string_bytes s) };

    fn put(&self, writer: &mut Writer) -> Result<(), AllocError> {
        writer.string(self.as_str())
    }
}

impl<T: ToJson> ToJson for Option<T> {
    ghost tokens = { or_null T.tokens };

    fn put(&self, writer: &mut Writer) -> Result<(), AllocError> {
        match self {
            Some(value) => value.put(writer),
            None => writer.null(),
        }
    }
}

impl<T: ToJson> ToJson for Vec<T> {
    ghost tokens = { λ v. array T.tokens v.items };

    fn put(&self, writer: &mut Writer) -> Result<(), AllocError> {
        writer.begin_array()?;
        let mut rest = self.as_slice();
        while let Some((value, others)) = rest.split_first() {
            value.put(writer)?;
            rest = others;
        }
        writer.end_array()
    }
}

/// Appends a member of an object.
#[tactic(auto, unfolding(crate::specs::Json::member))]
pub(crate) fn put_member<T: ToJson>(
    writer: &mut Writer,
    name: &str,
    value: &T,
) -> Result<(), AllocError>
    ensures { Appends result writer.old writer.new (member name.now (T.tokens value.now)) }
{
    writer.key(name)?;
    value.put(writer)
}

/// Appends a member of an object whose value is a text.
#[tactic(auto, unfolding(crate::specs::Json::member))]
pub(crate) fn put_text(writer: &mut Writer, name: &str, value: &str) -> Result<(), AllocError>
    ensures { Appends result writer.old writer.new (member name.now (text value.now)) }
{
    writer.key(name)?;
    writer.string(value)
}

/// A value as JSON.
pub(crate) fn json_of<T: ToJson>(alloc: Global, value: &T) -> Result<Vec<u8>, AllocError>
    ensures { IfOk result (λ bytes. bytes.items ≡ print (T.tokens value.now)) }
{
    let mut writer = Writer::new(Vec::new(alloc));
    value.put(&mut writer)?;
    Ok(writer.into_inner())
}
