//! How a metric is written: a name with its kind, a help and samples, in Prometheus' text form 0.0.4.
ghost use Rattle.std.specs.Prelude.{◌≡◌, ◌+◌, ◌%◌, ◌++◌, List, codes, decimal, map};
ghost use Rattle.std.specs.List.{flat_map};
ghost use Rattle.beam_page.specs.MetricText.{Writes, escape_label, heading_text, label_text, labelled, labelled_twice, labels_text, metric_text, number_label_text, sample_text, seconds_text, single, six_digits, told, value_text};

use crate::metric_name::MetricName;
use itoa::Buffer;
use std::alloc::AllocError;

/// What tells samples of one metric apart.
#[derive(Clone, Copy)]
pub(crate) enum Labels {
    Absent,
    /// A label's name and its value.
    One(&'static str, &'static str),
    /// Two labels, the second behind the first.
    Two(&'static str, &'static str, &'static str, &'static str),
    /// A label's name and its value, a number.
    Number(&'static str, u64),
}

/// A number that is told.
#[derive(Clone, Copy)]
pub(crate) enum SampleValue {
    Count(u64),
    /// Milliseconds, which are told in seconds.
    Millis(u64),
    /// Microseconds, which are told in seconds.
    Micros(u64),
}

/// A number with its labels.
#[derive(Clone, Copy)]
pub(crate) struct Sample {
    pub(crate) labels: Labels,
    pub(crate) value: SampleValue,
}

fn put(out: &mut Vec<u8>, text: &str) -> Result<(), AllocError>
    ensures { Writes result out.old.items out.new.items text.now }
{
    out.extend_from_slice(text.as_bytes())
}

fn put_number(out: &mut Vec<u8>, number: u64) -> Result<(), AllocError>
    ensures { Writes result out.old.items out.new.items (decimal number) }
{
    let mut buffer = Buffer::new();
    put(out, buffer.format(number))
}

/// Appends what stands for a byte in a label's value.
#[tactic(auto, unfolding(crate::specs::MetricText::escape_label))]
fn put_escaped(out: &mut Vec<u8>, byte: u8) -> Result<(), AllocError>
    ensures { Writes result out.old.items out.new.items (escape_label byte) }
{
    if byte == b'\\' {
        put(out, "\\\\")
    } else if byte == b'"' {
        put(out, "\\\"")
    } else if byte == b'\n' {
        put(out, "\\n")
    } else {
        out.extend_from_slice(&[byte])
    }
}

/// Appends a label's value, without the quotes around it.
fn put_label_value(out: &mut Vec<u8>, value: &[u8]) -> Result<(), AllocError>
    ensures { Writes result out.old.items out.new.items (flat_map escape_label value.now) }
{
    let mut rest = value;
    while let Some((byte, others)) = rest.split_first() {
        put_escaped(out, *byte)?;
        rest = others;
    }
    Ok(())
}

#[tactic(auto, unfolding(crate::specs::MetricText::label_text))]
fn put_label(out: &mut Vec<u8>, name: &str, value: &str) -> Result<(), AllocError>
    ensures { Writes result out.old.items out.new.items (label_text name.now value.now) }
{
    put(out, name)?;
    put(out, "=\"")?;
    put_label_value(out, value.as_bytes())?;
    put(out, "\"")
}

fn put_one_label(out: &mut Vec<u8>, name: &str, value: &str) -> Result<(), AllocError>
    ensures { Writes result out.old.items out.new.items (codes "{" ++ label_text name.now value.now ++ codes "}") }
{
    put(out, "{")?;
    put_label(out, name, value)?;
    put(out, "}")
}

#[tactic(auto, unfolding(crate::specs::MetricText::number_label_text))]
fn put_number_label(out: &mut Vec<u8>, name: &str, number: u64) -> Result<(), AllocError>
    ensures { Writes result out.old.items out.new.items (number_label_text name.now number) }
{
    put(out, "{")?;
    put(out, name)?;
    put(out, "=\"")?;
    put_number(out, number)?;
    put(out, "\"}")
}

impl Labels {
    fn put(self, out: &mut Vec<u8>) -> Result<(), AllocError>
        ensures { Writes result out.old.items out.new.items (labels_text self) }
    {
        match self {
            Labels::Absent => Ok(()),
            Labels::One(name, value) => put_one_label(out, name, value),
            Labels::Two(name, value, second_name, second_value) => {
                put(out, "{")?;
                put_label(out, name, value)?;
                put(out, ",")?;
                put_label(out, second_name, second_value)?;
                put(out, "}")
            }
            Labels::Number(name, number) => put_number_label(out, name, number),
        }
    }
}

/// A digit's character: of the last digit of a number.
fn last_digit(number: u64) -> u8
    ensures { result ≡ 48 + number % 10 }
{
    b'0' + (number % 10) as u8
}

#[tactic(auto, unfolding(crate::specs::MetricText::six_digits))]
fn six_digits(number: u64) -> [u8; 6]
    ensures { result ≡ six_digits number }
{
    [
        last_digit(number / 100_000),
        last_digit(number / 10_000),
        last_digit(number / 1_000),
        last_digit(number / 100),
        last_digit(number / 10),
        last_digit(number),
    ]
}

#[tactic(auto, unfolding(crate::specs::MetricText::seconds_text))]
fn put_seconds(out: &mut Vec<u8>, seconds: u64, micros: u64) -> Result<(), AllocError>
    ensures { Writes result out.old.items out.new.items (seconds_text seconds micros) }
{
    put_number(out, seconds)?;
    put(out, ".")?;
    out.extend_from_slice(&six_digits(micros))
}

impl SampleValue {
    fn put(self, out: &mut Vec<u8>) -> Result<(), AllocError>
        ensures { Writes result out.old.items out.new.items (value_text self) }
    {
        match self {
            SampleValue::Count(count) => put_number(out, count),
            SampleValue::Millis(millis) => {
                put_seconds(out, millis / 1_000, millis % 1_000 * 1_000)
            }
            SampleValue::Micros(micros) => {
                put_seconds(out, micros / 1_000_000, micros % 1_000_000)
            }
        }
    }
}

impl Sample {
    /// A count with a label of that name and value.
    #[tactic(auto, unfolding(crate::specs::MetricText::labelled, crate::specs::MetricText::told))]
    pub(crate) fn labelled(name: &'static str, value: &'static str, count: u64) -> Sample
        ensures { told result ≡ labelled name.now value.now count }
    {
        Sample {
            labels: Labels::One(name, value),
            value: SampleValue::Count(count),
        }
    }

    /// A count with two labels of those names and values.
    #[tactic(auto, unfolding(crate::specs::MetricText::labelled_twice, crate::specs::MetricText::told))]
    pub(crate) fn labelled_twice(
        name: &'static str,
        value: &'static str,
        second_name: &'static str,
        second_value: &'static str,
        count: u64,
    ) -> Sample
        ensures { told result ≡ labelled_twice name.now value.now second_name.now second_value.now count }
    {
        Sample {
            labels: Labels::Two(name, value, second_name, second_value),
            value: SampleValue::Count(count),
        }
    }

    /// Appends its line.
    #[tactic(auto, unfolding(crate::specs::MetricText::sample_text, crate::specs::MetricText::told))]
    pub(crate) fn put(self, out: &mut Vec<u8>, name: &str) -> Result<(), AllocError>
        ensures { Writes result out.old.items out.new.items (sample_text name.now (told self)) }
    {
        put(out, name)?;
        self.labels.put(out)?;
        put(out, " ")?;
        self.value.put(out)?;
        put(out, "\n")
    }
}

/// Appends the lines HELP and TYPE.
#[tactic(auto, unfolding(crate::specs::MetricText::heading_text))]
pub(crate) fn put_heading(out: &mut Vec<u8>, name: MetricName) -> Result<(), AllocError>
    ensures { Writes result out.old.items out.new.items (heading_text name) }
{
    put(out, "# HELP ")?;
    put(out, name.text())?;
    put(out, " ")?;
    put(out, name.help())?;
    put(out, "\n# TYPE ")?;
    put(out, name.text())?;
    put(out, " ")?;
    put(out, name.kind().word())?;
    put(out, "\n")
}

/// Appends a metric: its heading, and a line for each sample.
#[tactic(auto, unfolding(crate::specs::MetricText::metric_text))]
pub(crate) fn put_metric(
    out: &mut Vec<u8>,
    name: MetricName,
    samples: &[Sample],
) -> Result<(), AllocError>
    ensures { Writes result out.old.items out.new.items (metric_text (record { name = name; samples = map told samples.now })) }
{
    put_heading(out, name)?;
    let text = name.text();
    let mut rest = samples;
    while let Some((sample, others)) = rest.split_first() {
        sample.put(out, text)?;
        rest = others;
    }
    Ok(())
}

/// Appends a metric of one number, without labels.
#[tactic(auto, unfolding(crate::specs::MetricText::single, crate::specs::MetricText::told))]
pub(crate) fn put_single(
    out: &mut Vec<u8>,
    name: MetricName,
    value: SampleValue,
) -> Result<(), AllocError>
    ensures { Writes result out.old.items out.new.items (metric_text (single name (value_text value))) }
{
    let sample = Sample {
        labels: Labels::Absent,
        value,
    };
    put_metric(out, name, &[sample])
}

/// Appends a metric of one count, without labels.
pub(crate) fn put_count(out: &mut Vec<u8>, name: MetricName, count: u64) -> Result<(), AllocError>
    ensures { Writes result out.old.items out.new.items (metric_text (single name (decimal count))) }
{
    put_single(out, name, SampleValue::Count(count))
}
