//! The metrics of schedulers, each with a sample for every one of them.
ghost use Rattle.std.specs.Prelude.{◌≡◌};
ghost use Rattle.std.specs.List.{flat_map};
ghost use Rattle.beam_page.specs.MetricText.{Writes, metric_text, metrics_text, sample_text};
ghost use Rattle.beam_page.specs.Metrics.{metric, scheduler_metrics, scheduler_samples, scheduler_value};

use crate::metric::{Labels, Sample, SampleValue, put_heading};
use crate::metric_name::MetricName;
use crate::node::SchedulerFacts;
use std::alloc::AllocError;

/// A number of a scheduler that a metric tells.
#[derive(Clone, Copy)]
enum SchedulerNumber {
    Busy,
    Slices,
    Rows,
}

impl SchedulerNumber {
    fn of(self, scheduler: &SchedulerFacts) -> SampleValue
        ensures { result ≡ scheduler_value self scheduler.now }
    {
        match self {
            SchedulerNumber::Busy => SampleValue::Micros(scheduler.busy_us),
            SchedulerNumber::Slices => SampleValue::Count(scheduler.slices),
            SchedulerNumber::Rows => SampleValue::Count(scheduler.rows),
        }
    }
}

/// Appends a line for each scheduler. They are counted from 1.
#[tactic(auto, unfolding(crate::specs::MetricText::told))]
fn put_samples(
    out: &mut Vec<u8>,
    name: &str,
    what: SchedulerNumber,
    schedulers: &[SchedulerFacts],
) -> Result<(), AllocError>
    ensures { Writes result out.old.items out.new.items (flat_map (sample_text name.now) (scheduler_samples what 1 schedulers.now)) }
{
    let mut rest = schedulers;
    let mut number = 0u64;
    while let Some((scheduler, others)) = rest.split_first() {
        number += 1;
        let sample = Sample {
            labels: Labels::Number("scheduler", number),
            value: what.of(scheduler),
        };
        sample.put(out, name)?;
        rest = others;
    }
    Ok(())
}

#[tactic(auto, unfolding(crate::specs::MetricText::metric_text))]
fn put_metric(
    out: &mut Vec<u8>,
    name: MetricName,
    what: SchedulerNumber,
    schedulers: &[SchedulerFacts],
) -> Result<(), AllocError>
    ensures { Writes result out.old.items out.new.items (metric_text (metric name (scheduler_samples what 1 schedulers.now))) }
{
    put_heading(out, name)?;
    put_samples(out, name.text(), what, schedulers)
}

/// Appends the metrics of schedulers.
#[tactic(auto, unfolding(crate::specs::Metrics::scheduler_metrics))]
pub(crate) fn put_schedulers(
    out: &mut Vec<u8>,
    schedulers: &[SchedulerFacts],
) -> Result<(), AllocError>
    ensures { Writes result out.old.items out.new.items (metrics_text (scheduler_metrics schedulers.now)) }
{
    put_metric(
        out,
        MetricName::SchedulerBusy,
        SchedulerNumber::Busy,
        schedulers,
    )?;
    put_metric(
        out,
        MetricName::SchedulerSlices,
        SchedulerNumber::Slices,
        schedulers,
    )?;
    put_metric(
        out,
        MetricName::SchedulerRows,
        SchedulerNumber::Rows,
        schedulers,
    )?;
    Ok(())
}
