//! What is told of a node as metrics.
//!
//! The form is Prometheus' text form 0.0.4. No label has a process or a module, so a node has at most 36 samples, and three more for each scheduler.
ghost use Rattle.std.specs.Prelude.{◌≡◌, IfOk, codes};
ghost use Rattle.beam_page.specs.MetricText.{Writes, labelled_twice, metrics_text, told};
ghost use Rattle.beam_page.specs.Metrics.{change_metrics, connection_metrics, head_metrics, journal_metrics, loss_metrics, module_metrics, node_metrics, process_metrics, request_metrics, resident_metrics, running_metrics, serving_metrics};

use crate::journal::JournalFacts;
use crate::metric::{Sample, SampleValue, put_count, put_metric, put_single};
use crate::metric_name::MetricName;
use crate::node::{
    ChangeCount, ChangeCounts, ConnectionCounts, ModuleCounts, NodeFacts, ProcessCounts,
    RequestCounts,
};
use crate::scheduler_metrics::put_schedulers;
use std::alloc::{AllocError, Global};

#[tactic(auto, unfolding(crate::specs::Metrics::head_metrics))]
fn put_head(out: &mut Vec<u8>, node: &NodeFacts) -> Result<(), AllocError>
    ensures { Writes result out.old.items out.new.items (metrics_text (head_metrics node.now)) }
{
    put_metric(
        out,
        MetricName::BuildInfo,
        &[Sample::labelled("version", node.version, 1)],
    )?;
    put_single(out, MetricName::Uptime, SampleValue::Millis(node.uptime_ms))?;
    Ok(())
}

#[tactic(auto, unfolding(crate::specs::Metrics::process_metrics))]
fn put_processes(out: &mut Vec<u8>, processes: &ProcessCounts) -> Result<(), AllocError>
    ensures { Writes result out.old.items out.new.items (metrics_text (process_metrics processes.now)) }
{
    let samples = [
        Sample::labelled("state", "running", processes.running),
        Sample::labelled("state", "waiting", processes.waiting),
        Sample::labelled("state", "held", processes.held),
    ];
    put_metric(out, MetricName::Processes, &samples)?;
    put_count(out, MetricName::ProcessesStarted, processes.started)?;
    put_count(out, MetricName::ProcessesEnded, processes.ended)?;
    Ok(())
}

#[tactic(auto, unfolding(crate::specs::Metrics::module_metrics))]
fn put_modules(out: &mut Vec<u8>, modules: &ModuleCounts) -> Result<(), AllocError>
    ensures { Writes result out.old.items out.new.items (metrics_text (module_metrics modules.now)) }
{
    let samples = [
        Sample::labelled("instance", "current", modules.current),
        Sample::labelled("instance", "old", modules.old),
    ];
    put_metric(out, MetricName::Modules, &samples)
}

#[tactic(auto, unfolding(crate::specs::Metrics::journal_metrics))]
fn put_journal(out: &mut Vec<u8>, journal: &JournalFacts) -> Result<(), AllocError>
    ensures { Writes result out.old.items out.new.items (metrics_text (journal_metrics journal.now)) }
{
    let samples = [
        Sample::labelled("kind", "command", journal.kinds.commands),
        Sample::labelled("kind", "slice", journal.kinds.slices),
        Sample::labelled("kind", "delivery", journal.kinds.deliveries),
        Sample::labelled("kind", "moment", journal.kinds.moments),
        Sample::labelled("kind", "timeout", journal.kinds.timeouts),
    ];
    put_metric(out, MetricName::JournalEntries, &samples)?;
    put_count(out, MetricName::JournalInMemory, journal.in_memory)?;
    put_count(out, MetricName::JournalLimit, journal.limit)?;
    Ok(())
}

#[tactic(auto, unfolding(crate::specs::Metrics::connection_metrics))]
fn put_connections(out: &mut Vec<u8>, connections: &ConnectionCounts) -> Result<(), AllocError>
    ensures { Writes result out.old.items out.new.items (metrics_text (connection_metrics connections.now)) }
{
    put_count(out, MetricName::Connections, connections.taken)?;
    put_count(out, MetricName::ConnectionPlaces, connections.places)?;
    put_count(out, MetricName::ConnectionsAccepted, connections.accepted)?;
    put_count(out, MetricName::ConnectionsFailed, connections.failed)?;
    Ok(())
}

/// A count of changes of one kind that were done.
fn done(change: &'static str, count: &ChangeCount) -> Sample
    ensures { told result ≡ labelled_twice (codes "change") change.now (codes "result") (codes "ok") count.now.ok }
{
    Sample::labelled_twice("change", change, "result", "ok", count.ok)
}

/// A count of changes of one kind that were refused.
fn refused(change: &'static str, count: &ChangeCount) -> Sample
    ensures { told result ≡ labelled_twice (codes "change") change.now (codes "result") (codes "refused") count.now.refused }
{
    Sample::labelled_twice("change", change, "result", "refused", count.refused)
}

#[tactic(auto, unfolding(crate::specs::Metrics::change_metrics))]
fn put_changes(out: &mut Vec<u8>, changes: &ChangeCounts) -> Result<(), AllocError>
    ensures { Writes result out.old.items out.new.items (metrics_text (change_metrics changes.now)) }
{
    let samples = [
        done("load", &changes.load),
        refused("load", &changes.load),
        done("purge", &changes.purge),
        refused("purge", &changes.purge),
        done("soft_purge", &changes.soft_purge),
        refused("soft_purge", &changes.soft_purge),
        done("delete", &changes.delete),
        refused("delete", &changes.delete),
        done("atomic", &changes.atomic),
        refused("atomic", &changes.atomic),
    ];
    put_metric(out, MetricName::Changes, &samples)
}

#[tactic(auto, unfolding(crate::specs::Metrics::loss_metrics))]
fn put_losses(out: &mut Vec<u8>, node: &NodeFacts) -> Result<(), AllocError>
    ensures { Writes result out.old.items out.new.items (metrics_text (loss_metrics node.now)) }
{
    put_count(out, MetricName::MemoryRefusals, node.memory_refusals)?;
    put_count(out, MetricName::LogLinesLost, node.log_lines_lost)?;
    Ok(())
}

/// Appends how much memory the process has; nothing where that can't be read.
#[tactic(auto, unfolding(crate::specs::Metrics::resident_metrics))]
fn put_resident(out: &mut Vec<u8>, bytes: Option<u64>) -> Result<(), AllocError>
    ensures { Writes result out.old.items out.new.items (metrics_text (resident_metrics bytes)) }
{
    match bytes {
        Some(bytes) => put_count(out, MetricName::ResidentMemory, bytes),
        None => Ok(()),
    }
}

#[tactic(auto, unfolding(crate::specs::Metrics::request_metrics))]
fn put_requests(out: &mut Vec<u8>, requests: &RequestCounts) -> Result<(), AllocError>
    ensures { Writes result out.old.items out.new.items (metrics_text (request_metrics requests.now)) }
{
    let samples = [
        Sample::labelled("status", "2xx", requests.ok),
        Sample::labelled("status", "4xx", requests.client_errors),
        Sample::labelled("status", "5xx", requests.server_errors),
    ];
    put_metric(out, MetricName::PageRequests, &samples)
}

/// Appends what it is and runs.
#[tactic(auto, unfolding(crate::specs::Metrics::running_metrics))]
fn put_running(out: &mut Vec<u8>, node: &NodeFacts) -> Result<(), AllocError>
    ensures { Writes result out.old.items out.new.items (metrics_text (running_metrics node.now)) }
{
    put_head(out, node)?;
    put_processes(out, &node.processes)?;
    put_modules(out, &node.modules)?;
    put_schedulers(out, &node.schedulers)?;
    put_journal(out, &node.journal)?;
    Ok(())
}

/// Appends whom it serves, and what it lacks.
#[tactic(auto, unfolding(crate::specs::Metrics::serving_metrics))]
fn put_serving(out: &mut Vec<u8>, node: &NodeFacts) -> Result<(), AllocError>
    ensures { Writes result out.old.items out.new.items (metrics_text (serving_metrics node.now)) }
{
    put_connections(out, &node.connections)?;
    put_changes(out, &node.changes)?;
    put_losses(out, node)?;
    put_resident(out, node.resident_bytes)?;
    put_requests(out, &node.requests)?;
    Ok(())
}

/// The node's metrics as text, each behind its lines HELP and TYPE. It fails only for memory.
#[tactic(auto, unfolding(crate::specs::Metrics::node_metrics))]
pub fn metrics_text(alloc: Global, node: &NodeFacts) -> Result<Vec<u8>, AllocError>
    ensures { IfOk result (λ bytes. bytes.items ≡ metrics_text (node_metrics node.now)) }
{
    let mut out = Vec::new(alloc);
    put_running(&mut out, node)?;
    put_serving(&mut out, node)?;
    Ok(out)
}
