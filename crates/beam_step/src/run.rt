//! Rows of a process, one after another, apart from the node.
ghost use Rattle.std.specs.Prelude.{◌≡◌, []};
ghost use Rattle.beam_rows.specs.Finds.{AlwaysFinds};
ghost use Rattle.beam_step.specs.Slices.{RowsComeTo, rows_of, is_cut, capped};

use crate::cause::Cause;
use crate::row::some_rows;
use crate::slice::Slice;
use crate::work::Work;
use beam_codesrv::CodeTable;
use beam_model::place::Place;
use beam_proc::private::{Private, Sent};
use beam_proc::process::Process;

/// How many rows a slice has at most.
pub const MAX_ROWS: u32 = 4_000;

/// How many rows were executed, and why they end.
#[derive(Clone, Copy, Debug)]
struct RunEnd {
    count: u32,
    cause: Cause,
}

fn run(
    code: &CodeTable,
    spots: &[Place],
    passes: bool,
    process: &mut Process,
    sent: &mut Vec<Sent>,
    limit: u32,
) -> RunEnd
    requires none { sent.old.items ≡ [] }
    requires finds { AlwaysFinds code.now process.old }
    ensures { RowsComeTo spots.now passes code.now limit process.old (rows_of process.new sent.new.items result.count result.cause) (is_cut result.cause) }
{
    let mut count = 0;
    let mut passing = passes;
    while count < limit {
        if !process.is_running() {
            return RunEnd {
                count,
                cause: Cause::AfterRow,
            };
        }
        let done = some_rows(code, spots, passing, process, sent, limit - count);
        count += done.count;
        passing = false;
        if let Some(cause) = done.end {
            return RunEnd { count, cause };
        }
    }
    RunEnd {
        count: limit,
        cause: Cause::AtLimit,
    }
}

/// How many rows a slice of this limit may have.
fn capped(limit: u32) -> u32
    ensures { result ≡ capped limit }
{
    if MAX_ROWS < limit { MAX_ROWS } else { limit }
}

/// Executes private rows and sends of a process, apart from the node: at most `limit`, and at most 4,000. They end before a row that asks
/// something of the node; before the row of a break spot, which the process may pass as its first row if the work allows it; after a row by
/// which it waits or ends; or for want of memory, which never ends them before a quiet row. Nothing of the node changes. The slice keeps
/// neither the code nor the process as it was: the caller knows both. Each row finds what it names, as those of a process of a framed node
/// do.
pub fn run_private(code: &CodeTable, spots: &[Place], work: Work, limit: u32) -> Slice
    requires { AlwaysFinds code.now work.process }
    ensures rows { RowsComeTo spots.now work.passes code.now (capped limit) work.process result.rows result.cut }
{
    let Work { process, passes } = work;
    let mut process = process;
    let mut sent = Vec::new(process.alloc());
    let RunEnd { count, cause } = run(code, spots, passes, &mut process, &mut sent, capped(limit));
    let rows = Private {
        count,
        process,
        sent,
        end: cause.end(),
    };
    Slice {
        rows,
        is_cut: cause.is_cut(),
    }
}
