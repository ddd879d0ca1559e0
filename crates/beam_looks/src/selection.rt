//! Which rows of processes an answer shows.

use crate::places::RowPlace;
use crate::process_rows::ProcessRow;
use beam_http::{ProcessQuery, SortKey, StateFilter};
use beam_page::ProcessState;
use std::alloc::{AllocError, Global};

/// How many rows are passed over at most in another order than that of the pids.
const MOST_PASSED: usize = 10_000;

/// The rows that a query asks for, of those that were looked at so far.
pub struct Selection {
    alloc: Global,
    query: ProcessQuery,
    rows: Vec<ProcessRow>,
    matching: u64,
    seen: u64,
}

impl Drop for Selection {
    fn drop(self) {
        let Selection {
            alloc: _alloc,
            query: _query,
            rows: _rows,
            matching: _matching,
            seen: _seen,
        } = self;
    }
}

/// Whether a process that stands so is shown. Which ones are in old code is found out apart.
fn is_shown(state: ProcessState, filter: StateFilter) -> bool {
    match filter {
        StateFilter::Live | StateFilter::Old => state != ProcessState::Ended,
        StateFilter::Running => state == ProcessState::Running,
        StateFilter::Waiting => state == ProcessState::Waiting,
        StateFilter::Held => state == ProcessState::Held,
        StateFilter::Ended => state == ProcessState::Ended,
    }
}

/// Whether the name of the module in which a process goes on has this part.
fn is_in_module(place: &RowPlace, part: &str) -> bool {
    match place {
        RowPlace::Row {
            image: Some(image),
            ..
        } => image.module().as_str().contains(part),
        RowPlace::Entry { module, .. } => module.as_str().contains(part),
        RowPlace::Row { image: None, .. } | RowPlace::Nowhere => false,
    }
}

/// Whether a process is one that is searched for: by its number, or by a part of its name or of its module's.
fn is_found(row: &ProcessRow, search: &str) -> bool {
    if let Ok(pid) = search.parse::<u32>() {
        return row.pid == pid;
    }
    match &row.name {
        Some(name) if name.as_str().contains(search) => true,
        _ => is_in_module(&row.place, search),
    }
}

/// Where a row stands in the order that is asked for: the least first.
fn rank(row: &ProcessRow, key: SortKey, is_descending: bool) -> u64 {
    let value = match key {
        SortKey::Pid => u64::from(row.pid),
        SortKey::Mailbox => row.mailbox as u64,
        SortKey::Transit => row.transit as u64,
        SortKey::Stack => row.stack_words as u64,
    };
    if is_descending {
        u64::MAX - value
    } else {
        value
    }
}

impl Selection {
    /// No rows yet.
    pub fn new(alloc: Global, query: ProcessQuery) -> Selection {
        Selection {
            alloc,
            query,
            rows: Vec::new(alloc),
            matching: 0,
            seen: 0,
        }
    }

    /// Whether the rows come in the order of the pids, so that those above one are the next.
    pub fn is_by_pid(&self) -> bool {
        self.query.key == SortKey::Pid && !self.query.is_descending
    }

    /// The number above which the first row is looked at.
    pub fn first_after(&self) -> u32 {
        if self.is_by_pid() {
            self.query.after
        } else {
            0
        }
    }

    /// Whether only those are shown that are in old code.
    pub fn wants_old(&self) -> bool {
        self.query.state == StateFilter::Old
    }

    /// How many rows are passed over.
    fn passed(&self) -> usize {
        if self.is_by_pid() {
            0
        } else {
            (self.query.after as usize).min(MOST_PASSED)
        }
    }

    /// How many rows are kept.
    fn wanted(&self) -> usize {
        self.passed().saturating_add(self.query.limit as usize)
    }

    /// Whether no further rows are to be looked at.
    pub fn is_full(&self) -> bool {
        self.is_by_pid() && self.rows.len() >= self.wanted()
    }

    /// How many rows were looked at.
    pub fn seen(&self) -> u64 {
        self.seen
    }

    /// How many of them are as asked for; none in the order of the pids, where not all are looked at.
    pub fn matching(&self) -> Option<u64> {
        if self.is_by_pid() {
            None
        } else {
            Some(self.matching)
        }
    }

    /// Sorts the rows, and keeps those that can still be shown.
    fn settle(&mut self) -> Result<(), AllocError> {
        let (key, is_descending) = (self.query.key, self.query.is_descending);
        let wanted = self.wanted();
        if !self.is_by_pid() {
            self.rows
                .sort_by_key(move |row| rank(row, key, is_descending))?;
        }
        self.rows.truncate(wanted);
        Ok(())
    }

    /// Takes one row in. `is_old` if the process is in old code.
    fn take(&mut self, row: ProcessRow, is_old: bool) -> Result<(), AllocError> {
        if self.is_full() {
            return Ok(());
        }
        self.seen = self.seen.saturating_add(1);
        let is_wanted = is_shown(row.state, self.query.state) && (is_old || !self.wants_old());
        let is_found = match &self.query.search {
            Some(search) => is_found(&row, search.as_str()),
            None => true,
        };
        if is_wanted && is_found {
            self.matching = self.matching.saturating_add(1);
            self.rows.push(row)?;
        }
        Ok(())
    }

    /// Takes rows in, in the order of their numbers, and the numbers of those that are in old code.
    pub fn take_all(&mut self, rows: Vec<ProcessRow>, old: &[u32]) -> Result<(), AllocError> {
        for row in rows {
            let is_old = old.binary_search(&row.pid).is_ok();
            self.take(row, is_old)?;
        }
        if self.rows.len() >= self.wanted().saturating_mul(2) {
            self.settle()?;
        }
        Ok(())
    }

    /// The rows that are kept.
    fn into_kept(self) -> Vec<ProcessRow> {
        let Selection {
            alloc: _alloc,
            query: _query,
            rows,
            matching: _matching,
            seen: _seen,
        } = self;
        rows
    }

    /// The rows that are shown, in their order, and behind what the next part is asked: in the order of the pids behind a number, else behind
    /// that many rows; none where no more are there. `more_after` is the number of the last process that was looked at, if there are more.
    pub fn into_rows(
        self,
        more_after: Option<u32>,
    ) -> Result<(Vec<ProcessRow>, Option<u64>), AllocError> {
        let mut selection = self;
        selection.settle()?;
        let passed = selection.passed();
        let (is_by_pid, is_full, matching) = (
            selection.is_by_pid(),
            selection.is_full(),
            selection.matching,
        );
        let wanted = selection.wanted() as u64;
        let mut shown = Vec::new(selection.alloc);
        let mut last = 0;
        for row in selection.into_kept().into_iter().skip(passed) {
            last = row.pid;
            shown.push(row)?;
        }
        let next = match more_after {
            _ if is_by_pid && is_full => Some(u64::from(last)),
            Some(pid) if is_by_pid => Some(u64::from(pid)),
            _ if !is_by_pid && matching > wanted => Some(wanted),
            _ => None,
        };
        Ok((shown, next))
    }
}
