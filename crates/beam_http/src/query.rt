//! What a query asks for: names and values as `name=value`, with `&` between two, percent-coded. Of two values of one name the first counts.
ghost use Rattle.std.specs.Prelude.{◌≤◌, ◌<◌, IfErr, IfOk, IfSome, string_len};
ghost use Rattle.beam_http.specs.Queries.{IsQueryFault};

use crate::refusal::{Fault, RequestRefusal};
use crate::text::number_in;
use form_urlencoded::parse;
use std::alloc::{AllocError, Global};
use std::borrow::CowStr;

/// How many processes an answer shows where the query doesn't say.
const USUAL_LIMIT: u64 = 100;

/// How many processes an answer shows at most.
const MOST_LIMIT: u64 = 500;

/// How many bytes a text that is searched for has at most.
const MOST_SEARCH: usize = 255;

/// The value of the first pair of that name.
fn value_of<'a>(
    alloc: Global,
    query: &'a [u8],
    name: &str,
) -> Result<Option<CowStr<'a>>, AllocError> {
    for pair in parse(alloc, query) {
        let (found, value) = pair?;
        if found.as_str() == name {
            return Ok(Some(value));
        }
    }
    Ok(None)
}

/// The number of that name, which is at most `most`; `usual` where the query has none.
fn number_of(alloc: Global, query: &[u8], name: &str, usual: u64, most: u64) -> Result<u64, Fault>
    requires { usual ≤ most }
    ensures in_range { IfOk result (λ number. number ≤ most) }
    ensures refused { IfErr result IsQueryFault }
{
    let Some(value) = value_of(alloc, query, name)? else {
        return Ok(usual);
    };
    match number_in(value.as_str().as_bytes()) {
        Some(number) if number <= most => Ok(number),
        _ => Err(RequestRefusal::BadRequest.into()),
    }
}

/// The number behind which an answer begins, which is `after` and at most `most`; 0 where the query has none.
pub(crate) fn after_of(alloc: Global, query: &[u8], most: u64) -> Result<u64, Fault>
    ensures in_range { IfOk result (λ number. number ≤ most) }
    ensures refused { IfErr result IsQueryFault }
{
    number_of(alloc, query, "after", 0, most)
}

/// Which processes are shown.
#[derive(Clone, Copy, Debug, PartialEq, Eq)]
pub enum StateFilter {
    /// Those that have not ended: `live`.
    Live,
    /// `running`.
    Running,
    /// `waiting`.
    Waiting,
    /// `held`.
    Held,
    /// Those in code that is no longer current: `old`.
    Old,
    /// `ended`.
    Ended,
}

impl StateFilter {
    /// That of the query: `state`, or those that are live.
    fn in_query(alloc: Global, query: &[u8]) -> Result<StateFilter, Fault>
        ensures { IfErr result IsQueryFault }
    {
        let Some(word) = value_of(alloc, query, "state")? else {
            return Ok(StateFilter::Live);
        };
        match word.as_str() {
            "live" => Ok(StateFilter::Live),
            "running" => Ok(StateFilter::Running),
            "waiting" => Ok(StateFilter::Waiting),
            "held" => Ok(StateFilter::Held),
            "old" => Ok(StateFilter::Old),
            "ended" => Ok(StateFilter::Ended),
            _ => Err(RequestRefusal::BadRequest.into()),
        }
    }
}

/// By what processes are sorted.
#[derive(Clone, Copy, Debug, PartialEq, Eq)]
pub enum SortKey {
    /// The pid: `pid`.
    Pid,
    /// How many messages wait in the mailbox: `mailbox`.
    Mailbox,
    /// How many messages are on their way: `transit`.
    Transit,
    /// How long the stack is: `stack`.
    Stack,
}

impl SortKey {
    /// That of the query: `sort`, or the pid.
    fn in_query(alloc: Global, query: &[u8]) -> Result<SortKey, Fault>
        ensures { IfErr result IsQueryFault }
    {
        let Some(word) = value_of(alloc, query, "sort")? else {
            return Ok(SortKey::Pid);
        };
        match word.as_str() {
            "pid" => Ok(SortKey::Pid),
            "mailbox" => Ok(SortKey::Mailbox),
            "transit" => Ok(SortKey::Transit),
            "stack" => Ok(SortKey::Stack),
            _ => Err(RequestRefusal::BadRequest.into()),
        }
    }
}

/// The text that is searched for: `q`. None where it is empty.
fn search_in(alloc: Global, query: &[u8]) -> Result<Option<String>, Fault>
    ensures in_range { IfOk result (λ search. IfSome search (λ text. (0 < string_len text) × (string_len text ≤ 255))) }
    ensures refused { IfErr result IsQueryFault }
{
    let Some(text) = value_of(alloc, query, "q")? else {
        return Ok(None);
    };
    match text.len() {
        0 => Ok(None),
        1..=MOST_SEARCH => Ok(Some(text.into_owned(alloc)?)),
        _ => Err(RequestRefusal::BadRequest.into()),
    }
}

/// Which processes are asked for, and in which order.
#[derive(Debug, PartialEq, Eq, Drop)]
pub struct ProcessQuery {
    /// By pid, the pid behind which the answer begins; by another key, how many rows are passed over. 0 where the query doesn't say.
    pub after: u32,
    /// How many are shown at most: 1 to 500, and 100 where the query doesn't say.
    pub limit: u32,
    pub state: StateFilter,
    pub key: SortKey,
    /// Whether the greatest comes first: `down` is 1, and not 0.
    pub is_descending: bool,
    /// What is searched for: 1 to 255 bytes of text.
    pub search: Option<String>,
    /// The range of `limit`.
    pub ghost in_range: { (1 ≤ limit) × (limit ≤ 500) },
}

impl ProcessQuery {
    /// What a query asks for. Names that aren't of it are passed over; refused is a value that can't be read or is out of range.
    pub(crate) fn in_query(alloc: Global, query: &[u8]) -> Result<ProcessQuery, Fault>
        ensures { IfErr result IsQueryFault }
    {
        let after = after_of(alloc, query, u32::MAX as u64)?;
        let limit = number_of(alloc, query, "limit", USUAL_LIMIT, MOST_LIMIT)?;
        if limit == 0 {
            return Err(RequestRefusal::BadRequest.into());
        }
        Ok(ProcessQuery {
            after: after as u32,
            limit: limit as u32,
            state: StateFilter::in_query(alloc, query)?,
            key: SortKey::in_query(alloc, query)?,
            is_descending: number_of(alloc, query, "down", 0, 1)? == 1,
            search: search_in(alloc, query)?,
        })
    }
}
