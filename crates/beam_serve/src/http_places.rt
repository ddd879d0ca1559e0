//! The connections over which requests come, of which the oldest makes way for the next.

use std::alloc::{AllocError, Global};
use std::net::{Shutdown, TcpStream};
use std::sync::{Mutex, Wait};

/// A connection that has a place.
#[derive(Drop)]
struct TakenPlace {
    /// How many connections had a place before it.
    turn: u64,
    stream: TcpStream,
}

/// Who has each place.
#[derive(Drop)]
struct PlaceTable {
    places: Vec<Option<TakenPlace>>,
    turns: u64,
}

impl PlaceTable {
    /// The connection that has had its place for the longest time, if no place is free.
    fn oldest(&self) -> Option<&TakenPlace> {
        let mut oldest: Option<&TakenPlace> = None;
        for place in &self.places {
            let taken = place.as_ref()?;
            oldest = match oldest {
                Some(older) if older.turn <= taken.turn => Some(older),
                _ => Some(taken),
            };
        }
        oldest
    }
}

/// Places of connections, one for each thread that answers requests. Where a connection takes the last free one, the one that has had its
/// place for the longest time is shut, so that its thread comes back: peers that send nothing keep nobody out.
#[derive(Drop)]
pub struct HttpPlaces {
    table: Mutex<PlaceTable>,
}

impl HttpPlaces {
    /// That many free places.
    pub fn new(alloc: Global, count: usize) -> Result<HttpPlaces, AllocError> {
        let mut places = Vec::with_capacity(alloc, count)?;
        for _ in 0..count {
            places.push(None)?;
        }
        Ok(HttpPlaces {
            table: Mutex::new(PlaceTable { places, turns: 0 }),
        })
    }

    /// How many places there are.
    pub fn count<R: Wait>(&self, rt: &R) -> usize {
        self.table.lock(rt).places.len()
    }

    /// A connection takes the place of that number. A single place is never shut for the next connection.
    pub fn enter<R: Wait>(&self, rt: &R, number: usize, stream: TcpStream) {
        let mut table = self.table.lock(rt);
        let turn = table.turns;
        table.turns = turn.saturating_add(1);
        if let Some(place) = table.places.get_mut(number) {
            *place = Some(TakenPlace { turn, stream });
        }
        if table.places.len() < 2 {
            return;
        }
        if let Some(oldest) = table.oldest() {
            let _ = oldest.stream.shutdown(Shutdown::Both);
        }
    }

    /// The connection of the place of that number was answered.
    pub fn leave<R: Wait>(&self, rt: &R, number: usize) {
        if let Some(place) = self.table.lock(rt).places.get_mut(number) {
            *place = None;
        }
    }
}
