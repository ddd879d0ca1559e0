//! Sweeps: sessions, or loads of a file, one for each place at which they can fail or be cut.

use crate::devices::Device;
use crate::draft::Draft;
use crate::error::{TestRowError, unless_refused};
use crate::given::{bytes_of, parted};
use crate::load_path::loaded;
use crate::session::{ended, told};
use beam_desk::pipe;
use std::alloc::Global;

/// The kind of a sweep: the session at the place N, counted from 0. All devices but those of pieces give and take one byte a call.
#[derive(Clone, Copy)]
enum SweepKind {
    /// The read after N others fails.
    Reads,
    /// The write after N others fails.
    Writes,
    /// The input ends after N bytes.
    Ends,
    /// Each call gives or takes N bytes, and at least one.
    Pieces,
    /// The input is a file that is loaded, and the read after N others fails.
    Loads,
}

impl SweepKind {
    fn named(word: &str) -> Option<SweepKind> {
        match word {
            "reads" => Some(SweepKind::Reads),
            "writes" => Some(SweepKind::Writes),
            "ends" => Some(SweepKind::Ends),
            "pieces" => Some(SweepKind::Pieces),
            "loads" => Some(SweepKind::Loads),
            _ => None,
        }
    }
}

/// Places with the same end: `LAST BYTES END`.
#[derive(Clone, Copy)]
struct Stretch<'a> {
    first: usize,
    last: usize,
    /// How many bytes are written; `None` for as many as the place's number.
    written: Option<usize>,
    end: &'a str,
}

impl Stretch<'_> {
    fn read(first: usize, text: &str) -> Option<Stretch<'_>> {
        let (last, rest) = parted(text);
        let (written, end) = parted(rest);
        match (last.parse::<usize>(), written.parse::<usize>()) {
            (Ok(last), Ok(written)) => Some(Stretch {
                first,
                last,
                written: Some(written),
                end,
            }),
            (Ok(last), Err(_)) => Some(Stretch {
                first,
                last,
                written: None,
                end,
            }),
            (Err(_), _) => None,
        }
    }
}

/// A sweep over an input, which writes the beginnings of an output.
pub struct Sweep {
    alloc: Global,
    sweep: SweepKind,
    input: Vec<u8>,
    output: Vec<u8>,
}

impl Drop for Sweep {
    fn drop(self) {
        let Sweep {
            alloc: _alloc,
            sweep: _sweep,
            input: _input,
            output: _output,
        } = self;
    }
}

impl Sweep {
    /// The sweep of that name: `reads`, `writes`, `ends`, `pieces` or `loads`.
    pub fn of(alloc: Global, name: &str, input: &str, output: &str) -> Result<Sweep, TestRowError> {
        match (
            SweepKind::named(name),
            bytes_of(alloc, input),
            bytes_of(alloc, output),
        ) {
            (Some(sweep), Ok(input), Ok(output)) => Ok(Sweep {
                alloc,
                sweep,
                input,
                output,
            }),
            _ => Err(TestRowError::No("sweep")),
        }
    }

    // The outcome of a session over the first bytes of the input.
    fn session(&self, device: Device, length: usize) -> Result<String, TestRowError> {
        let first = self.input.get(..length).unwrap_or(&self.input);
        match Vec::from_slice(self.alloc, first) {
            Ok(given) => {
                let mut device = device.over(self.alloc, given);
                let end = pipe(self.alloc, &mut device);
                ended(self.alloc, device.taken(), end)
            }
            Err(_) => Err(TestRowError::NoMemory),
        }
    }

    fn load(&self, device: Device) -> Result<String, TestRowError> {
        match Vec::from_slice(self.alloc, &self.input) {
            Ok(file) => match loaded(self.alloc, device, file) {
                Ok(answer) => told(self.alloc, &[], &answer),
                Err(why) => Err(why),
            },
            Err(_) => Err(TestRowError::NoMemory),
        }
    }

    // The outcome at a place.
    fn at(&self, place: usize) -> Result<String, TestRowError> {
        match self.sweep {
            SweepKind::Reads => self.session(Device::Reads(place as u64), usize::MAX),
            SweepKind::Writes => self.session(Device::Writes(place as u64), usize::MAX),
            SweepKind::Ends => self.session(Device::Pieces(1), place),
            SweepKind::Pieces => self.session(Device::Pieces(place), usize::MAX),
            SweepKind::Loads => self.load(Device::Reads(place as u64)),
        }
    }

    // The outcome that is wanted at a place of a stretch: a beginning of the output, and the end.
    fn wanted(&self, stretch: Stretch<'_>, place: usize) -> Result<String, TestRowError> {
        match self.output.get(..stretch.written.unwrap_or(place)) {
            Some(written) => told(self.alloc, written, stretch.end),
            None => Err(TestRowError::No("output of that length")),
        }
    }

    // Appends the outcome at a place, if another one is wanted.
    fn push_missed(&self, stretch: Stretch<'_>, place: usize, misses: &mut Draft) {
        match (self.wanted(stretch, place), self.at(place)) {
            (Ok(wanted), Ok(found)) => {
                if wanted != found {
                    let text = format!(in self.alloc; "at {place}: {found}; ");
                    misses.push_made(&unless_refused(text));
                }
            }
            (Err(why), _) | (_, Err(why)) => misses.fail(why),
        }
    }

    // Appends the outcome at the first place of a stretch where another one is wanted.
    fn push_stretch(&self, stretch: Stretch<'_>, misses: &mut Draft) {
        for place in stretch.first..=stretch.last {
            if misses.is_empty() {
                self.push_missed(stretch, place, misses);
            }
        }
    }

    /// The text of the wanted ends, if all places have them: each session over the input writes a beginning of the output, and ends so.
    /// Otherwise the outcome at the first place that has another.
    pub fn found(&self, ends: &str) -> Result<String, TestRowError> {
        let mut misses = Draft::new(self.alloc);
        let mut first = 0;
        for text in ends.split(';') {
            match Stretch::read(first, text.trim()) {
                Some(stretch) => {
                    self.push_stretch(stretch, &mut misses);
                    first = stretch.last.saturating_add(1);
                }
                None => misses.fail(TestRowError::No("ends")),
            }
        }
        if misses.is_empty() {
            misses.push_text(ends);
        }
        misses.text()
    }
}
