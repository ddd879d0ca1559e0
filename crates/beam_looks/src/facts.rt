//! What is told of rows: made without the node's lock.

use crate::clip::{TextRoom, clipped};
use crate::module_rows::{InstanceRow, ModuleRow};
use crate::places::RowPlace;
use crate::process_rows::ProcessRow;
use beam_debug::location::location_in;
use beam_image::Image;
use beam_model::place::Place;
use beam_page::{
    ClippedText, CodeAge, InstanceFacts, ModuleFacts, OldInstance, PlaceFacts, ProcessFacts,
};
use beam_term::{Atom, Term};
use std::alloc::{AllocError, Global};

/// The place of a row of an image; none where it stands before the first function.
fn row_facts(place: Place, age: CodeAge, image: &Image) -> Result<Option<PlaceFacts>, AllocError> {
    let location = location_in(image, place)?;
    let Some(function) = &location.function else {
        return Ok(None);
    };
    Ok(Some(PlaceFacts {
        module: function.module.clone()?,
        function: function.function.clone()?,
        arity: function.arity,
        label: location.label,
        row: location.rows as u64,
        instance: place.instance(),
        code: age,
    }))
}

/// The place at which a process goes on; none where it has ended, or its instance is gone. It takes time linear in the row's function.
pub(crate) fn place_facts(place: &RowPlace) -> Result<Option<PlaceFacts>, AllocError> {
    match place {
        RowPlace::Row {
            place,
            age,
            image: Some(image),
        } => row_facts(*place, *age, image),
        RowPlace::Row { image: None, .. } | RowPlace::Nowhere => Ok(None),
        RowPlace::Entry {
            module,
            function,
            arity,
        } => Ok(Some(PlaceFacts {
            module: module.clone()?,
            function: function.clone()?,
            arity: *arity,
            label: 0,
            row: 0,
            instance: 0,
            code: CodeAge::Entry,
        })),
    }
}

fn name_facts(name: &Option<Atom>) -> Result<Option<Atom>, AllocError> {
    match name {
        Some(name) => Ok(Some(name.clone()?)),
        None => Ok(None),
    }
}

fn reason_facts(
    alloc: Global,
    reason: &Option<Term>,
    room: &mut TextRoom,
) -> Result<Option<ClippedText>, AllocError> {
    match reason {
        Some(reason) => Ok(Some(clipped(alloc, reason, room)?)),
        None => Ok(None),
    }
}

/// What is told of a process, with the text of its reason as far as there is room. It takes time linear in the function of its row.
pub fn process_facts(
    alloc: Global,
    row: &ProcessRow,
    room: &mut TextRoom,
) -> Result<ProcessFacts, AllocError> {
    Ok(ProcessFacts {
        pid: row.pid,
        name: name_facts(&row.name)?,
        state: row.state,
        mailbox: row.mailbox as u64,
        transit: row.transit as u64,
        stack_words: row.stack_words as u64,
        monitors: row.monitors as u64,
        at: place_facts(&row.place)?,
        reason: reason_facts(alloc, &row.reason, room)?,
    })
}

fn instance_facts(instance: InstanceRow) -> InstanceFacts {
    InstanceFacts {
        instance: instance.number,
        instructions: instance.instructions as u64,
    }
}

/// What is told of a module in whose old instance that many processes linger, of which these are the first.
pub fn module_facts(
    row: &ModuleRow,
    lingering: u64,
    first: Vec<u32>,
) -> Result<ModuleFacts, AllocError> {
    let old = match row.old {
        Some(old) => Some(OldInstance {
            instance: old.number,
            instructions: old.instructions as u64,
            lingering,
            first,
        }),
        None => None,
    };
    Ok(ModuleFacts {
        name: row.name.clone()?,
        current: row.current.map(instance_facts),
        old,
    })
}
