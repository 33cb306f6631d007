//! What is printed for the session.
ghost use Rattle.std.specs.Prelude.{IfOk};
ghost use Rattle.program_demo.specs.Demo.{IsShown, IsShownFrom, TellsOfPair};

use crate::agreement::write_agreement;
use crate::objects::SIZES;
use crate::playing::play;
use std::alloc::{AllocError, Allocator};
use wl_message::Limit;
use wl_objects::{SlotTable, Table};
use wl_session::{Pair, trace};
use wl_sigs::Tables;

/// What the program prints: the lines of what was carried, and whether both ends then have the same
/// objects. Each carry moves at most `piece` bytes. The error is lack of memory.
pub fn demo<A: Allocator + Clone + Drop>(
    alloc: A,
    tables: &Tables,
    piece: u32,
) -> Result<Vec<u8, A>, AllocError>
    ensures { IfOk result (λ text. IsShown tables.now piece text.items) }
{
    let mut pair: Pair<'_, SlotTable<A>> = Pair::new(alloc.clone()?, tables, SIZES, SIZES)?;
    shown(alloc, tables, &mut pair, piece)
}

/// Plays the session over a new pair, and returns what is printed for it.
fn shown<T: Table>(
    alloc: T::Alloc,
    tables: &Tables,
    pair: &mut Pair<'_, T>,
    piece: u32,
) -> Result<Vec<u8, T::Alloc>, AllocError>
    ensures { IfOk result (λ text. IsShownFrom tables.now piece pair.old text.items) }
{
    play(&alloc, tables, pair, piece as usize)?;
    printed(alloc, tables, pair)
}

/// The lines of all that this pair has carried, and the last line.
fn printed<T: Table>(
    alloc: T::Alloc,
    tables: &Tables,
    pair: &Pair<'_, T>,
) -> Result<Vec<u8, T::Alloc>, AllocError>
    ensures { IfOk result (λ text. TellsOfPair tables.now pair.now text.items) }
{
    let (mut text, _verdict) = trace(alloc, pair.recording(), tables, Limit::USUAL)?;
    write_agreement(&mut text, pair.agree(), pair.len())?;
    Ok(text)
}
