//! The memory of a heap before the first step.

ghost use Rattle.std.specs.Prelude.{IfOk};
ghost use Rattle.live_heap.specs.FirstRoom.{HasWritten, IsBlankRoom, IsFirstRoom, IsLaidBehind, IsOwn};

use crate::laying::mark_count;
use crate::placement::Placement;
use plain_words::Room;
use std::alloc::{AllocError, Global};
use step_machine::first::opening;
use word_table::name::WordName;

/// The memory at opening. The arena isn't written. Behind it lie the heap's own words, of which all are 0 but those of
/// the two stacks, and the marks, all 0.
pub(crate) fn first_room(alloc: Global, layout: &Placement) -> Result<Room<Global>, AllocError>
    ensures { IfOk result (λ room. IsFirstRoom layout.now room.plain.places) }
{
    let order = layout.layout();
    let mut room = blank_room(alloc, layout)?;
    for desc in 0..order.descriptors() as u16 {
        let next = WordName::Next(desc);
        write(&mut room, layout, next, opening(&order, next));
    }
    for frame in 0..layout.geometry().frames as u16 {
        let next = WordName::FrameNext(frame);
        write(&mut room, layout, next, opening(&order, next));
    }
    write(&mut room, layout, WordName::FrameHead, 1);
    write(&mut room, layout, WordName::DescHead, 1);
    Ok(room)
}

/// Memory in which the arena is blank, and every word behind it is 0.
fn blank_room(alloc: Global, layout: &Placement) -> Result<Room<Global>, AllocError>
    ensures { IfOk result (λ room. IsBlankRoom layout.now room.plain.places) }
{
    let arena_words = layout.arena_words() as usize;
    let words = layout.count() as usize + mark_count(layout) as usize;
    let (all, backing) = Room::new(alloc, words)?.into_parts();
    let (arena, mut own) = all.split(arena_words);
    own.fill(backing.start, arena_words, words, 0);
    Ok(Room {
        plain: arena.join(own),
        backing,
    })
}

/// Writes one of the heap's own words.
fn write(room: &mut Room<Global>, layout: &Placement, name: WordName, new: u64)
    requires behind { IsLaidBehind layout.now room.old.plain.places }
    requires own { IsOwn layout.now name }
    ensures { HasWritten layout.now room.old.plain.places name new room.new.plain.places }
{
    room.lay(layout.place(name) as usize, new);
}
