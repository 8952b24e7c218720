//! The lines of a census.

ghost use Rattle.std.specs.Prelude.{◌≡◌, ◌++◌, ◌∷◌, [], IfOk, OnOk, codes, decimal};
ghost use Rattle.std.specs.List.{flat_map, range_with_len};
ghost use Rattle.heap_geometry.specs.declared.limits.TheConstants.{CLASSES};
ghost use Rattle.trace_text.specs.declared.limits.TheConstants.{SPACE};
ghost use Rattle.trace_text.specs.Text.{line};
ghost use Rattle.trace_commands.specs.Censuses.{census_text, class_line, line_of};

use heap_census::census::{CLASS_COUNT, Census, ClassCount};
use std::alloc::{AllocError, Global};
use trace_text::text::Text;

/// One more column of a line: what it counts, and the number.
fn write_column(text: &mut Text, word: &str, number: u64) -> Result<(), AllocError>
    ensures { OnOk result (text.new ≡ text.old ++ SPACE ∷ (word.now ++ SPACE ∷ decimal number)) }
{
    text.word(word)?;
    text.number(number)
}

/// The line of a class.
fn class_line(alloc: Global, class: usize, count: ClassCount) -> Result<Vec<u8>, AllocError>
    ensures { IfOk result (λ text. text.items ≡ class_line class count) }
{
    let mut text = Text::new(alloc);
    text.begin("class")?;
    text.number(class as u64)?;
    write_column(&mut text, "blocks", count.blocks)?;
    write_column(&mut text, "free", count.free)?;
    write_column(&mut text, "reserved", count.reserved)?;
    write_column(&mut text, "live", count.live)?;
    text.end_line()?;
    Ok(text.into_bytes())
}

/// The line of what is free.
fn free_line(alloc: Global, census: &Census) -> Result<Vec<u8>, AllocError>
    ensures { IfOk result (λ text. text.items
        ≡ line (codes "free" ∷ codes "frames" ∷ decimal census.now.free_frames ∷ codes "units" ∷ decimal census.now.free_units ∷ [])) }
{
    let mut text = Text::new(alloc);
    text.begin("free")?;
    text.word("frames")?;
    text.number(u64::from(census.free_frames))?;
    text.word("units")?;
    text.number(u64::from(census.free_units))?;
    text.end_line()?;
    Ok(text.into_bytes())
}

/// A line for each class.
fn class_lines(alloc: Global, census: &Census) -> Result<Vec<u8>, AllocError>
    ensures { IfOk result (λ text. text.items ≡ flat_map (line_of census.now) (range_with_len 0 CLASSES)) }
{
    let mut lines = Vec::new(alloc);
    for class in 0..CLASS_COUNT {
        let line = class_line(alloc, class, census.per_class[class])?;
        lines.extend_from_slice(line.as_slice())?;
    }
    Ok(lines)
}

/// The lines of a census: one for each class, and one for the frames and units that are free.
pub fn census_lines(alloc: Global, census: &Census) -> Result<Vec<u8>, AllocError>
    ensures { IfOk result (λ text. text.items ≡ census_text census.now) }
{
    let mut lines = class_lines(alloc, census)?;
    let free = free_line(alloc, census)?;
    lines.extend_from_slice(free.as_slice())?;
    Ok(lines)
}
