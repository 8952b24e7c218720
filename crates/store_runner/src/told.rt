//! The text that tells of a script.

ghost use Rattle.std.specs.Prelude.{◌≡◌, ◌≤◌, ◌++◌, ◌∷◌, [], ◌+◌, ◌*◌, ◌%◌, ◌^◌, codes, decimal, IfOk, OnOk, length, sum};
ghost use Rattle.std.specs.List.{flat_map};
ghost use Rattle.trace_text.specs.Text.{line};
ghost use Rattle.store_runner.specs.declared.told.TheConstants.{PAIRS_MOST};
ghost use Rattle.store_runner.specs.Texts.{pair_line, text_of, words_with};

use heap_geometry::need::{class_of, usable};
use std::alloc::{AllocError, Global};
use trace_text::text::Text;

/// The most pairs that a script leaves.
pub const PAIRS_MOST: usize = 7;

/// The line of a pair.
fn write_pair(alloc: Global, text: &mut Text, key: u64, value: u64) -> Result<(), AllocError>
    ensures { OnOk result (text.new ≡ text.old ++ pair_line (key, value)) }
{
    let word = format!(in alloc; "{key}")?;
    text.line_with(word.as_str(), value)
}

/// A line for each pair.
fn write_pairs(alloc: Global, text: &mut Text, pairs: &[(u64, u64)]) -> Result<(), AllocError>
    ensures { OnOk result (text.new ≡ text.old ++ flat_map pair_line pairs.now) }
{
    for i in 0..pairs.len() {
        let (key, value) = pairs[i];
        write_pair(alloc, text, key, value)?;
    }
    Ok(())
}

/// The sum of words, modulo 2^64.
fn sum_of(words: &[u64]) -> u64
    ensures { result ≡ sum words.now % 2 ^ 64 }
{
    let mut total = 0u64;
    for i in 0..words.len() {
        total = total.wrapping_add(words[i]);
    }
    total
}

/// The line of the record.
fn write_record(text: &mut Text, words: &[u64]) -> Result<(), AllocError>
    ensures { OnOk result (text.new
        ≡ text.old ++ line (codes "record" ∷ decimal (length words.now) ∷ codes "sum" ∷ decimal (sum words.now % 2 ^ 64) ∷ [])) }
{
    text.begin("record")?;
    text.number(words.len() as u64)?;
    text.word("sum")?;
    text.number(sum_of(words))?;
    text.end_line()
}

/// The usable words of so many nodes and of the block of a record that has as many words.
fn live_words(nodes: u32) -> u32
    requires { nodes ≤ PAIRS_MOST }
    ensures { result ≡ words_with nodes }
{
    3 * nodes + usable(class_of(nodes + 1))
}

/// The line of what is live.
fn write_live(text: &mut Text, nodes: u32) -> Result<(), AllocError>
    requires { nodes ≤ PAIRS_MOST }
    ensures { OnOk result (text.new
        ≡ text.old ++ line (codes "live" ∷ decimal (nodes + 1) ∷ codes "words" ∷ decimal (words_with nodes) ∷ [])) }
{
    text.begin("live")?;
    text.number(u64::from(nodes) + 1)?;
    text.word("words")?;
    text.number(u64::from(live_words(nodes)))?;
    text.end_line()
}

/// The text of a script of so many rounds, from what was read back.
pub fn told(
    alloc: Global,
    rounds: u32,
    pairs: &[(u64, u64)],
    words: &[u64],
) -> Result<Vec<u8>, AllocError>
    requires { length pairs.now ≤ PAIRS_MOST }
    ensures { IfOk result (λ text. text.items ≡ text_of rounds pairs.now words.now) }
{
    let mut text = Text::new(alloc);
    text.line_with("store", u64::from(rounds))?;
    write_pairs(alloc, &mut text, pairs)?;
    write_record(&mut text, words)?;
    write_live(&mut text, pairs.len() as u32)?;
    Ok(text.into_bytes())
}
