// Signatures of patterns: 64 bits that exclude, for most rows, that two patterns include theirs.
ghost use Rattle.std.specs.Prelude.{◌≡◌};
ghost use Rattle.lucid_merge.specs.Marks.{slot};
ghost use Rattle.lucid_merge.specs.Signs.{bits_at, with_bits};

use lucid_base::Memory;
use lucid_code::Literal;
use lucid_tables::Row;
use std::alloc::Global;

/// Returns the index of a literal's mark and bits.
pub(crate) fn slot(literal: Literal) -> usize
    ensures { result ≡ slot literal }
{
    ((literal.value ^ (u64::from(literal.field) * 521)) % 4096) as usize + 1
}

fn bits_at(bits: &[u64], literal: Literal) -> u64
    ensures { result ≡ bits_at bits.now literal }
{
    match bits.get(slot(literal)) {
        None => 0,
        Some(found) => *found,
    }
}

/// Returns these bits and those of a pattern's literals.
pub(crate) fn with_bits(bits: &[u64], from: u64, pattern: &[Literal]) -> u64
    ensures { result ≡ with_bits bits.now from pattern.now }
{
    let mut sign = from;
    for literal in pattern {
        sign |= bits_at(bits, *literal);
    }
    sign
}

/// Returns a bit for each literal of these rows, by its slot: mostly one for literals of the same rows, and another for others, so that the
/// common literals of most rows take few bits. Any bits would be right; these exclude the most. Few pairs cost less than a table, and get none.
pub(crate) fn bits_for(alloc: Global, a: &[Row], b: &[Row]) -> Result<Vec<u64>, Memory> {
    if a.len().saturating_mul(b.len()) <= 64 {
        return Ok(Vec::new(alloc));
    }
    let mut bits = vec![in alloc; 0u64; 4097]?;
    stir_rows(&mut bits, a, 1);
    stir_rows(&mut bits, b, 1_000_000);
    for found in &mut bits {
        *found = 1 << (*found >> 58);
    }
    Ok(bits)
}

/// Mixes the number of each row into the bits of its literals.
fn stir_rows(bits: &mut Vec<u64>, rows: &[Row], first: u64) {
    let mut number = first;
    for row in rows {
        number = number.wrapping_add(1);
        stir_row(bits, row.pattern.as_slice(), number);
    }
}

fn stir_row(bits: &mut Vec<u64>, pattern: &[Literal], number: u64) {
    for literal in pattern {
        let place = slot(*literal);
        if place < bits.len() {
            bits[place] = (bits[place] ^ number).wrapping_mul(0x9E37_79B9_7F4A_7C15);
        }
    }
}
