//! The digits of codes, made eight at a time where a code has many columns.
ghost use Rattle.std.specs.Prelude.{◌≡◌, ℕ, ◌+◌, ◌*◌, ◌<◌, ◌≤◌, ◌==◌, length, replicate, slice_index_or, IfOk};
ghost use Rattle.std.specs.Int.{bit_at};
ghost use Rattle.std.specs.List.{flat_map};
ghost use Rattle.cb_lanes.specs.Words.{bit_of};
ghost use Rattle.cb_report.specs.ByteDigits.{AreDigitsOfByte, AreDigitsOfBytes, HasDigits, KeepsDigitsBefore, digit_byte};
ghost use Rattle.cb_report.specs.Gathered.{Gathers};
ghost use Rattle.cb_report.specs.MatrixText.{digit};

use crate::gathered::Gathering;
use cb_bits::Row;
use cb_compact::CompactRow;
use cb_io::Sink;
use std::alloc::{AllocError, Global};
use std::marker::Model;

// How many values a byte has.
const BYTES: usize = 256;

/// Room for the digits of a code. Contracts see how many columns a code has.
#[derive(Drop)]
pub(crate) struct CodeDigits {
    columns: usize,
    // The digits of each byte.
    table: Vec<[u8; 8]>,
    // The digits of a whole row, and those that complete its last word.
    digits: Vec<u8>,
    // A zero for each column.
    zeros: Vec<u8>,
}

impl Model for CodeDigits {
    ghost use Rattle.std.specs.Prelude.{◌≡◌, ◌≤◌, ◌+◌, ℕ, length, replicate};
    ghost use Rattle.cb_report.specs.ByteDigits.{AreDigitsOfBytes};

    ghost Value = { ℕ };

    ghost view = { λ d. d.columns };

    ghost invariant = { λ d.
        AreDigitsOfBytes d.table.items × (d.columns + 63 ≤ length d.digits.items) × (d.zeros.items ≡ replicate d.columns 48) };
}

impl CodeDigits {
    /// Room for codes of so many columns.
    pub(crate) fn new(alloc: Global, columns: usize) -> Result<CodeDigits, AllocError>
        ensures { IfOk result (λ digits. digits ≡ columns) }
    {
        let table = digits_of_bytes(alloc)?;
        let digits = digit_room(alloc, columns)?;
        let zeros = vec![in alloc; b'0'; columns]?;
        Ok(CodeDigits {
            columns,
            table,
            digits,
            zeros,
        })
    }

    /// Adds the digits of a code.
    pub(crate) fn put<O: Sink>(&mut self, out: &mut O, gathering: &mut Gathering, code: &CompactRow)
        requires { length code.now ≡ self.old }
        ensures same { self.new ≡ self.old }
        ensures text { Gathers (O.tells out.old) (O.tells out.new) gathering.old gathering.new (flat_map digit code.now) }
    {
        match code.whole() {
            Some(row) => put_whole(out, gathering, &mut self.digits, &self.table, row),
            None => put_sparse(out, gathering, &mut self.zeros, code),
        }
    }
}

// Adds the digits of a whole row.
fn put_whole<O: Sink>(
    out: &mut O,
    gathering: &mut Gathering,
    digits: &mut Vec<u8>,
    table: &[[u8; 8]],
    row: &Row,
)
    requires room { length row.now + 63 ≤ length digits.old.items }
    requires table { AreDigitsOfBytes table.now }
    ensures length { length digits.new.items ≡ length digits.old.items }
    ensures text { Gathers (O.tells out.old) (O.tells out.new) gathering.old gathering.new (flat_map digit row.now) }
{
    write_words(digits, table, row.words());
    gathering.put(out, &digits[..row.len()]);
}

// Adds zeros, of which those become ones for a while whose columns the code has.
fn put_sparse<O: Sink>(
    out: &mut O,
    gathering: &mut Gathering,
    zeros: &mut Vec<u8>,
    code: &CompactRow,
)
    requires { zeros.old.items ≡ replicate (length code.now) 48 }
    ensures same { zeros.new.items ≡ zeros.old.items }
    ensures text { Gathers (O.tells out.old) (O.tells out.new) gathering.old gathering.new (flat_map digit code.now) }
{
    mark_ones(zeros, code);
    gathering.put(out, zeros);
    clear_ones(zeros, code);
}

// Makes the zero of each column that the code has a one. At first all are zeros, the digit of byte 48.
fn mark_ones(digits: &mut [u8], code: &CompactRow)
    requires { digits.old ≡ replicate (length code.now) 48 }
    ensures { digits.new ≡ flat_map digit code.now }
{
    let mut from = 0;
    while let Some(column) = code.next_one(from) {
        digits[column] = b'1';
        from = column + 1;
    }
}

// Makes the one of each column that the code has a zero again.
fn clear_ones(digits: &mut [u8], code: &CompactRow)
    requires { digits.old ≡ flat_map digit code.now }
    ensures { digits.new ≡ replicate (length code.now) 48 }
{
    let mut start = 0;
    while let Some(column) = code.next_one(start) {
        digits[column] = b'0';
        start = column + 1;
    }
}

// Writes the digits of these words, 64 of each, at the start.
fn write_words(digits: &mut [u8], table: &[[u8; 8]], words: &[u64])
    requires room { 64 * length words.now ≤ length digits.old }
    requires table { AreDigitsOfBytes table.now }
    ensures length { length digits.new ≡ length digits.old }
    ensures digits { (k : ℕ) → k < 64 * length words.now → slice_index_or digits.new k 0 ≡ digit_byte (bit_of words.now k) }
{
    for i in 0..words.len() {
        write_word(digits, 64 * i, table, words[i]);
    }
}

// Writes the digits of a word from a position on.
fn write_word(digits: &mut [u8], at: usize, table: &[[u8; 8]], word: u64)
    requires room { at + 64 ≤ length digits.old }
    requires table { AreDigitsOfBytes table.now }
    ensures length { length digits.new ≡ length digits.old }
    ensures before { KeepsDigitsBefore at digits.old digits.new }
    ensures digits { HasDigits digits.new at 64 word }
{
    for i in 0..8 {
        let byte = (word >> (8 * i)) % 256;
        write_byte(digits, at + 8 * i, table, byte as usize);
    }
}

// Writes the digits of a byte from a position on.
fn write_byte(digits: &mut [u8], at: usize, table: &[[u8; 8]], byte: usize)
    requires room { at + 8 ≤ length digits.old }
    requires table { AreDigitsOfBytes table.now }
    requires byte { byte < 256 }
    ensures length { length digits.new ≡ length digits.old }
    ensures before { KeepsDigitsBefore at digits.old digits.new }
    ensures digits { HasDigits digits.new at 8 byte }
{
    let eight = table[byte];
    digits[at..at + 8].copy_from_slice(&eight);
}

// Room for the digits of so many columns, and for those that complete the last word.
fn digit_room(alloc: Global, columns: usize) -> Result<Vec<u8>, AllocError>
    ensures { IfOk result (λ digits. columns + 63 ≤ length digits.items) }
{
    match columns.checked_add(63) {
        Some(size) => vec![in alloc; b'0'; size],
        None => Err(AllocError),
    }
}

// The digits of each byte.
fn digits_of_bytes(alloc: Global) -> Result<Vec<[u8; 8]>, AllocError>
    ensures { IfOk result (λ table. AreDigitsOfBytes table.items) }
{
    let mut table = Vec::with_capacity(alloc, BYTES)?;
    for byte in 0..BYTES {
        table.push(digits_of(byte))?;
    }
    Ok(table)
}

// The digits of a byte, from its least bit on.
fn digits_of(byte: usize) -> [u8; 8]
    ensures { AreDigitsOfByte result byte }
{
    let mut digits = [b'0'; 8];
    for bit in 0..8 {
        digits[bit] = bit_digit(byte, bit);
    }
    digits
}

// The digit of a bit of a byte.
fn bit_digit(byte: usize, bit: usize) -> u8
    requires { bit < 8 }
    ensures { result ≡ digit_byte (bit_at byte bit == 1) }
{
    if byte >> bit & 1 == 1 { b'1' } else { b'0' }
}
