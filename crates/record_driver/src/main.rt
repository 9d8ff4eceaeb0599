// Runs a batch of cases through the reader and the writer of the contract record, and writes out all that they answer and
// all that they leave in the areas lent to them. tests/compare_records.py makes the batch and compares every byte.
//
// All numbers are little-endian; a length is a u16, an amount or an entry a u32. The batch is the number of cases (u32) and
// then for each case
//     the lengths of the costs area, the values area and the record, and the record; the length of the output area;
//     a header, the lengths of the costs and the values area, their entries, the length of the output area.
// The first line is read, and written again from the header and the areas that reading gave; the second is written. The
// answers for a case are
//     the reply to reading (u16), the header and both areas; then for each writing
//     the reply (u16), the length of the record that was written (u32) and the output area.
#![tactic(auto)]

ghost use Rattle.std.specs.Prelude.{◌≤◌};

use contract::{Form, Header, Refusal};

const STDIN: i32 = 0;

const STDOUT: i32 = 1;

// What an area holds before it is lent, so that a change shows where there should be none.
const COST_MARK: u32 = 0xA5A5_A5A5;

const VALUE_MARK: u32 = 0x5A5A_5A5A;

const BYTE_MARK: u8 = 0xA5;

// The header that is put beside a refusal to read.
const NO_HEADER: Header = Header {
    price: 0,
    supplier: 0,
    buyer: 0,
    form: Form::Ladder,
    count: 0,
    units: [0; 8],
};

// Numbers. Standard input and output stay with `io`: std's `read_exact` does not say what it leaves where the input ends early.

fn take<const N: usize>() -> [u8; N] {
    let mut bytes = [0u8; N];
    io::read_full(STDIN, &mut bytes);
    bytes
}

fn take_u16() -> u16 {
    u16::from_le_bytes(take())
}

fn take_u32() -> u32 {
    u32::from_le_bytes(take())
}

// A length, cut to that of the area whose part it names.
fn take_length(most: usize) -> usize
    ensures { result ≤ most }
{
    usize::from(take_u16()).min(most)
}

fn put(bytes: &[u8]) {
    io::write_all(STDOUT, bytes);
}

fn put_u16(x: u16) {
    put(&x.to_le_bytes());
}

fn put_u32(x: u32) {
    put(&x.to_le_bytes());
}

// Headers: price, supplier and buyer (u32), form, count and eight units (u16)

// No `From`: neither type is of this crate.
fn form_of(x: u16) -> Form {
    match x {
        0 => Form::Ladder,
        1 => Form::UnitPrices,
        _ => Form::Table,
    }
}

fn take_units() -> [u16; 8] {
    let mut units = [0; 8];
    for n in &mut units {
        *n = take_u16();
    }
    units
}

fn take_header() -> Header {
    Header {
        price: take_u32(),
        supplier: take_u32(),
        buyer: take_u32(),
        form: form_of(take_u16()),
        count: take_u16(),
        units: take_units(),
    }
}

fn put_header(header: Header) {
    put_u32(header.price);
    put_u32(header.supplier);
    put_u32(header.buyer);
    put_u16(header.form as u16);
    put_u16(header.count);
    for n in header.units {
        put_u16(n);
    }
}

// Replies: 0, or the number of the refusal

fn put_reply<T: Copy>(reply: Result<T, Refusal>) {
    put_u16(match reply {
        Ok(_) => 0,
        Err(e) => u32::from(e) as u16,
    });
}

// Areas

fn take_entries(entries: &mut [u32]) {
    for x in entries {
        *x = take_u32();
    }
}

fn put_entries(entries: &[u32]) {
    for x in entries {
        put_u32(*x);
    }
}

// Cases

fn write_into(header: Header, costs: &[u32], values: &[u32], out: &mut [u8]) {
    let written = record::write(header, costs, values, out);
    put_reply(written);
    put(&written.unwrap_or(0).to_le_bytes()[..4]);
    put(out);
}

fn write_record(header: Header, costs: &[u32], values: &[u32]) {
    let mut out = [BYTE_MARK; 8100];
    let room = take_length(out.len());
    write_into(header, costs, values, &mut out[..room]);
}

fn read_and_write(bytes: &[u8], costs: &mut [u32], values: &mut [u32]) {
    let read = record::read(bytes, costs, values);
    let header = read.unwrap_or(NO_HEADER);
    put_reply(read);
    put_header(header);
    put_entries(costs);
    put_entries(values);
    write_record(header, costs, values);
}

fn read_given(bytes: &mut [u8], costs: &mut [u32], values: &mut [u32]) {
    let m = take_length(costs.len());
    let n = take_length(values.len());
    let length = take_length(bytes.len());
    io::read_full(STDIN, &mut bytes[..length]);
    read_and_write(&bytes[..length], &mut costs[..m], &mut values[..n]);
}

fn write_given(costs: &mut [u32], values: &mut [u32]) {
    let header = take_header();
    let m = take_length(costs.len());
    let n = take_length(values.len());
    take_entries(&mut costs[..m]);
    take_entries(&mut values[..n]);
    write_record(header, &costs[..m], &values[..n]);
}

fn run_case() {
    let mut bytes = [0; 9000];
    let mut costs = [COST_MARK; 1010];
    let mut values = [VALUE_MARK; 1010];
    read_given(&mut bytes, &mut costs, &mut values);
    write_given(&mut costs, &mut values);
}

fn main() {
    for _ in 0..take_u32() {
        run_case();
    }
}
