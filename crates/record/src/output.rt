// The parts of a record, each stored from an index on. A store answers the index after it: a writer that held the loan of `out` and the
// index would be no plainer, since each clause says which bytes stand from where to where in `out`.
ghost use Rattle.std.specs.Prelude.{◌≡◌, cond, ◌+◌, ◌*◌, ◌≤◌, eqb, length};
ghost use mathlib.Core.List.{[], ◌++◌, flat_map};
ghost use Rattle.area.specs.Entries.{digits};
ghost use Rattle.grid.specs.Map.{bit_count, stands, standing_cells};
ghost use Rattle.contract.specs.Serialize.{form_bits, map_of, money_bytes};
ghost use Rattle.area.specs.Puts.{Puts};
ghost use Rattle.record.specs.View.Write.{contract_with, count_size, head_bytes, units_byte, Run, run_bytes, grid_with};

use super::rows::ones;
use area::Entry;
use contract::{Form, Header};

// A byte, which is no entry of an area: the lowest of v.
fn put_u8(out: &mut [u8], at: usize, v: u16) -> usize
    requires { at + 1 ≤ length out.old }
    ensures { Puts (digits 1 v) out.old at result out.new }
{
    out[at] = (v % 256) as u8;
    at + 1
}

// A number of two bytes or of four.
fn put<T: Entry>(out: &mut [u8], at: usize, v: T) -> usize
    requires { at + T.BYTES ≤ length out.old }
    ensures { Puts (digits T.BYTES (T.number v)) out.old at result out.new }
{
    v.save(out, at);
    at + T::BYTES
}

// The bit of the map that announces an amount.
fn bit(v: u32, b: u16) -> u16
    ensures { (result ≡ cond (eqb v 0) 0 b) × (result ≤ b) }
{
    if v == 0 { 0 } else { b }
}

fn form_bit(form: Form) -> u16
    ensures { (result ≡ 8 * form_bits form) × (result ≤ 32) }
{
    match form {
        Form::Ladder => 8,
        Form::UnitPrices => 16,
        Form::Table => 32,
    }
}

fn map_of(header: Header) -> u16
    ensures { result ≡ map_of (contract_with header [] [] []) }
{
    bit(header.price, 1) + bit(header.supplier, 2) + bit(header.buyer, 4) + form_bit(header.form)
}

// P, cs or cd; nothing for 0.
fn put_money(out: &mut [u8], at: usize, v: u32) -> usize
    requires { at + length (money_bytes v) ≤ length out.old }
    ensures { Puts (money_bytes v) out.old at result out.new }
{
    if v == 0 { at } else { put(out, at, v) }
}

fn money_len(v: u32) -> usize
    ensures { (result ≡ length (money_bytes v)) × (result ≤ 4) }
{
    if v == 0 { 0 } else { 4 }
}

fn put_count(out: &mut [u8], at: usize, form: Form, count: u16) -> usize
    requires { at + count_size form ≤ length out.old }
    ensures { Puts (digits (count_size form) count) out.old at result out.new }
{
    match form {
        Form::Ladder => put(out, at, count),
        Form::UnitPrices | Form::Table => put_u8(out, at, count),
    }
}

fn count_len(form: Form) -> usize
    ensures { (result ≡ count_size form) × (result ≤ 2) }
{
    match form {
        Form::Ladder => 2,
        Form::UnitPrices | Form::Table => 1,
    }
}

// The record up to its count.
pub(crate) fn put_head(out: &mut [u8], header: Header) -> usize
    requires { length (head_bytes header) ≤ length out.old }
    ensures { Puts (head_bytes header) out.old 0 result out.new }
{
    let i = put(out, 0, map_of(header));
    let j = put_money(out, i, header.price);
    let k = put_money(out, j, header.supplier);
    let l = put_money(out, k, header.buyer);
    put_count(out, l, header.form, header.count)
}

pub(crate) fn head_len(header: Header) -> usize
    ensures { (result ≡ length (head_bytes header)) × (result ≤ 16) }
{
    2 + money_len(header.price)
        + money_len(header.supplier)
        + money_len(header.buyer)
        + count_len(header.form)
}

// The units of segment i, where they are stated.
fn put_segment_units(out: &mut [u8], at: usize, units: &[u16], i: usize) -> usize
    requires { at + length (units_byte units.now i) ≤ length out.old }
    ensures { Puts (units_byte units.now i) out.old at result out.new }
{
    if i < units.len() {
        put_u8(out, at, units[i])
    } else {
        at
    }
}

fn put_segment(out: &mut [u8], at: usize, units: &[u16], i: usize, cost: u32, value: u32) -> usize
    requires { at + length (units_byte units.now i ++ digits 4 cost ++ digits 4 value) ≤ length out.old }
    ensures { Puts (units_byte units.now i ++ digits 4 cost ++ digits 4 value) out.old at result out.new }
{
    let j = put_segment_units(out, at, units, i);
    let k = put(out, j, cost);
    put(out, k, value)
}

// The segments of a ladder, which state no units, or of unit prices.
pub(crate) fn put_segments(
    out: &mut [u8],
    at: usize,
    units: &[u16],
    costs: &[u32],
    values: &[u32],
) -> usize
    requires { Run units.now costs.now values.now × (at + length (run_bytes units.now costs.now values.now) ≤ length out.old) }
    ensures { Puts (run_bytes units.now costs.now values.now) out.old at result out.new }
{
    let mut j = at;
    for i in 0..costs.len() {
        j = put_segment(out, j, units, i, costs[i], values[i]);
    }
    j
}

// The units of a table's items.
pub(crate) fn put_units(out: &mut [u8], at: usize, units: &[u16]) -> usize
    requires { at + length units.now ≤ length out.old }
    ensures { Puts (flat_map (digits 1) units.now) out.old at result out.new }
{
    let mut j = at;
    for n in units {
        j = put_u8(out, j, *n);
    }
    j
}

fn put_map(out: &mut [u8], at: usize, map: &[u8]) -> usize
    requires { at + length map.now ≤ length out.old }
    ensures { Puts map.now out.old at result out.new }
{
    let end = at + map.len();
    out[at..end].copy_from_slice(map);
    end
}

// The cell of row r, if it stands.
fn put_cell(out: &mut [u8], at: usize, map: &[u8], r: usize, cell: u32) -> usize
    requires { at + length (cond (stands map.now r) (digits 4 cell) []) ≤ length out.old }
    ensures { Puts (cond (stands map.now r) (digits 4 cell) []) out.old at result out.new }
{
    if grid::stands(map, r) {
        put(out, at, cell)
    } else {
        at
    }
}

// The cells that stand.
fn put_cells(out: &mut [u8], at: usize, map: &[u8], cells: &[u32]) -> usize
    requires { at + length (flat_map (digits 4) (standing_cells map.now cells.now (length cells.now))) ≤ length out.old }
    ensures { Puts (flat_map (digits 4) (standing_cells map.now cells.now (length cells.now))) out.old at result out.new }
{
    let mut j = at;
    for r in 0..cells.len() {
        j = put_cell(out, j, map, r, cells[r]);
    }
    j
}

// A row map and its cells.
pub(crate) fn put_grid(out: &mut [u8], at: usize, map: &[u8], cells: &[u32]) -> usize
    requires { at + length (grid_with map.now cells.now) ≤ length out.old }
    ensures { Puts (grid_with map.now cells.now) out.old at result out.new }
{
    let j = put_map(out, at, map);
    put_cells(out, j, map, cells)
}

pub(crate) fn grid_len(map: &[u8]) -> usize
    requires { length map.now ≤ 16 }
    ensures { (result ≡ length map.now + 4 * bit_count map.now) × (result ≤ 528) }
{
    map.len() + 4 * ones(map)
}
