// The intake cases: payloads of 0, 15, 16, 23 and 24 bytes under a mark; the same mark on cancelled and visible rows; marks that differ in one byte; short payloads before and
// behind the answer; no pair, the least of two pairs, and the first two of three; and refusals.
#![tactic(auto)]

ghost use Rattle.std.specs.Prelude.{◌≡◌, ◌≤◌, ◌<◌, length};

use endian::PageNumber;
use intake::Order;
use refusals::Refused;
use std::io;

const MAGIC: u64 = 0x0123_4567_89AB_CDEF;

// The second half of every mark but one.
const HIGH: u64 = 0xF0E0_D0C0_B0A0_9080;

// ---- pages

// The page with n in the two bytes at a place.
fn with(mut p: [u8; 16384], at: usize, n: u16) -> [u8; 16384] {
    endian::put_u16(&mut p, at, n);
    p
}

// A page of a type with an id, of so many slots, whose tuples start at 15,000 of the body.
fn headed(kind: u16, id: u16, count: u16) -> [u8; 16384]
    requires { count ≤ 100 }
{
    let mut p = [0u8; 16384];
    endian::put_u64(&mut p, 0, MAGIC);
    let q = with(with(p, 8, kind), 10, count);
    with(with(with(q, 16, id), 32, 4 * count), 34, 15000)
}

// The page with its checksum anew.
fn summed(mut p: [u8; 16384]) -> [u8; 16384] {
    let c = crc32c::crc32c(&p[64..]);
    endian::put_u32(&mut p, 12, c);
    p
}

// The page with a mark of two halves, a part number and a quantity of ten times it at a place.
fn with_payload(mut p: [u8; 16384], at: usize, low: u64, high: u64, part: u32) -> [u8; 16384]
    requires { (at ≤ 16000) × (part ≤ 1000) }
{
    endian::put_u64(&mut p, at, low);
    endian::put_u64(&mut p, at + 8, high);
    endian::put_u32(&mut p, at + 16, part);
    endian::put_u32(&mut p, at + 20, 10 * part);
    p
}

// The page with a row in slot k, 100 bytes behind that of the slot before it: its mark, its part number, and how many bytes its payload has.
fn with_mark(p: [u8; 16384], k: usize, low: u64, high: u64, part: u32, n: u16) -> [u8; 16384]
    requires { (k < 10) × (part ≤ 1000) × (n ≤ 32) }
{
    let o = 15000 + 100 * k;
    let q = with(with(p, 64 + 4 * k, o as u16), 66 + 4 * k, 24 + n);
    with_payload(q, 64 + o + 24, low, high, part)
}

fn with_row(p: [u8; 16384], k: usize, low: u64, part: u32, n: u16) -> [u8; 16384]
    requires { (k < 10) × (part ≤ 1000) × (n ≤ 32) }
{
    with_mark(p, k, low, HIGH, part, n)
}

// Mark 1 cancelled by its deleted byte, and by its xmax; with 23, 16 and 15 bytes; no payload; marks that differ from it in the first and in the last byte.
fn passed_over() -> [u8; 16384] {
    let p = with(with_row(headed(1, 1, 8), 0, 1, 10, 24), 15080, 1);
    let q = with(with_row(p, 1, 1, 11, 24), 15172, 1);
    let r = with_row(
        with_row(with_row(q, 2, 1, 12, 23), 3, 1, 13, 16),
        4,
        1,
        14,
        15,
    );
    let s = with_row(with_row(r, 5, 1, 15, 0), 6, 2, 16, 24);
    summed(with_mark(s, 7, 1, 0x70E0_D0C0_B0A0_9080, 17, 24))
}

// An empty slot; mark 1 with 24 bytes, and with 32; mark 4; a payload of 23 bytes; marks 2 and 4.
fn orders() -> [u8; 16384] {
    let p = with_row(with_row(headed(1, 2, 7), 1, 1, 21, 24), 2, 1, 22, 32);
    let q = with_row(with_row(p, 3, 4, 23, 24), 4, 4, 24, 23);
    summed(with_row(with_row(q, 5, 2, 25, 24), 6, 4, 26, 24))
}

// A free page with the bytes of an order; rows that are passed over; orders.
fn area() -> [u8; 49152] {
    let mut a = [0u8; 49152];
    page::inner::store(&mut a, 0, &summed(with_row(headed(4, 0, 1), 0, 1, 9, 24)));
    page::inner::store(&mut a, 1, &passed_over());
    page::inner::store(&mut a, 2, &orders());
    a
}

// ---- answers

fn show(rt: &impl Print, o: Order) -> io::Result<()> {
    print!(rt;
        " page {} slot {} part {} quantity {}",
        o.page.0, o.slot, o.part, o.quantity
    )
}

// What a refused search shows in place of an order.
fn show_none(rt: &impl Print) -> io::Result<()> {
    show(
        rt,
        Order {
            page: PageNumber(0),
            slot: 0,
            part: 0,
            quantity: 0,
        },
    )
}

fn show_found(rt: &impl Print, o: Option<Order>) -> io::Result<()> {
    match o {
        Some(o) => show(rt, o),
        None => show_none(rt),
    }
}

fn show_refused(rt: &impl Print, e: Refused) -> io::Result<()> {
    print!(rt; "{} at {}, found 0", e.refusal.number(), e.place)
}

fn find(rt: &impl Print, pages: &[u8], low: u64, high: u64) -> io::Result<()> {
    let mut mark = [0u8; 16];
    endian::put_u64(&mut mark, 0, low);
    endian::put_u64(&mut mark, 8, high);
    print!(rt; "mark {low}: ")?;
    match intake::find(MAGIC, pages, &mark) {
        Ok(f) => {
            print!(rt; "0 at 0, found {}", f.order.is_some() as u8)?;
            show_found(rt, f.order)?;
            println!(rt; ", short {}", f.short)
        }
        Err(e) => {
            show_refused(rt, e)?;
            show_none(rt)?;
            println!(rt; ", short 0")
        }
    }
}

fn repeated(rt: &impl Print, pages: &[u8]) -> io::Result<()> {
    print!(rt; "repeated: ")?;
    let pair = match intake::repeated(MAGIC, pages) {
        Ok(pair) => {
            print!(rt; "0 at 0, found {},", pair.is_some() as u8)?;
            pair
        }
        Err(e) => {
            show_refused(rt, e)?;
            print!(rt; ",")?;
            None
        }
    };
    show_found(rt, pair.map(|p| p.first))?;
    print!(rt; ",")?;
    show_found(rt, pair.map(|p| p.second))?;
    println!(rt)
}

fn find_cases(rt: &impl Print, a: &[u8]) -> io::Result<()> {
    find(rt, a, 1, HIGH)?;
    find(rt, a, 2, HIGH)?;
    find(rt, a, 3, HIGH)?;
    find(rt, a, 4, HIGH)?;
    find(rt, a, 1, 0x70E0_D0C0_B0A0_9080)?;
    find(rt, a, 0, 0)?;
    find(rt, b"", 1, HIGH)
}

// Pages 0 and 1 have no pair; with page 2 mark 2's is the least, though mark 1's ends before it; with mark 2 on page 1 cancelled, mark 1's; with two orders more, the first two of three.
fn repeated_cases(rt: &impl Print, a: &[u8]) -> io::Result<()>
    requires { length a.now ≡ 49152 }
{
    repeated(rt, b"")?;
    repeated(rt, &a[0..32768])?;
    repeated(rt, a)
}

fn without_the_earliest(rt: &impl Print) -> io::Result<()> {
    let mut a = area();
    page::inner::store(
        &mut a,
        1,
        &summed(with(with_row(headed(1, 1, 1), 0, 2, 16, 24), 15080, 1)),
    );
    repeated(rt, &a)?;
    page::inner::store(&mut a, 1, &summed(with_row(headed(1, 1, 1), 0, 4, 30, 24)));
    repeated(rt, &a)
}

// The area with one byte changed.
fn both_in(rt: &impl Print, at: usize, b: u8) -> io::Result<()>
    requires { at < 49152 }
{
    let mut a = area();
    a[at] = b;
    find(rt, &a, 1, HIGH)?;
    repeated(rt, &a)
}

// Both refuse as the listing does: 1, 11, 17, 18, 19.
fn refused(rt: &impl Print, a: &[u8]) -> io::Result<()>
    requires { length a.now ≡ 49152 }
{
    find(rt, &a[0..49151], 1, HIGH)?;
    repeated(rt, &a[0..49151])?;
    both_in(rt, 32768, 0)?;
    both_in(rt, 32784, 3)?;
    both_in(rt, 49151, 1)?;
    both_in(rt, 32802, 255)
}

fn main(rt: HostRuntime) -> io::Result<()> {
    let a = area();
    find_cases(&rt, &a)?;
    repeated_cases(&rt, &a)?;
    without_the_earliest(&rt)?;
    refused(&rt, &a)
}
