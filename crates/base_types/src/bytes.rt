//! Numbers and names of transactions in bytes, the highest byte first.

ghost use Rattle.std.specs.Prelude.{◌≡◌, ◌≤◌, ◌<◌, ◌+◌, ◌^◌, length};
ghost use Rattle.byteorder.specs.Endian.{big_bytes};
ghost use Rattle.base_types.specs.Bytes.{AreApart, Puts, number_at, xid_at, xid_bytes};

use crate::names::{InstNo, Xid};
use byteorder::{BigEndian, ByteOrder};

/// Writes a number of 2 bytes at a place.
pub fn put_u16(out: &mut [u8], at: usize, number: u16)
    requires { at + 2 ≤ length out.old }
    ensures { Puts out.old out.new at (big_bytes 2 number) }
{
    BigEndian::write_u16(&mut out[at..], number);
}

/// The number of 2 bytes at a place.
pub fn get_u16(bytes: &[u8], at: usize) -> u16
    requires { at + 2 ≤ length bytes.now }
    ensures { result ≡ number_at 2 bytes.now at }
{
    BigEndian::read_u16(&bytes[at..])
}

/// Writes a number of 4 bytes at a place.
pub fn put_u32(out: &mut [u8], at: usize, number: u32)
    requires { at + 4 ≤ length out.old }
    ensures { Puts out.old out.new at (big_bytes 4 number) }
{
    BigEndian::write_u32(&mut out[at..], number);
}

/// The number of 4 bytes at a place.
pub fn get_u32(bytes: &[u8], at: usize) -> u32
    requires { at + 4 ≤ length bytes.now }
    ensures { result ≡ number_at 4 bytes.now at }
{
    BigEndian::read_u32(&bytes[at..])
}

/// Writes a number of 8 bytes at a place.
pub fn put_u64(out: &mut [u8], at: usize, number: u64)
    requires { at + 8 ≤ length out.old }
    ensures { Puts out.old out.new at (big_bytes 8 number) }
{
    BigEndian::write_u64(&mut out[at..], number);
}

/// The number of 8 bytes at a place.
pub fn get_u64(bytes: &[u8], at: usize) -> u64
    requires { at + 8 ≤ length bytes.now }
    ensures { result ≡ number_at 8 bytes.now at }
{
    BigEndian::read_u64(&bytes[at..])
}

/// Writes the name of a transaction, which takes 8 bytes, at a place.
pub fn put_xid(out: &mut [u8], at: usize, xid: Xid)
    requires { at + 8 ≤ length out.old }
    ensures { Puts out.old out.new at (xid_bytes xid) }
{
    let seg = xid.seg;
    out[at] = seg.0;
    out[at + 1] = xid.slot;
    put_u16(out, at + 2, 0);
    put_u32(out, at + 4, xid.wrap);
}

/// The name of a transaction in the 8 bytes at a place. The two bytes between its slot and its wrap
/// aren't looked at.
pub fn get_xid(bytes: &[u8], at: usize) -> Xid
    requires { at + 8 ≤ length bytes.now }
    ensures { result ≡ xid_at bytes.now at }
{
    Xid {
        seg: InstNo(bytes[at]),
        slot: bytes[at + 1],
        wrap: get_u32(bytes, at + 4),
    }
}

/// A law: where a number was put, it stands. `old` and `new` are the bytes before and after.
pub fn number_stands_where_put(old: &[u8], new: &[u8], at: usize, size: usize, number: u64)
    requires fits { at + size ≤ length old.now }
    requires small { number < 256 ^ size }
    requires put { Puts old.now new.now at (big_bytes size number) }
    ensures { number_at size new.now at ≡ number }
{}

/// A law: where the name of a transaction was put, it stands. `old` and `new` are the bytes before
/// and after.
pub fn xid_stands_where_put(old: &[u8], new: &[u8], at: usize, xid: Xid)
    requires fits { at + 8 ≤ length old.now }
    requires put { Puts old.now new.now at (xid_bytes xid) }
    ensures { xid_at new.now at ≡ xid }
{}

/// A law: a put of the bytes of `text` at one place leaves what stands in `size` bytes at another
/// place. `old` and `new` are the bytes before and after.
pub fn put_leaves_others(old: &[u8], new: &[u8], at: usize, text: &[u8], place: usize, size: usize)
    requires fits { at + length text.now ≤ length old.now }
    requires put { Puts old.now new.now at text.now }
    requires apart { AreApart at (length text.now) place size }
    ensures number { number_at size new.now place ≡ number_at size old.now place }
    ensures xid { 8 ≤ size → xid_at new.now place ≡ xid_at old.now place }
{}
