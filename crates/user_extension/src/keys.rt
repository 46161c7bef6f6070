//! Names as numbers: by these the order of most names is seen, and that most are no names of the
//! tables.
ghost use Rattle.std.specs.Prelude.{◌≡◌, ◌<◌, ◌/◌, ◌↔◌, length, take, drop, IfSome, IsNone, IsTrue};
ghost use Rattle.std.specs.List.{list_all};
ghost use Rattle.std.specs.Ordering.{nat_cmp, is_lt};
ghost use Rattle.std.specs.Cmp.Lexicographic.{slice_cmp};
ghost use Rattle.user_items.specs.Names.{is_from_to, is_user_defined_byte, is_user_defined_name};
ghost use Rattle.user_extension.specs.inside.Keys.{HasNoKey, IsKey, has_mark, is_marked, is_plain_byte, spot};

use byteorder::{BigEndian, ByteOrder};

/// How many bytes of a name its key has.
pub const KEY_BYTES: usize = 8;

// A bit for each of 4,096 spots. The bits at the spots of the keys of all capabilities' names, of
// `use` and of the empty name are set; a proof looks at each. The factor of [`spot`] was found by
// trying: it leaves few names of ncurses's entries at a set bit.
static MARKS: [u64; 64] = [
    0x00b0082000000001,
    0x3420000008010020,
    0x0a10020001010040,
    0x0001000000004001,
    0x80a220a000020800,
    0x0008429002000041,
    0x4000040200000042,
    0x240210081a808005,
    0x0018065c00001000,
    0x2020302010044002,
    0x08c8600004600080,
    0x1040400000084000,
    0x0200002300000000,
    0x200000001a010804,
    0x0402024000100300,
    0x4430022004642022,
    0x0008110000480002,
    0x9000000212000106,
    0x8800410680000000,
    0x042000a002000102,
    0xc0012c0001002200,
    0xc168001021330004,
    0x1202100100130010,
    0x8004010101000002,
    0x400040000e120004,
    0x0000000001003310,
    0x0000002000200401,
    0x0210208008000420,
    0x0800020081000111,
    0x0040028000100000,
    0x00000011000c3000,
    0x1220060012000050,
    0x0820120000210804,
    0xc420080101800100,
    0x0000000000008243,
    0x2202000040000280,
    0x00800020a4121000,
    0x1102000000142250,
    0xc0020000010a0208,
    0x820c000248071200,
    0x0001085000800084,
    0x00001204e0010801,
    0x2004825040004029,
    0x0120000240001008,
    0x4000000000203040,
    0x0000082000800000,
    0x0800001008008008,
    0x0002402040020243,
    0x4048000000018040,
    0x01000a1000300002,
    0x1004000000800130,
    0x0010000816088a00,
    0x0000200080100020,
    0x0101400001020028,
    0x1230011110010002,
    0x0000031000000000,
    0x600146c000004000,
    0x1020000080000900,
    0x02210040c4420000,
    0x000100000ba00040,
    0x0000000020001400,
    0x00d6400c00000080,
    0x0022094000141008,
    0x0002402002410640,
];

// Where the bit of a key is.
fn spot(key: u64) -> u64
    ensures value { result ≡ spot key }
    ensures within { result < 4096 }
{
    key.wrapping_mul(0x7468b866045ca97f) >> 52
}

// Whether the bit at a spot is set.
fn has_mark(marks: &[u64], spot: u64) -> bool
    requires { spot / 64 < length marks.now }
    ensures { result ≡ has_mark marks.now spot }
{
    (marks[(spot / 64) as usize] >> (spot % 64)) & 1 == 1
}

/// Whether a name with this key may be that of a capability, `use` or empty.
pub fn is_marked(key: u64) -> bool
    ensures { result ≡ is_marked key }
{
    has_mark(&MARKS, spot(key))
}

/// Whether each byte of a table may be in a user-defined name or is a NUL.
pub fn is_plain(table: &[u8]) -> bool
    ensures { result ≡ list_all is_plain_byte table.now }
{
    let mut plain = true;
    for byte in table {
        plain &= is_plain_byte(*byte);
    }
    plain
}

// Whether a byte may be in a user-defined name or is a NUL. No part of the test is skipped, so that
// many bytes are tested together.
fn is_plain_byte(byte: u8) -> bool
    ensures { result ≡ is_plain_byte byte }
{
    (byte == 0)
        | is_from_to(b'a', b'z', byte)
        | is_from_to(b'A', b'Z', byte)
        | is_from_to(b'0', b'9', byte)
        | (byte == b'%')
        | (byte == b'&')
        | (byte == b'*')
        | (byte == b'!')
}

fn is_from_to(first: u8, last: u8, byte: u8) -> bool
    ensures { result ≡ is_from_to first last byte }
{
    (first <= byte) & (byte <= last)
}

/// The key of a name at an offset of a table. None exactly if the name is empty or has eight bytes
/// or more, or fewer than eight are left from the offset on.
pub fn key_at(table: &[u8], offset: usize, name: &[u8]) -> Option<u64>
    requires within { offset < length table.now }
    requires name { name.now ≡ take (length name.now) (drop offset table.now) }
    ensures key { IfSome result (λ key. IsKey key name.now) }
    ensures none { IsNone result ↔ HasNoKey table.now offset name.now }
{
    let len = name.len();
    if len == 0 || len >= KEY_BYTES || table.len() - offset < KEY_BYTES {
        return None;
    }
    let unused = 8 * (KEY_BYTES - len);
    Some(BigEndian::read_u64(&table[offset..]) >> unused << unused)
}

/// Whether a name is user-defined. Its key shows that mostly, if its bytes are known to be plain.
pub fn is_name(name: &[u8], key: Option<u64>, plain: bool) -> bool
    requires key { IfSome key (λ k. IsKey k name.now) }
    requires plain { IsTrue plain → IsTrue (list_all is_user_defined_byte name.now) }
    ensures { result ≡ is_user_defined_name name.now }
{
    match key {
        Some(key) if plain && !is_marked(key) => true,
        _ => user_items::is_user_defined_name(name),
    }
}

/// Whether a name comes after the one before it. Their keys show that mostly.
pub fn rises(previous: &[u8], key_before: Option<u64>, name: &[u8], key: Option<u64>) -> bool
    requires before { IfSome key_before (λ k. IsKey k previous.now) }
    requires key { IfSome key (λ k. IsKey k name.now) }
    ensures { result ≡ is_lt (slice_cmp nat_cmp previous.now name.now) }
{
    match (key_before, key) {
        (Some(low), Some(high)) if low < high => true,
        _ => previous.cmp(name).is_lt(),
    }
}
