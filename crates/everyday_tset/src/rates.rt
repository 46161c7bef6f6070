//! The rates of a line.
ghost use Rattle.std.specs.Prelude.{◌≡◌};
ghost use Rattle.everyday_tset.specs.Rates.{code_named, high_code, without_B};

// The code of a rate that POSIX does not have.
fn high_code(name: &[u8]) -> Option<u32>
    ensures { result ≡ high_code name.now }
{
    if name == b"57600".as_slice() {
        return Some(4097);
    }
    if name == b"115200".as_slice() {
        return Some(4098);
    }
    if name == b"230400".as_slice() {
        return Some(4099);
    }
    if name == b"460800".as_slice() {
        return Some(4100);
    }
    if name == b"500000".as_slice() {
        return Some(4101);
    }
    if name == b"576000".as_slice() {
        return Some(4102);
    }
    if name == b"921600".as_slice() {
        return Some(4103);
    }
    if name == b"1000000".as_slice() {
        return Some(4104);
    }
    if name == b"1152000".as_slice() {
        return Some(4105);
    }
    if name == b"1500000".as_slice() {
        return Some(4106);
    }
    if name == b"2000000".as_slice() {
        return Some(4107);
    }
    if name == b"2500000".as_slice() {
        return Some(4108);
    }
    if name == b"3000000".as_slice() {
        return Some(4109);
    }
    if name == b"3500000".as_slice() {
        return Some(4110);
    }
    if name == b"4000000".as_slice() {
        return Some(4111);
    }
    None
}

/// The system's code for a rate in bits per second.
pub(crate) fn code_named(name: &[u8]) -> Option<u32>
    ensures { result ≡ code_named name.now }
{
    if name == b"0".as_slice() {
        return Some(0);
    }
    if name == b"50".as_slice() {
        return Some(1);
    }
    if name == b"75".as_slice() {
        return Some(2);
    }
    if name == b"110".as_slice() {
        return Some(3);
    }
    if name == b"134".as_slice() || name == b"134.5".as_slice() {
        return Some(4);
    }
    if name == b"150".as_slice() {
        return Some(5);
    }
    if name == b"200".as_slice() {
        return Some(6);
    }
    if name == b"300".as_slice() {
        return Some(7);
    }
    if name == b"600".as_slice() {
        return Some(8);
    }
    if name == b"1200".as_slice() {
        return Some(9);
    }
    if name == b"1800".as_slice() {
        return Some(10);
    }
    if name == b"2400".as_slice() {
        return Some(11);
    }
    if name == b"4800".as_slice() {
        return Some(12);
    }
    if name == b"9600".as_slice() {
        return Some(13);
    }
    if name == b"19200".as_slice() {
        return Some(14);
    }
    if name == b"38400".as_slice() {
        return Some(15);
    }
    high_code(name)
}

/// A rate without a `B` before its number.
pub(crate) fn without_b(name: &[u8]) -> &[u8]
    ensures { result.now ≡ without_B name.now }
{
    match name.split_first() {
        Some((b'B', number)) => number,
        _ => name,
    }
}
