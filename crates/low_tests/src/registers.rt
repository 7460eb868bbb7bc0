// That the registers show what TPM 1.2 says. The values are those of python3's hashlib.sha1: v is a
// register's old value and t a text in sha1(v + sha1(t).digest()).
use flk_base::read_hex;
use std::alloc::Global;
use tpm_state::{Bank, NoRegister};

// Whether the register holds the value that these digits spell.
fn is_shown(alloc: Global, bank: &Bank, r: u32, digits: &[u8]) -> bool {
    match (bank.read(r), read_hex(alloc, digits)) {
        (Ok(value), Ok(wanted)) => value.as_slice() == wanted.as_slice(),
        _ => false,
    }
}

#[test]
fn power_on_values(rt: HostRuntime) {
    let rows = [(0, 0x00), (16, 0x00), (17, 0xff), (22, 0xff), (23, 0x00)];
    for (i, (r, byte)) in rows.iter().enumerate() {
        assert!(rt; Bank::power_on().read(*r) == Ok([*byte; 20]), "row {i}");
    }
}

// A register, a text in two parts, and the digits of what the register holds once it is extended.
type ExtendRow<'a> = (u32, &'a [u8], &'a [u8], &'a [u8]);

fn is_extended(alloc: Global, row: ExtendRow<'_>) -> bool {
    let (r, prefix, text, digits) = row;
    let mut bank = Bank::power_on();
    bank.extend(r, prefix, text).is_ok() && is_shown(alloc, &bank, r, digits)
}

#[test]
fn extended_values(rt: HostRuntime) {
    let rows: [ExtendRow<'static>; 6] = [
        (0, b"", b"", b"31a2dc4c22f9c5444a41625d05f95898e055f750"),
        (0, b"", b"abc", b"ccd5bd41458de644ac34a2478b58ff819bef5acf"),
        (0, b"ab", b"c", b"ccd5bd41458de644ac34a2478b58ff819bef5acf"),
        (17, b"", b"", b"631f4f927a5b939cd983ae6c454aba28e2ad327e"),
        (
            17,
            b"in",
            b"put",
            b"36878398aab9df7f3bc1c2a723da6ecb6f493403",
        ),
        (
            23,
            b"in",
            b"put",
            b"058fcd9a47aec442b28b52dad15e9556008f587f",
        ),
    ];
    for (i, row) in rows.iter().enumerate() {
        assert!(rt; is_extended(rt.alloc(), *row), "row {i}");
    }
}

// Whether an image that is launched is all that register 17 has seen, and 18 stays as it was.
fn is_launched(alloc: Global) -> bool {
    let mut bank = Bank::power_on();
    if bank.extend(17, b"", b"before").is_err() {
        return false;
    }
    bank.reset17();
    bank.extend(17, b"", b"abc").is_ok()
        && is_shown(
            alloc,
            &bank,
            17,
            b"ccd5bd41458de644ac34a2478b58ff819bef5acf",
        )
        && bank.read(18) == Ok([0xff; 20])
}

#[test]
fn late_launch_of_an_image(rt: HostRuntime) {
    assert!(rt; is_launched(rt.alloc()), "launch");
}

// Whether there is no register of this number.
fn is_no_register(r: u32) -> bool {
    let mut bank = Bank::power_on();
    bank.read(r) == Err(NoRegister) && bank.extend(r, b"", b"abc") == Err(NoRegister)
}

#[test]
fn no_such_register(rt: HostRuntime) {
    for r in [24, u32::MAX] {
        assert!(rt; is_no_register(r), "register {r}");
    }
}
