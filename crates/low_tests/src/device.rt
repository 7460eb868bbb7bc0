// That the device shows what TPM 1.2 says. The values are those of python3's hashlib.sha1: v is a
// register's old value and t a text in sha1(v + sha1(t).digest()).
use flk_base::{Fuse, PowerLost};
use seal_device::{
    Device, RegisterFault, clean_runs_agree, clean_values_are_apart, commands_and_the_fuse,
    commands_by_registers, digested_is_a_homomorphism, fair_plans_agree, ledger_has_what_is_known,
};

const ZEROS: [u8; 20] = [0x00; 20];

const ONES: [u8; 20] = [0xff; 20];

// 20 bytes 00, extended by "host".
const HOST: [u8; 20] = [
    0x0f, 0x1b, 0xda, 0xad, 0xb3, 0x34, 0x0e, 0x88, 0x4d, 0x0b, 0x56, 0xa2, 0xe1, 0x8f, 0x0e, 0x9d,
    0xbc, 0xcb, 0x83, 0x72,
];

// An image of 6 bytes.
const IMAGE: [u8; 6] = [0x06, 0x00, 0x04, 0x00, 0xf4, 0xc3];

// 20 bytes 00, extended by the image.
const LAUNCHED: [u8; 20] = [
    0xe0, 0xcc, 0x23, 0x3e, 0xcb, 0xe4, 0x70, 0xac, 0x07, 0x25, 0x25, 0xc3, 0x29, 0xb3, 0x2f, 0xe5,
    0xac, 0x3b, 0xd6, 0x4b,
];

// The same, extended by "in".
const EXTENDED: [u8; 20] = [
    0xd2, 0xc6, 0x96, 0xdc, 0x3a, 0x5b, 0x9e, 0xa2, 0xc6, 0x45, 0x82, 0x87, 0xfb, 0xbd, 0x2f, 0x9c,
    0xa9, 0x8b, 0x9d, 0xdb,
];

// A register, what it shows at power-on, and what it shows once register 0 was extended by "host"
// and 17 by "in", the image was measured, and 17 was extended by "in" again.
type Row = (u32, [u8; 20], [u8; 20]);

// Whether the register of a device that took the calls shows this value.
fn shows(device: &Device, r: u32, value: [u8; 20]) -> bool {
    device.read_register(r, &mut Fuse { left: None }) == Ok(value)
}

// Whether a row is right.
fn is_row(row: Row) -> bool {
    let (r, first, last) = row;
    let mut device = Device::blank();
    let fuse = &mut Fuse { left: Some(5) };
    let before = shows(&device, r, first);
    let done = device.extend(0, b"ho", b"st", fuse) == Ok(())
        && device.extend(17, b"in", b"", fuse) == Ok(())
        && device.measure(&IMAGE, fuse) == Ok(())
        && device.extend(17, b"", b"in", fuse) == Ok(());
    let after = shows(&device, r, last);
    device.power_cycle();
    before && done && after && fuse.left == Some(1) && shows(&device, r, first)
}

#[test]
fn worked_rows(rt: HostRuntime) {
    let rows: [Row; 6] = [
        (0, ZEROS, HOST),
        (16, ZEROS, ZEROS),
        (17, ONES, EXTENDED),
        (18, ONES, ONES),
        (22, ONES, ONES),
        (23, ZEROS, ZEROS),
    ];
    for (i, row) in rows.iter().enumerate() {
        assert!(rt; is_row(*row), "row {i}");
    }
}

// Whether the measured image is seen at register 17 alone, and each call is refused as its number
// says.
fn is_refused() -> bool {
    let mut device = Device::blank();
    let fuse = &mut Fuse { left: Some(3) };
    device.measure(&IMAGE, fuse) == Ok(())
        && shows(&device, 17, LAUNCHED)
        && device.extend(24, b"", b"in", fuse) == Err(RegisterFault::NoRegister)
        && device.read_register(u32::MAX, fuse) == Err(RegisterFault::NoRegister)
        && device.extend(24, b"", b"in", fuse) == Err(RegisterFault::PowerLost)
        && device.read_register(0, fuse) == Err(RegisterFault::PowerLost)
        && device.measure(b"", fuse) == Err(PowerLost)
        && shows(&device, 17, LAUNCHED)
        && RegisterFault::NoRegister as u32 == 1
        && RegisterFault::PowerLost as u32 == 5
}

#[test]
fn refusals(rt: HostRuntime) {
    assert!(rt; is_refused(), "refusals");
}

#[test]
fn laws_at_types() {
    clean_runs_agree::<u32>();
    clean_values_are_apart();
    commands_and_the_fuse();
    commands_by_registers::<[u8; 20], ()>();
    digested_is_a_homomorphism::<u32>();
    fair_plans_agree::<u32>();
    ledger_has_what_is_known::<u32>();
}
