// One event after another on one machine, each with its answer.
use crate::machine::first_wrong;

#[test]
fn registers_names_and_images(rt: HostRuntime) {
    let rows: [(&str, &str); 23] = [
        ("read 17", "ok x:ffffffffffffffffffffffffffffffffffffffff"),
        ("", ""),
        ("extend 0 x:", "ok"),
        // SHA-1 of 20 zeros and the SHA-1 of `host`, by python3's hashlib.
        ("read 0", "ok x:0f1bdaadb3340e884d0b56a2e18f0e9dbccb8372"),
        ("extend 24 x:00", "no register"),
        ("let v x:0102", "ok"),
        ("show v+rep:ff*2", "ok x:0102ffff"),
        ("show v[1..2]~0", "ok x:03"),
        ("let v zz", "no name"),
        ("show v", "ok x:0102"),
        ("extend 24 zz", "no name"),
        ("show x:00[0..2]", "no range"),
        ("show x:00~1", "no range"),
        ("show rep:00*65537", "no long"),
        ("show x:0a0b[1..2]+x:", "ok x:0b"),
        ("image m pal 32 3 x:31db31c0cd80", "ok 38"),
        (
            "show m",
            "ok x:20002600464c4b4301000000030000000000000000000000000000000000000031db31c0cd80",
        ),
        ("image q pal 32 1 rep:90*49120", "ok 49152"),
        ("image q pal 32 1 rep:90*49121", "no image 2"),
        ("image m pal 32 1 x:", "no image 2"),
        ("image m pal 33 1 x:90", "no image 3"),
        ("image m pal 32 0 x:90", "no image 7"),
        ("show m[0..4]", "ok x:20002600"),
    ];
    let i = first_wrong(rt.alloc(), &rows);
    assert!(rt; i == rows.len(), "row {i}");
}

#[test]
fn memory(rt: HostRuntime) {
    let rows: [(&str, &str); 36] = [
        ("dma 0 x:01", "no blocked"),
        ("take 0", "no room"),
        ("take 1025", "no room"),
        ("take 2", "ok 0"),
        ("poke 0 x:aa", "ok"),
        ("peek 0 1", "ok x:aa"),
        ("poke 8191 x:bb", "ok"),
        ("peek 8191 1", "ok x:bb"),
        ("peek 8192 1", "no taken"),
        ("peek 8192 0", "ok x:"),
        ("peek 8193 0", "no taken"),
        ("poke 8191 x:0102", "no taken"),
        ("give 4096", "no span"),
        ("give 1", "no span"),
        ("take 1024", "no room"),
        ("give 0", "ok"),
        ("give 0", "no span"),
        ("peek 0 1", "no taken"),
        ("take 1", "ok 0"),
        ("peek 0 1", "ok x:00"),
        ("take 1", "ok 4096"),
        ("poke 4095 x:0102", "no taken"),
        ("dma 4095 x:0304", "ok"),
        ("peek 4095 1", "ok x:03"),
        ("peek 4096 1", "ok x:04"),
        ("dma 8191 x:0506", "no blocked"),
        ("peek 8191 1", "ok x:00"),
        ("dma 4294967295 x:", "ok"),
        ("poke 8192 zz", "no name"),
        ("peek 0 65537", "no long"),
        ("peek 0 65536", "no taken"),
        ("give 0", "ok"),
        ("give 4096", "ok"),
        ("take 1024", "ok 0"),
        ("peek 4194303 1", "ok x:00"),
        ("peek 0 65537", "no long"),
    ];
    let i = first_wrong(rt.alloc(), &rows);
    assert!(rt; i == rows.len(), "row {i}");
}
