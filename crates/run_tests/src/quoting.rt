// Quotes of register 17, and what a check says of them. Values and tags are by python3's hashlib and hmac:
// v = 20 zeros, extended by the image, b"pal" + each text, b"in" + inputs, b"out" + outputs, b"end" + bytes([end]) + nonce
// and b"close", where a text t makes v sha1(v + sha1(t)); the quote is v + hmac(hmac(seed, b"flk-quote"), b"FLKQ" + nonce + v).
use crate::machine::{Row, first_wrong};

// A quote, and what is changed in its check. Of a session with other texts, or none, the answer is no.
const CHECKED: &[Row] = &[
    ("let n rep:07*20", "ok"),
    (
        "image p pal 32 100 x:31c085c90f840d0000000fb61601d046490f85f3ffffff8907bb0400000031c0cd80",
        "ok 66",
    ),
    // Without a seed nothing is quoted and nothing checked; what is wrong with the line comes first.
    ("quote n", "no seed"),
    ("quote x:00", "no nonce"),
    ("quote zz", "no name"),
    ("check x: p x: x: 0 n", "no seed"),
    ("check x: p x: x: 256 n", "no end"),
    ("check x: p x: x: 256 n[0..19]", "no nonce"),
    ("check x: p x: x: 256 n[0..19] n[0..21]", "no range"),
    ("seed rep:5a*20", "ok"),
    (
        "session p x:010203 n o",
        "ok done turns 22 dma 0 0 0 x:06000000",
    ),
    (
        "quote n q",
        "ok x:41989ef2aad910affe4c11a43a393592aef598aa3115446c8e89f781672bb154e7c2ed482c713b83",
    ),
    (
        "show q",
        "ok x:41989ef2aad910affe4c11a43a393592aef598aa3115446c8e89f781672bb154e7c2ed482c713b83",
    ),
    ("check q p x:010203 o 0 n", "ok yes"),
    // Each part of a true check changed.
    ("check q~0 p x:010203 o 0 n", "ok no"),
    ("check q~19 p x:010203 o 0 n", "ok no"),
    ("check q~20 p x:010203 o 0 n", "ok no"),
    ("check q~39 p x:010203 o 0 n", "ok no"),
    ("check q[0..39] p x:010203 o 0 n", "ok no"),
    ("check q+x:00 p x:010203 o 0 n", "ok no"),
    ("check x: p x:010203 o 0 n", "ok no"),
    ("check q p~12 x:010203 o 0 n", "ok no"),
    ("check q p[0..65] x:010203 o 0 n", "ok no"),
    ("check q p x:010202 o 0 n", "ok no"),
    ("check q p x:0102 o 0 n", "ok no"),
    ("check q p x:010203 o+x:00 0 n", "ok no"),
    ("check q p x:010203 x: 0 n", "ok no"),
    ("check q p x:010203 o 1 n", "ok no"),
    ("check q p x:010203 o 4 n", "ok no"),
    ("check q p x:010203 o 10 n", "ok no"),
    ("check q p x:010203 o 255 n", "ok no"),
    ("check q p x:010203 o 0 rep:08*20", "ok no"),
    ("check q p x:010203 o 0 n~19", "ok no"),
    ("check q p x:010203 o 0 n x:", "ok no"),
    ("check q p x:010203 o 256 n", "no end"),
    ("check q p x:010203 o 4294967295 n", "no end"),
    ("check q p x:010203 o 0 rep:07*0", "no nonce"),
    ("check q p x:010203 o 0 rep:07*19", "no nonce"),
    ("check q p x:010203 o 0 rep:07*21", "no nonce"),
    ("quote rep:07*19", "no nonce"),
    ("quote rep:07*21", "no nonce"),
    ("check q p x:010203 o 0 n zz", "no name"),
    ("check q zz x:010203 o[0..5] 0 n", "no name"),
    ("check q p x:010203 o[0..5] 0 zz", "no range"),
    // A check changes nothing, and takes nothing: the quote is the same, and so is the answer.
    (
        "quote n",
        "ok x:41989ef2aad910affe4c11a43a393592aef598aa3115446c8e89f781672bb154e7c2ed482c713b83",
    ),
    ("extend 16 x:", "ok"),
    (
        "quote n r",
        "ok x:41989ef2aad910affe4c11a43a393592aef598aa3115446c8e89f781672bb154e7c2ed482c713b83",
    ),
    ("check r p x:010203 o 0 n", "ok yes"),
    // Another register does not matter; register 17 does, and the nonce of the quote.
    (
        "quote rep:08*20 r",
        "ok x:41989ef2aad910affe4c11a43a393592aef598aa6d66828328636067ad3b5c193c6af069eb6e7f91",
    ),
    ("check r p x:010203 o 0 n", "ok no"),
    ("check r p x:010203 o 0 rep:08*20", "ok no"),
    ("extend 17 x:", "ok"),
    (
        "quote n r",
        "ok x:5f7db0a9f516ad9304734fb273bd81d3ee4b3bcf818d9ebbbcea760bba6d5aa291036323a9d1542b",
    ),
    ("check r p x:010203 o 0 n", "ok no"),
    // The first quote tells of the session still.
    ("check q p x:010203 o 0 n", "ok yes"),
];

// Each end that a session can have has a byte of its own: a fault of three kinds, a spent budget, and a job image whose
// inputs are none.
const ENDS: &[Row] = &[
    ("seed rep:5a*20", "ok"),
    ("let n rep:07*20", "ok"),
    ("image f1 pal 32 9 x:ff", "ok 33"),
    ("session f1 x: n o", "ok fault 1 turns 1 dma 0 0 0 x:"),
    (
        "quote n q",
        "ok x:f640698785e987f13866b551f086ba53c8fd76545e4eede0eaa309494e20c226bc72959a9845e730",
    ),
    ("check q f1 x: o 0 n", "ok no"),
    ("check q f1 x: o 1 n", "ok yes"),
    ("check q f1 x: o 2 n", "ok no"),
    ("check q f1 x: o 3 n", "ok no"),
    ("check q f1 x: o 4 n", "ok no"),
    ("check q f1 x: o 5 n", "ok no"),
    ("check q f1 x: o 6 n", "ok no"),
    ("check q f1 x: o 7 n", "ok no"),
    ("check q f1 x: o 8 n", "ok no"),
    ("check q f1 x: o 9 n", "ok no"),
    ("check q f1 x: o 10 n", "ok no"),
    ("image f2 pal 32 9 x:8905fdff0000", "ok 38"),
    ("session f2 x: n o", "ok fault 2 turns 1 dma 0 0 0 x:"),
    (
        "quote n q",
        "ok x:df1e418325bb50a8f641ad5a040562ff243d148c7f0189b09df3c3ca060288c449e0f70da965f8f3",
    ),
    ("check q f2 x: o 0 n", "ok no"),
    ("check q f2 x: o 1 n", "ok no"),
    ("check q f2 x: o 2 n", "ok yes"),
    ("check q f2 x: o 3 n", "ok no"),
    ("check q f2 x: o 4 n", "ok no"),
    ("check q f2 x: o 5 n", "ok no"),
    ("check q f2 x: o 6 n", "ok no"),
    ("check q f2 x: o 7 n", "ok no"),
    ("check q f2 x: o 8 n", "ok no"),
    ("check q f2 x: o 9 n", "ok no"),
    ("check q f2 x: o 10 n", "ok no"),
    ("image f3 pal 32 100 x:f7f1", "ok 34"),
    ("session f3 x: n o", "ok fault 3 turns 1 dma 0 0 0 x:"),
    (
        "quote n q",
        "ok x:5ba96f964efc8cf26ff2031a82eb5c58c238918fef9d6672d8a0844bb8f506680f59d75476eb8798",
    ),
    ("check q f3 x: o 0 n", "ok no"),
    ("check q f3 x: o 1 n", "ok no"),
    ("check q f3 x: o 2 n", "ok no"),
    ("check q f3 x: o 3 n", "ok yes"),
    ("check q f3 x: o 4 n", "ok no"),
    ("check q f3 x: o 5 n", "ok no"),
    ("check q f3 x: o 6 n", "ok no"),
    ("check q f3 x: o 7 n", "ok no"),
    ("check q f3 x: o 8 n", "ok no"),
    ("check q f3 x: o 9 n", "ok no"),
    ("check q f3 x: o 10 n", "ok no"),
    ("image b pal 32 1 x:e9fbffffff", "ok 37"),
    ("session b x: n o", "ok budget turns 1 dma 0 0 0 x:"),
    (
        "quote n q",
        "ok x:a57de3ec86b9e7b45c486b9bd68b6fef1bbf5ccecc01b76f5bc5d673cb1d508176ed7de6b512f8f1",
    ),
    ("check q b x: o 0 n", "ok no"),
    ("check q b x: o 1 n", "ok no"),
    ("check q b x: o 2 n", "ok no"),
    ("check q b x: o 3 n", "ok no"),
    ("check q b x: o 4 n", "ok yes"),
    ("check q b x: o 5 n", "ok no"),
    ("check q b x: o 6 n", "ok no"),
    ("check q b x: o 7 n", "ok no"),
    ("check q b x: o 8 n", "ok no"),
    ("check q b x: o 9 n", "ok no"),
    ("check q b x: o 10 n", "ok no"),
    ("image j job 32 100 x:90", "ok 33"),
    ("session j x: n o", "ok refused 5 turns 0 dma 0 0 0 x:"),
    (
        "quote n q",
        "ok x:dffa76961a17536a32ebda50ed3e88702755eb69913c9b4099582f25f57908295e3d12286c83c9c6",
    ),
    ("check q j x: o 0 n", "ok no"),
    ("check q j x: o 1 n", "ok no"),
    ("check q j x: o 2 n", "ok no"),
    ("check q j x: o 3 n", "ok no"),
    ("check q j x: o 4 n", "ok no"),
    ("check q j x: o 5 n", "ok yes"),
    ("check q j x: o 6 n", "ok no"),
    ("check q j x: o 7 n", "ok no"),
    ("check q j x: o 8 n", "ok no"),
    ("check q j x: o 9 n", "ok no"),
    ("check q j x: o 10 n", "ok no"),
];

// Code that extends register 17 twice by its inputs past the second byte: the texts are told in their order.
const TEXTS: &[Row] = &[
    ("seed rep:5a*20", "ok"),
    ("let n rep:07*20", "ok"),
    ("let t x:616263", "ok"),
    (
        "image s pal 32 100 x:0fb6060fb66e0183c60283e90289f385c00f8402000000cd80baffffffff89e8cd8085c00f84070000008907b90400000089cb31c0cd80",
        "ok 87",
    ),
    (
        "session s x:0101+t n o",
        "ok done turns 16 dma 0 0 0 x:000000",
    ),
    (
        "quote n q",
        "ok x:099c34ce725d35d5a15bbdc5f6161deab132127f28ce5cfb19357ee78bf19ab4a7f2bde2ab60ff3e",
    ),
    ("check q s x:0101+t o 0 n t t", "ok yes"),
    ("check q s x:0101+t o 0 n t", "ok no"),
    ("check q s x:0101+t o 0 n", "ok no"),
    ("check q s x:0101+t o 0 n t t t", "ok no"),
    ("check q s x:0101+t o 0 n t x:616264", "ok no"),
    ("check q s x:0101+t o 0 n x:616264 t", "ok no"),
    ("check q s x:0101+t o 0 n t+t", "ok no"),
    ("check q s x:0101+t o 0 n x:70616c+t t", "ok no"),
];

// A quote of register 17 as it stands at power-on, and bytes that no device gave.
const UNMADE: &[Row] = &[
    ("seed rep:5a*20", "ok"),
    ("let n rep:07*20", "ok"),
    (
        "image p pal 32 100 x:31c085c90f840d0000000fb61601d046490f85f3ffffff8907bb0400000031c0cd80",
        "ok 66",
    ),
    (
        "quote n q",
        "ok x:ffffffffffffffffffffffffffffffffffffffff399df3059dd13d5d10c1f342e83bb532fdd36302",
    ),
    ("check q p x: x: 0 n", "ok no"),
    // Whoever knows the seed makes the bytes of any quote: a check compares them, and knows no more.
    (
        "check x:41989ef2aad910affe4c11a43a393592aef598aa3115446c8e89f781672bb154e7c2ed482c713b83 p x:010203 x:06000000 0 n",
        "ok yes",
    ),
];

#[test]
fn quotes_and_checks(rt: HostRuntime) {
    let scenarios: [&[Row]; 4] = [CHECKED, ENDS, TEXTS, UNMADE];
    for (i, rows) in scenarios.iter().enumerate() {
        let row = first_wrong(rt.alloc(), rows);
        assert!(rt; row == rows.len(), "scenario {i}, row {row}");
    }
}
