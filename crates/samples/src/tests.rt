// Runs of the code on examples and on published vectors.
use banks::{Bank, ByteBank, JoinedBank, WordBank, replace};
use keys::keypad::reading::fnv_1a;
use keys::routes::chunk;
use keys::{Card, Code, Key};
use panel::Refusal;
use sizing::capacity_for;
use std::process::Abort;
use std::test::Fail;

#[test]
fn fnv_1a_gives_the_published_vectors(rt: HostRuntime) {
    let vectors: [(&str, u32); 12] = [
        ("", 0x811c9dc5),
        ("a", 0xe40c292c),
        ("b", 0xe70c2de5),
        ("c", 0xe60c2c52),
        ("d", 0xe10c2473),
        ("e", 0xe00c22e0),
        ("f", 0xe30c2799),
        ("fo", 0x6222e842),
        ("foo", 0xa9f37ed7),
        ("foob", 0x3f5076ef),
        ("fooba", 0x39aaa18a),
        ("foobar", 0xbf9cf968),
    ];
    for (text, hash) in vectors {
        assert_eq!(rt; fnv_1a(text.as_bytes()), hash, "{}", text);
    }
}

#[test]
fn the_code_gives_the_sample_figures(rt: HostRuntime) -> Result<(), Fail> {
    let one = Code::try_from(b"1".as_slice())?.hash();
    let figures = [
        Card(4294967296).hash(),
        chunk(33, 0),
        chunk(33, 1),
        one,
        chunk(one, 0),
        cells_beside_one(&rt, 33)?,
        cells_beside_one(&rt, 1025)?,
        cells_beside_one(&rt, 4294967296)?,
    ];
    assert_eq!(rt; figures, crate::sample_figures());
    Ok(())
}

// The cells for card 1, which comes twice, and another.
fn cells_beside_one(rt: &(impl Abort + AllocGlobal), other: u64) -> Result<u32, Fail> {
    let needs = capacity_for(rt.alloc(), &[Card(1), Card(other), Card(1)])?;
    assert_eq!(rt; needs.pairs, 2);
    Ok(u32::try_from(needs.cells)?)
}

// What every bank of three cells does, whatever it lies in.
fn behaves<B: Bank>(rt: &impl Abort, bank: &mut B) {
    assert_eq!(rt; bank.size(), 3);
    assert_eq!(rt; bank.put(2, 0xABCD), Ok(()));
    assert_eq!(rt; bank.swap(2, 0xABCD, 7), Ok(true));
    assert_eq!(rt; bank.swap(2, 0xABCD, 8), Ok(false));
    assert_eq!(rt; replace(bank, 2, 9), Ok(7));
    assert_eq!(rt; bank.read(2), Ok(9));
    assert_eq!(rt; bank.read(1), Ok(0));
    assert_eq!(rt; bank.read(3).map_err(Refusal::number), Err(51));
    assert_eq!(rt; replace(bank, 3, 1).map_err(Refusal::number), Err(51));
}

#[test]
fn all_banks_behave_alike(rt: HostRuntime) {
    behaves(&rt, &mut WordBank::over(&mut [0; 3]));
    behaves(&rt, &mut ByteBank::over(&mut [0; 7]));
    behaves(
        &rt,
        &mut JoinedBank::of(WordBank::over(&mut [0; 2]), ByteBank::over(&mut [0; 3])),
    );
}

#[test]
fn bytes_lie_high_first(rt: HostRuntime) {
    let mut bytes = [0x12, 0x34, 0x56, 0x78];
    let bank = ByteBank::over(&mut bytes);
    assert_eq!(rt; bank.read(0), Ok(0x1234));
    assert_eq!(rt; bank.read(1), Ok(0x5678));
}

#[test]
fn codes_are_one_to_eight_presses(rt: HostRuntime) {
    for text in ["", "123456789", "12a", "1 2", "12-"] {
        assert!(rt; Code::try_from(text.as_bytes()).is_err(), "{}", text);
    }
    for text in ["0", "*", "#", "12345678", "*12#*12#"] {
        assert!(rt; Code::try_from(text.as_bytes()).is_ok(), "{}", text);
    }
}
