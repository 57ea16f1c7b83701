//! Names: their bytes, and how they are shown.

use adjust_kernel::Name;
use std::test::Fail;

#[test]
fn a_name_has_1_to_16_printable_bytes(rt: HostRuntime) {
    assert!(rt; Name::new(b"").is_none());
    assert!(rt; Name::new(b"12345678901234567").is_none());
    assert!(rt; Name::new(b"A\x7f").is_none());
    assert!(rt; Name::new(b"A\x1f").is_none());
    let name = Name::new(b"1234567890 ~AB,\"").expect(&rt, "a name");
    assert_eq!(rt; name.bytes(), b"1234567890 ~AB,\"".as_slice());
}

#[test]
fn a_name_shows_its_bytes_as_text(rt: HostRuntime) -> Result<(), Fail> {
    let name = Name::new(b"S1 ~").expect(&rt, "a name");
    assert_eq!(rt; name.to_string(rt.alloc())?.as_str(), "S1 ~");
    let longest = Name::new(b"1234567890 ~AB,\"").expect(&rt, "a name");
    assert_eq!(rt;
        longest.to_string(rt.alloc())?.as_str(),
        "1234567890 ~AB,\""
    );
    assert!(rt; longest != name);
    assert_eq!(rt; longest.clone().expect(&rt, "a copy"), longest);
    assert_eq!(rt; format!(in rt.alloc(); "{name:>6}")?.as_str(), "  S1 ~");
    assert_eq!(rt; Name::from_valid(b"S1 ~"), name);
    assert_eq!(rt; Name::of_end(b"0000S1 ~", 4), name);
    assert_eq!(rt; Name::of_end(b"000000000000S1 ~", 12), name);
    assert!(rt; name.is_same(&Name::of_end(b"S1 ~", 0)));
    assert!(rt; !name.is_same(&Name::of_end(b"S1 ~", 1)));
    assert_eq!(rt; Name::of_end(b"12345678", 7).bytes(), b"8".as_slice());
    assert_eq!(rt;
        Name::of_end(b"12345678", 0).bytes(),
        b"12345678".as_slice()
    );
    Ok(())
}
