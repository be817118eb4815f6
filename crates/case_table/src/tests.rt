use super::{Case, CaseFault, CaseTable};

const DOG: u16 = 7;

fn case(name: &'static [u8], code: u16) -> Case {
    Case { name, code }
}

#[test]
fn finds_the_code_of_each_name_and_of_no_other(rt: HostRuntime) {
    let table = CaseTable::<2>::new([case(b"a", 1), case(b"b", 2)])
        .ok()
        .expect(&rt, "they rise");
    assert_eq!(rt; table.find(b"a"), Some(1));
    assert_eq!(rt; table.find(b"b"), Some(2));
    assert_eq!(rt; table.find(b"c"), None);
    assert_eq!(rt; table.find(b""), None);
    assert_eq!(rt; table.find(b"ab"), None);
}

#[test]
fn tells_the_first_name_that_is_not_greater(rt: HostRuntime) {
    let falls = CaseTable::<2>::new([case(b"b", 1), case(b"a", 2)]);
    assert_eq!(rt; falls.err(), Some(CaseFault::NotRising(1)));
    let stands_twice = CaseTable::<4>::new([
        case(b"", 1),
        case(b"x", 1),
        case(b"x", 2),
        case(b"a", 3),
    ]);
    assert_eq!(rt; stands_twice.err(), Some(CaseFault::NotRising(2)));
    let no_rows = CaseTable::<0>::new([]);
    assert!(rt; no_rows.is_ok());
}

#[test]
fn chooses_by_the_code_found(rt: HostRuntime) {
    let table = CaseTable::<3>::new([case(b"cat", 5), case(b"cats", 6), case(b"dog", DOG)])
        .ok()
        .expect(&rt, "they rise");
    let said = |name: &[u8]| crate::cases!(table.find(name); 5 => "meow", DOG => "woof"; "nothing");
    assert_eq!(rt; said(b"cat"), "meow");
    assert_eq!(rt; said(b"cats"), "nothing");
    assert_eq!(rt; said(b"dog"), "woof");
    assert_eq!(rt; said(b"cow"), "nothing");
}
