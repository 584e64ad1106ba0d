// Which texts are journals, and which line of the others is not a call.
use script::entry::Entry;
use script::fault::ScriptFault;
use script::parse::parse;
use std::process::Abort;
use std::test::Fail;

#[test]
fn blank_lines_are_skipped(rt: HostRuntime) -> Result<(), Fail> {
    let script = parse(rt.alloc(), "\nopen 4\n\ndrop\ncheck :\nprice 1 2\n\n")?;
    assert_eq!(rt; script.slots, 4);
    assert_eq!(rt; script.entries.len(), 3);
    Ok(())
}

#[test]
fn an_empty_text_has_no_calls(rt: HostRuntime) -> Result<(), Fail> {
    let script = parse(rt.alloc(), "")?;
    assert_eq!(rt; script.slots, 192);
    assert_eq!(rt; script.entries.len(), 0);
    Ok(())
}

#[test]
fn the_line_that_is_no_call_is_named(rt: HostRuntime) {
    let fault = parse(rt.alloc(), "drop\n\nopen 4\n").err();
    assert_eq!(rt; fault, Some(ScriptFault::NotACall { line: 3 }));
}

#[test]
fn other_lines_are_no_calls(rt: HostRuntime) {
    let others = [
        "jump",
        "Drop",
        " drop",
        "drop ",
        "drop 1",
        "open",
        "open 4 4",
        "open 18446744073709551616",
        "price 1  2",
        "price 65536",
        "price -1",
        "price 1.5",
        "plan 1 2 3",
        "plan 1 2 3 4 5",
        "check 1 2",
        "check 1 : 2 : 3",
        "check : 9223372036854775808",
        "sheet ",
        "sheet 0",
        "sheet 000",
        "sheet 0g",
        "sheet g0",
        "sheet zz00",
        "sheet 00zz",
        "sheet +1",
        "sheet 0x00",
        "sheet 00 00",
        "sheet é",
        "replace 0",
        "add 0 1 2 3",
        "add 0 1 2 3 circle 1 2",
        "add 0 1 2 3 square 1",
        "add 0 1 2 3 square 1 2 3",
        "add 0 1 2 3 band 1 2 3",
        "add 0 1 2 3 knees 0 0",
        "add 0 1 2 3 knees 0 0 1",
        "add 0 1 2 3 knees 0 0 1 2147483648",
        "add 0 1 4294967296 3 square 1 2",
    ];
    for text in others {
        assert_eq!(rt;
            parse(rt.alloc(), text).err(),
            Some(ScriptFault::NotACall { line: 1 })
        );
    }
}

fn check_sheet(rt: &impl Abort, item: &Entry, expected: &[u8]) -> Result<(), Fail> {
    match item {
        Entry::Sheet(bytes) => {
            assert_eq!(rt; bytes.as_slice(), expected);
            Ok(())
        },
        _ => Err(Fail::new("not a sheet")),
    }
}

#[test]
fn a_sheet_is_written_in_digits_of_either_case(rt: HostRuntime) -> Result<(), Fail> {
    let script = parse(rt.alloc(), "sheet 0aF0\nsheet 0Af0\n")?;
    assert_eq!(rt; script.entries.len(), 2);
    for item in script.entries.iter() {
        check_sheet(&rt, item, &[10, 240])?;
    }
    Ok(())
}

#[test]
fn a_sheet_of_no_digits_is_empty(rt: HostRuntime) -> Result<(), Fail> {
    let script = parse(rt.alloc(), "sheet")?;
    assert_eq!(rt; script.entries.len(), 1);
    for item in script.entries.iter() {
        check_sheet(&rt, item, &[])?;
    }
    Ok(())
}
