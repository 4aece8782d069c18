//! Entries of the tables by hand, from the MQL5 Reference.
use fx8::Text;
use natives::{Native, constant_named, named, predefined_named, supplied_named};
use std::alloc::Global;
use std::test::Fail;

/// The units of an ASCII text.
fn units(alloc: Global, source: &str) -> Result<Text, Fail> {
    let mut text = Text::new(alloc);
    for byte in source.as_bytes() {
        text.push(u16::from(*byte))?;
    }
    Ok(text)
}

/// The number of the function that a name means, its parameters, and the least number of arguments.
fn seen(name: &Text) -> Option<(u8, usize, usize)> {
    let native = named(name.as_slice())?;
    Some((
        native.number(),
        native.parameters().len(),
        native.least_arguments(),
    ))
}

#[test]
fn functions(rt: HostRuntime) -> Result<(), Fail> {
    let alloc: Global = rt.alloc();
    let table: [(&str, Option<(u8, usize, usize)>); 10] = [
        ("StringLen", Some((0, 1, 1))),
        ("StringSubstr", Some((1, 3, 2))),
        ("ArrayCopy", Some((26, 5, 2))),
        ("fabs", Some((34, 1, 1))),
        ("Print", Some((49, 1, 0))),
        ("printf", Some((50, 2, 1))),
        ("iMA", Some((86, 6, 6))),
        ("HistoryDealGetString", Some((111, 2, 2))),
        ("stringlen", None),
        ("", None),
    ];
    for (name, expected) in table {
        let name = units(alloc, name)?;
        assert_eq!(rt; seen(&name), expected);
    }
    assert!(rt; Native::Print.takes_more());
    Ok(())
}

#[test]
fn other_names(rt: HostRuntime) -> Result<(), Fail> {
    let alloc: Global = rt.alloc();
    assert!(rt; constant_named(units(alloc, "PERIOD_H4")?.as_slice()).is_some());
    assert!(rt; constant_named(units(alloc, "PERIOD_H2")?.as_slice()).is_none());
    assert!(rt; supplied_named(units(alloc, "MqlTick")?.as_slice()).is_some());
    assert!(rt; supplied_named(units(alloc, "ENUM_INIT_RETCODE")?.as_slice()).is_none());
    assert!(rt; predefined_named(units(alloc, "_Point")?.as_slice()).is_some());
    Ok(())
}
