//! The calls of lists and values that take memory, with ample memory.
use fx8::{IntKind, ItemList, Text8};
use mql_mean::Value;
use std::test::Fail;

#[test]
fn lists_grow_by_what_is_given(rt: HostRuntime) -> Result<(), Fail> {
    let mut list = Text8::from_slice(rt.alloc(), b"ab")?;
    list.reserve(100)?;
    list.push(b'c')?;
    list.extend_from_slice(b"de")?;
    list.append(Text8::from_slice(rt.alloc(), b"fg")?)?;
    assert_eq!(rt; list.as_slice(), b"abcdefg".as_slice());
    Ok(())
}

#[test]
fn values_are_copied_whole(rt: HostRuntime) -> Result<(), Fail> {
    let mut items = ItemList::new(rt.alloc());
    items.push(Value::Num(IntKind::Int, -7))?;
    items.push(Value::Arr(ItemList::new(rt.alloc())))?;
    let copy = Value::Rec(items).copy(rt.alloc())?;
    let Value::Rec(fields) = copy else {
        return Err("no structure".into());
    };
    assert_eq!(rt; fields.len(), 2);
    assert!(rt; matches!(fields.at(0), Some(Value::Num(IntKind::Int, -7))));
    assert!(rt; matches!(fields.at(1), Some(Value::Arr(items)) if items.is_empty()));
    Ok(())
}
