//! Values that are made.
use isle_run::Value;
use std::alloc::{AllocError, Global};
use std::test::Fail;

/// Data of two fields.
fn data(alloc: Global) -> Result<Value, AllocError> {
    let fields = vec![in alloc; Value::int(alloc, 1)?, Value::opaque(alloc, 2)?]?;
    Value::data(alloc, "Op.Add", fields)
}

/// The value of a maker, by its name.
fn value_of(alloc: Global, maker: &str) -> Result<Value, AllocError> {
    match maker {
        "bool" => Value::bool(alloc, false),
        "int" => Value::int(alloc, -5),
        "big" => Value::big(alloc, u128::MAX),
        "constant" => Value::constant(alloc, "A"),
        "opaque" => Value::opaque(alloc, 7),
        _ => data(alloc),
    }
}

/// Each maker's value is printed as it should be.
#[test]
fn values_are_made(rt: HostRuntime) -> Result<(), Fail> {
    let alloc = rt.alloc();
    for (maker, wanted) in [
        ("bool", "false"),
        ("int", "-5"),
        ("big", "340282366920938463463374607431768211455"),
        ("constant", "$A"),
        ("opaque", "v7"),
        ("data", "(Op.Add 1 v2)"),
    ] {
        if value_of(alloc, maker)?.print(alloc)?.as_str() != wanted {
            return Err(Fail::from("another print"));
        }
    }
    Ok(())
}
